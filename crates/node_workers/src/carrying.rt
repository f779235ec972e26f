//! An attempt on its way to the ESME.

ghost use Rattle.std.specs.Prelude.{◌≡◌, IfOk, OnErr};
ghost use Rattle.node_workers.specs.Attempts.{IsCarried, IsCarriedBy};

use delivery::DeliverFault;
use fate_chain::Chain;
use node_threads::{Refusal, Slip};
use pdu_codec::Pdu;
use std::alloc::Global;
use std::sync::Wait;
use worker_parts::{Gate, attempt_octets};

/// Hands the gate the octets of the attempt that a grant gave out, with this sequence_number: the answer of the ESME, or none. Memory is want of memory, and
/// NotGranted comes exactly if the slip has no chain that ends in an attempt, as that of no grant is. An `Err` comes before the gate is asked.
pub(crate) fn carried_by<R: Wait, G: Gate<R>>(
    rt: &R,
    gate: &mut G,
    granted: &Slip,
    sequence: u32,
) -> Result<Option<Pdu>, Refusal>
    ensures carried { IfOk result (λ answer. IsCarriedBy G.answers granted.now sequence gate.old answer gate.new) }
    ensures err { OnErr result (gate.new ≡ gate.old) }
{
    let outputs = granted.outputs();
    let Some(chain) = &outputs.granted else {
        return Err(Refusal::NotGranted);
    };
    carried(rt, *outputs.packets.allocator(), gate, chain, sequence)
}

/// The same of the chain.
fn carried<R: Wait, G: Gate<R>>(
    rt: &R,
    alloc: Global,
    gate: &mut G,
    chain: &Chain,
    sequence: u32,
) -> Result<Option<Pdu>, Refusal>
    ensures carried { IfOk result (λ answer. IsCarried G.answers chain.now sequence gate.old answer gate.new) }
    ensures err { OnErr result (gate.new ≡ gate.old) }
{
    let octets = match attempt_octets(alloc, chain, sequence) {
        Ok(octets) => octets,
        Err(fault) => return Err(refused_as(fault)),
    };
    let account = chain.submission().target.octets();
    Ok(gate.deliver(rt, account, octets.as_slice()))
}

/// The refusal of an attempt that has no octets.
fn refused_as(fault: DeliverFault) -> Refusal {
    match fault {
        DeliverFault::Memory => Refusal::Memory,
        DeliverFault::NoAttempt => Refusal::NotGranted,
    }
}
