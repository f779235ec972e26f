//! One attempt, from its grant to what came of it.

ghost use Rattle.std.specs.Prelude.{◌≡◌, ◌++◌, ◌∷◌, [], IfNone, IfOk, IfSome, OnErr, OnOk, false, true};
ghost use Rattle.std.specs.declared.option.Option.{Option as Maybe};
ghost use Rattle.pdu_bodies.specs.declared.pdu.Pdu.{Pdu as Given};
ghost use Rattle.node_threads.specs.Slips.{Slipped};
ghost use Rattle.node_threads.specs.Step.TheVariants as steps;
ghost use Rattle.node_workers.specs.Attempts.{IsAnsweredAt, IsGrantAt, IsUnanswered, Leaves, Tries, skipping};

use crate::carrying::carried_by;
use crate::home::Home;
use delivery::Outcome;
use mc_types::MsgId;
use node_threads::{Begins, Permit, Refusal, Seat, Slip};
use pdu_codec::Pdu;
use stable_store::StableStore;
use std::sync::Wait;
use worker_parts::{Gate, attempt_outcome};

/// What a worker heard of: the message, and the sequence_number of the octets if its attempt is granted.
#[derive(Clone, Copy, Debug, PartialEq, Eq)]
pub struct Heard {
    pub id: MsgId,
    pub sequence: u32,
}

/// Tries the attempt of a message: whether it was granted, and then carried through the gate, and answered with what the gate gave. One that is not granted is
/// skipped. At any other refusal the permit is given up, if there is one; no slip is added but that of the grant. `worker` goes on so with what it hears of; who
/// looks at the slips of each attempt calls this alone.
pub fn tried<S: StableStore, L: Begins, R: Wait, G: Gate<R>>(
    rt: &R,
    home: &Home<'_, S, L>,
    seat: &mut Seat<L>,
    gate: &mut G,
    heard: Heard,
) -> Result<bool, Refusal>
    ensures tried { IfOk result (Tries G.answers home.now.life.now.node heard.sequence seat.old.slips gate.old seat.new.slips gate.new) }
    ensures err { OnErr result (Leaves home.now.life.now.node seat.old.slips seat.new.slips) }
{
    match granted(rt, home, seat, heard.id)? {
        Some((slip, permit)) => {
            let answer = match carried_by(rt, gate, &slip, heard.sequence) {
                Ok(answer) => answer,
                Err(refusal) => {
                    permit.abandon();
                    return Err(refusal);
                }
            };
            let outcome = attempt_outcome(heard.sequence, answer);
            answered(rt, home, seat, permit, outcome)?;
            Ok(true)
        }
        None => Ok(false),
    }
}

/// Has the attempt of a message granted: its slip and its permit, or none if it is not granted. Any other refusal is told, and adds no slip.
fn granted<'a, S: StableStore, L: Begins, R: Wait>(
    rt: &R,
    home: &Home<'a, S, L>,
    seat: &mut Seat<L>,
    id: MsgId,
) -> Result<Option<(Slip, Permit<'a>)>, Refusal>
    ensures step { IfOk result (λ found. IfSome found (λ granted. granted.0.entry.done.step ≡ steps.Grant home.now.life.now.node id)) }
    ensures slips { IfOk result (λ found. IfSome found (λ granted. seat.new.slips ≡ seat.old.slips ++ granted.0 ∷ [])) }
    ensures life { IfOk result (λ found. IfSome found (λ granted. granted.1.life ≡ home.now.life.now)) }
    ensures skipped { IfOk result (λ found. IfNone found (seat.new.slips ≡ seat.old.slips)) }
    ensures err { OnErr result (seat.new.slips ≡ seat.old.slips) }
{
    unless_ungranted(home.cluster.grant(rt, seat, home.life, id))
}

/// None in place of Grant, which is the one refusal that is skipped.
fn unless_ungranted<T>(granted: Result<T, Refusal>) -> Result<Option<T>, Refusal>
    ensures { result ≡ skipping granted }
{
    match granted {
        Ok(granted) => Ok(Some(granted)),
        Err(Refusal::Grant(_)) => Ok(None),
        Err(refusal) => Err(refusal),
    }
}

/// Hands in what came of the attempt of a permit, which spends the permit. At a refusal it is given up, if it is handed back; no slip is added then.
fn answered<S: StableStore, L: Begins, R: Wait>(
    rt: &R,
    home: &Home<'_, S, L>,
    seat: &mut Seat<L>,
    permit: Permit<'_>,
    outcome: Outcome,
) -> Result<(), Refusal>
    ensures slips { OnOk result ((slip : Slipped) × (slip.entry.done.step ≡ steps.Answered permit.entry.life.node permit.entry.slot outcome)
        × (seat.new.slips ≡ seat.old.slips ++ slip ∷ [])) }
    ensures err { OnErr result (seat.new.slips ≡ seat.old.slips) }
{
    match home.cluster.answered(rt, seat, permit, outcome) {
        Ok(slip) => {
            drop(slip);
            Ok(())
        }
        Err((refusal, permit)) => {
            if let Some(permit) = permit {
                permit.abandon();
            }
            Err(refusal)
        }
    }
}
