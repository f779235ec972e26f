//! A worker.

ghost use Rattle.std.specs.Prelude.{◌≡◌, OnErr, OnOk};
ghost use Rattle.node_workers.specs.Attempts.{HasStopped, HasWorked};

use crate::attempting::{Heard, tried};
use crate::home::Home;
use node_threads::{Begins, Cluster, Life, Refusal, Seat};
use sessions::sequence_after;
use stable_store::StableStore;
use std::sync::Wait;
use worker_parts::{Gate, Hints};

/// The sequence_number of a worker's first octets.
const FIRST_SEQUENCE: u32 = 1;

/// Attempts what it hears of: each attempt that the node grants in this life is carried through the gate, and what the gate gave is handed in. No lock is held
/// meanwhile. The octets of its attempts are numbered from 1; after 0x7fffffff comes 1 again.
///
/// It ends with Ok once the hints are shut and none is left. An attempt that is not granted is skipped, and any other refusal ends it: a permit that it has
/// then is given up, and its attempt stays granted, and is not granted again, until the node starts anew. Memory comes also if there is none for the octets
/// of an attempt that was granted.
pub fn worker<S: StableStore, L: Begins, R: Wait, G: Gate<R>>(
    cluster: &Cluster<S, L>,
    rt: &R,
    seat: &mut Seat<L>,
    life: &Life,
    hints: &Hints,
    gate: &mut G,
) -> Result<(), Refusal>
    ensures ok { OnOk result (HasWorked G.answers life.now.node seat.old.slips gate.old seat.new.slips gate.new) }
    ensures err { OnErr result (HasStopped G.answers life.now.node seat.old.slips gate.old seat.new.slips) }
{
    let home = Home { cluster, life };
    let mut sequence = FIRST_SEQUENCE;
    for _ in rt.forever() {
        let Some(id) = hints.take(rt) else {
            return Ok(());
        };
        if tried(rt, &home, seat, gate, Heard { id, sequence })? {
            sequence = sequence_after(sequence);
        }
    }
    unreachable!()
}
