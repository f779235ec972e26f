//! A list of steps of a world.

ghost use Rattle.std.specs.Prelude.{◌≡◌, length, map, true, IfOk, OnErr};
ghost use Rattle.synod_acceptor.specs.Packets.{packet_of};
ghost use Rattle.world_runs.specs.Tellings.{AllReceiptsStand, CancelsAreDeletions, GrantsNoneAfterACancel, IdsAreNotRefusedAtOnce};
ghost use Rattle.world_runs.specs.Traces.{
  AcceptedAreKnown,
  AreCopies,
  AreChosen,
  DeliveriesStand,
  DeliveriesStandInRuns,
  GrantsNoneAfterAFate,
  HasOneFate,
  HasOneReceipt,
  LaterQueriesAreTold,
  LeadsAll,
  events_of,
};
ghost use Rattle.world_runs.specs.Histories.{BecomesBy};
ghost use Rattle.world_runs.specs.Statements.{Agree, statements_of};

use crate::trace::Trace;
use std::alloc::{AllocError, Global};
use std::collections::VecDeque;
use world::{Step, World};

/// Takes these steps, one after the other, whatever each gives. For every list of steps in which packets are delivered, lost, repeated or reordered
/// and nodes stop and start anew: no two final states that are told of one message differ; of each message_id one receipt goes out at most; once a final state
/// was told, no attempt of the message is granted, and ESME_ROK to its cancel_sm tells such a state, DELETED; each receipt stands on a chain that ends in a Told
/// of the node that gives it out; each DELIVERED that is told stands on an attempt that was granted and answered by ESME_ROK, by these steps if no step was
/// taken before them; and what comes later is answered by what was told, while its node does not start anew. An `Err` is want of memory for the steps once
/// more, or for what they give; then none was taken.
pub fn run(alloc: Global, world: &mut World, steps: Vec<Step>) -> Result<Trace, AllocError>
    ensures asked { IfOk result (λ trace. trace.steps.items ≡ steps.items) }
    ensures leads { IfOk result (λ trace. LeadsAll world.old steps.items trace.answers.items world.new) }
    ensures becomes { IfOk result (λ trace. BecomesBy world.old (events_of steps.items trace.answers.items) world.new) }
    ensures one_fate { IfOk result (λ trace. HasOneFate trace.answers.items) }
    ensures one_receipt { IfOk result (λ trace. HasOneReceipt trace.answers.items) }
    ensures agree { IfOk result (λ trace. Agree (statements_of trace.answers.items)) }
    ensures no_grant { IfOk result (λ trace. GrantsNoneAfterAFate trace.answers.items) }
    ensures cancelled { IfOk result (λ trace. CancelsAreDeletions trace.answers.items) }
    ensures stays_cancelled { IfOk result (λ trace. GrantsNoneAfterACancel trace.answers.items) }
    ensures receipts_stand { IfOk result (λ trace. AllReceiptsStand (events_of steps.items trace.answers.items)) }
    ensures stands { IfOk result (λ trace. world.old.fresh ≡ true → DeliveriesStand (events_of steps.items trace.answers.items)) }
    ensures stands_in_its_run { IfOk result (λ trace. DeliveriesStandInRuns world.old steps.items trace.answers.items) }
    ensures chosen { IfOk result (λ trace. world.old.fresh ≡ true →
        AreChosen (length world.new.members) (map packet_of world.new.packets) trace.answers.items) }
    ensures fresh_answers { IfOk result (λ trace. LaterQueriesAreTold (events_of steps.items trace.answers.items)) }
    ensures known { IfOk result (λ trace. AcceptedAreKnown (events_of steps.items trace.answers.items)) }
    ensures at_once { IfOk result (λ trace. IdsAreNotRefusedAtOnce (events_of steps.items trace.answers.items)) }
    ensures stays { OnErr result (world.new ≡ world.old) }
{
    world.stands();
    let copies = steps_copied(&steps)?;
    let mut answers = Vec::with_capacity(alloc, copies.len())?;
    let mut left = VecDeque::from_vec(copies);
    while let Some(step) = left.pop_front() {
        let answer = world.step(step);
        let Ok(()) = answers.push(answer) else {
            unreachable!();
        };
    }
    Ok(Trace { steps, answers })
}

/// The same steps once more. An `Err` is want of memory.
fn steps_copied(steps: &Vec<Step>) -> Result<Vec<Step>, AllocError>
    ensures { IfOk result (λ copies. AreCopies steps.now.items copies.items) }
{
    let mut copies = Vec::with_capacity(*steps.allocator(), steps.len())?;
    for step in steps {
        copies.push(step.copy()?)?;
    }
    Ok(copies)
}
