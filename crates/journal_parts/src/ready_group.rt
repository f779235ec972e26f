//! Steps of several packets that were prepared to be saved together.

ghost use Rattle.std.specs.Prelude.{◌≡◌, ◌<◌, IfOk, Some, length, map};
ghost use Rattle.std.specs.Arc.{arc_value};
ghost use Rattle.std.specs.List.{slice_get};
ghost use Rattle.synod_acceptor.specs.declared.packet.Packet.{Packet as Sent};
ghost use Rattle.node_entry.specs.declared.step.Step.TheVariants as steps;
ghost use Rattle.journal_parts.specs.Gathering.{AllDeliver, AreNumbered, IsGathered};

use crate::copies::EntryCopies;
use crate::done::Done;
use crate::entry::Entry;
use mc_types::NodeNo;
use node_core::StepGroup;
use node_entry::Step;
use node_runs::is_well_made;
use std::alloc::{AllocError, Global};
use std::marker::Model;
use std::sync::Arc;

/// The steps of several packets that are saved together, prepared so far that nothing but their save can fail, and the entry of each for all that will share
/// it. Contracts see what the node kept as they were prepared, and the steps as they will stand in the journal, in their order.
#[derive(Drop)]
pub struct ReadyGroup {
    pub(crate) group: StepGroup,
    pub(crate) dones: Vec<Arc<Done>>,
    pub(crate) copies: Vec<EntryCopies>,
}

impl Model for ReadyGroup {
    ghost use Rattle.std.specs.Prelude.{◌≡◌, map};
    ghost use Rattle.std.specs.Arc.{arc_value};
    ghost use Rattle.journal_parts.specs.Gathering.{AreGathered, Gathered, entry_done};

    ghost Value = { Gathered };

    ghost view = { λ r. record { was = r.group.was; dones = map arc_value r.dones.items } };

    ghost invariant = { λ r.
        AreGathered r.group.was r.group.packets (map arc_value r.dones.items)
        × (r.copies.items ≡ map entry_done (map arc_value r.dones.items)) };
}

impl ReadyGroup {
    /// The steps of a group whose packets have these numbers, at this node. An `Err` is want of memory.
    pub(crate) fn of(
        alloc: Global,
        node: NodeNo,
        group: StepGroup,
        numbers: &[u64],
    ) -> Result<ReadyGroup, AllocError>
        requires node { node ≡ group.was.setup.node }
        requires numbers { length numbers.now ≡ length group.packets }
        ensures was { IfOk result (λ ready. ready.was ≡ group.was) }
        ensures count { IfOk result (λ ready. length ready.dones ≡ length group.packets) }
        ensures steps { IfOk result (λ ready. AllDeliver node ready.dones) }
        ensures numbers { IfOk result (λ ready. AreNumbered node numbers.now ready.dones) }
    {
        let mut dones = Vec::with_capacity(alloc, numbers.len())?;
        let mut copies = Vec::with_capacity(alloc, numbers.len())?;
        for place in 0..numbers.len() {
            let done = done_at(
                alloc,
                &group,
                place,
                Step::Deliver {
                    number: numbers[place],
                    node,
                },
            )?;
            copies.push(EntryCopies::of(&Entry::of(Arc::try_clone(&done)?))?)?;
            dones.push(done)?;
        }
        Ok(ReadyGroup {
            group,
            dones,
            copies,
        })
    }
}

/// The step of the packet at a place of a group, with what it will give out, for several owners. An `Err` is want of memory.
fn done_at(
    alloc: Global,
    group: &StepGroup,
    place: usize,
    step: Step,
) -> Result<Arc<Done>, AllocError>
    requires place { place < length group.now.packets }
    requires step { (number : _) × (step ≡ steps.Deliver number group.now.was.setup.node) }
    ensures step { IfOk result (λ done. (arc_value done).step ≡ step) }
    ensures gathered { IfOk result (λ done. (packet : Sent) → slice_get group.now.packets place ≡ Some packet → IsGathered group.now.was packet (arc_value done)) }
{
    let Some(packet) = group.packet(place) else {
        unreachable!();
    };
    is_well_made(packet);
    let packet = packet.copy()?;
    let outputs = group.outputs()[place].copy()?;
    Ok(Arc::new(
        alloc,
        Done {
            step,
            packet: Some(packet),
            outputs,
        },
    )?)
}
