//! Several steps that wait to be saved together.

ghost use Rattle.std.specs.Prelude.{◌≡◌, ◌==◌, IsSome, None, Some, map, length};
ghost use Rattle.std.specs.List.{list_any, slice_get};
ghost use Rattle.std.specs.Option.{option_copied};
ghost use Rattle.mc_model.specs.node.Input.{Delivery};
ghost use Rattle.node_model.specs.Stepped.{stepped};
ghost use Rattle.synod_acceptor.specs.Packets.{packet_of};
ghost use Rattle.node_kept.specs.Grouping.{HasJoined, IsAlone, asked_in, is_asked_in, join_fault};
ghost use Rattle.node_kept.specs.Keeping.{kept_of};
ghost use Rattle.node_kept.specs.Steps.{outputs_of};

use crate::grouped_step::GroupedStep;
use crate::kept::Kept;
use crate::step::Step;
use mc_types::MsgId;
use node_parts::{MessageRoom, Outputs};
use std::marker::Model;
use std::snapshot::Snapshot;
use synod_acceptor::{Change, Packet};

/// The most packets of a group.
pub const MOST_GROUPED: usize = 64;

/// The steps of several packets, each a Prepare or a Propose of another message, that were prepared over what is kept and wait to be saved together.
/// Contracts see what was kept then, the packets in their order, and the changes that are to be saved.
#[derive(Drop)]
pub struct StepGroup {
    pub(crate) was: Snapshot<Kept>,
    pub(crate) steps: Vec<GroupedStep>,
    pub(crate) outputs: Vec<Outputs>,
    pub(crate) changes: Vec<Change>,
    // Room for all messages that they may be the first to name.
    pub(crate) room: MessageRoom,
}

impl Model for StepGroup {
    ghost use Rattle.node_kept.specs.Grouping.{Grouped, packets_in};

    ghost Value = { Grouped };

    ghost use Rattle.node_kept.specs.Grouping.{IsGroup};

    ghost view = { λ g. record { was = g.was.value; packets = packets_in g.steps.items; changes = g.changes.items } };

    ghost invariant = { λ g. IsGroup g.was.value g.steps g.outputs g.changes g.room };
}

impl StepGroup {
    /// What each step gives out, in their order, once the group is saved.
    pub fn outputs(&self) -> &[Outputs]
        ensures { map outputs_of result.now
            ≡ map (λ packet. (stepped self.now.was.setup (kept_of self.now.was) (Delivery (packet_of packet))).outputs) self.now.packets }
    {
        &self.outputs
    }

    /// The changes that are to be saved, in the order of their packets.
    pub fn changes(&self) -> &[Change]
        ensures { result.now ≡ self.now.changes }
    {
        &self.changes
    }

    /// How many packets are in it.
    pub fn len(&self) -> usize
        ensures { result ≡ length self.now.packets }
    {
        self.steps.len()
    }

    /// The packet at a place, from 0, in the order in which they joined; none behind the last.
    pub fn packet(&self, place: usize) -> Option<&Packet>
        ensures { option_copied result ≡ slice_get self.now.packets place }
    {
        match self.steps.get(place) {
            Some(step) => Some(&step.packet),
            None => None,
        }
    }

    /// Puts the step of a packet behind the others, if that may join and changes a record. It takes no memory.
    pub(crate) fn put(&mut self, packet: Packet, id: MsgId, step: Step)
        requires asked { asked_in self.old.was.setup (packet_of packet) ≡ Some id }
        requires allowed { join_fault self.old packet ≡ None }
        requires alone { IsAlone id self.old.was (λ setup kept. stepped setup kept (Delivery (packet_of packet))) step }
        requires saves { IsSome step.next.change }
        ensures { HasJoined self.old packet self.new }
    {
        let whole = Snapshot::of(&step);
        let Step { outputs, mut next } = step;
        next.room = None;
        let Some(change) = next.change.take() else {
            unreachable!();
        };
        self.steps.push_reserved(GroupedStep {
            packet,
            id,
            next,
            whole,
        });
        self.outputs.push_reserved(outputs);
        self.changes.push_reserved(change);
    }

    /// Whether a packet of this message is in it.
    pub(crate) fn has(&self, id: MsgId) -> bool
        ensures { result ≡ is_asked_in self.now.was.setup self.now.packets id }
    {
        any_for(&self.steps, id)
    }
}

/// Whether one of some steps is for this message.
fn any_for(steps: &[GroupedStep], id: MsgId) -> bool
    ensures { result ≡ list_any (λ step. step.id == id) steps.now }
{
    steps.iter().any(|step| step.id.number() == id.number())
}
