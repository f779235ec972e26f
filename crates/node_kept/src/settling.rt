//! What is found of a group whose save failed.

ghost use Rattle.std.specs.Prelude.{◌≡◌, ◌≢◌, ◌↔◌, List, [], ◌∷◌, ◌++◌, IsTrue, false, true};
ghost use Rattle.synod_acceptor.specs.Records.{entries_of, record_at};
ghost use Rattle.synod_acceptor.specs.Votes.{record_of, slot_recorded};
ghost use Rattle.synod_acceptor.specs.declared.packet.Packet.{Packet as Sent};
ghost use Rattle.node_kept.specs.Grouping.{ChangesEach, changed_by_all, left_by_all};
ghost use Rattle.node_kept.specs.Keeping.{kept_of, records_of};

use crate::grouped_step::GroupedStep;
use crate::step_group::StepGroup;
use synod_acceptor::{Packet, Record};

impl StepGroup {
    /// What a proof takes of it: its changes lead to the records that the steps of its packets leave together, each of which changes one, and there are
    /// changes of packets alone. The call does nothing.
    pub fn saves(&self)
        ensures leaves { changed_by_all self.now.changes (records_of self.now.was.messages.entries) ≡ left_by_all self.now.was self.now.packets }
        ensures changes { ChangesEach self.now.was.setup (kept_of self.now.was) self.now.packets }
        ensures none { self.now.packets ≡ [] → self.now.changes ≡ [] }
    {
        let _number = self.steps.len();
    }

    /// Whether it was saved, where these records are stored, of which the first of a slot counts: those that were kept when it was prepared, or those
    /// that its packets leave together. It looks at the first that it changes, and takes no memory.
    pub fn is_saved_in(&self, records: &[Record]) -> bool
        requires { self.now.packets ≢ [] }
        ensures saved { result ≡ true → record_at (entries_of records.now) ≢ records_of self.now.was.messages.entries }
        ensures unsaved { result ≡ false → record_at (entries_of records.now) ≢ left_by_all self.now.was self.now.packets }
    {
        let Some(change) = self.changes.first() else {
            unreachable!();
        };
        has_record(records, &change.after)
    }

    /// The first of its packets.
    pub fn into_first(self) -> Packet
        requires { self.packets ≢ [] }
        ensures { (others : List Sent) × (self.packets ≡ result ∷ others) }
    {
        let StepGroup { mut steps, .. } = self;
        let GroupedStep { packet, .. } = steps.swap_remove(0);
        packet
    }

    /// The group without the last of its packets, and that packet.
    pub fn split_last(self) -> (StepGroup, Packet)
        requires { self.packets ≢ [] }
        ensures was { result.0.was ≡ self.was }
        ensures packets { self.packets ≡ result.0.packets ++ result.1 ∷ [] }
    {
        let StepGroup {
            was,
            mut steps,
            mut outputs,
            mut changes,
            room,
        } = self;
        drop(outputs.pop());
        drop(changes.pop());
        let Some(GroupedStep { packet, .. }) = steps.pop() else {
            unreachable!();
        };
        let firsts = StepGroup {
            was,
            steps,
            outputs,
            changes,
            room,
        };
        (firsts, packet)
    }
}

/// Whether the record of a slot is this one; of several of the slot the first counts.
fn has_record(records: &[Record], wanted: &Record) -> bool
    ensures { IsTrue result ↔ (record_at (entries_of records.now) (slot_recorded wanted.now) ≡ record_of wanted.now) }
{
    wanted.promises();
    for record in records {
        if record.slot() == wanted.slot() {
            return is_same(record, wanted);
        }
    }
    false
}

/// Whether two records of a slot are the same.
fn is_same(one: &Record, other: &Record) -> bool
    requires { slot_recorded one.now ≡ slot_recorded other.now }
    ensures { IsTrue result ↔ (record_of one.now ≡ record_of other.now) }
{
    one.promised() == other.promised() && one.report().is(other.report())
}
