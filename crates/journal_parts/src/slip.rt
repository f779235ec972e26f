//! What the taker of a step has of it.

ghost use Rattle.std.specs.Prelude.{◌≡◌, map, option_map};
ghost use Rattle.std.specs.Option.{option_copied};
ghost use Rattle.synod_acceptor.specs.Packets.{packet_of};
ghost use Rattle.journal_laws.specs.Taken.{given_of};
ghost use Rattle.journal_parts.specs.Entries.{entry_of, save_of};

use crate::entry::{Entry, Unfinished};
use node_core::Outputs;
use node_entry::Step;
use std::marker::Model;
use synod_acceptor::Packet;

/// What the taker of a step has of it: the number of its entry in the journal, from 1, the entry, and how many packets had numbers before it. Contracts see
/// these three.
#[derive(Drop)]
pub struct Slip {
    number: u64,
    before: u64,
    entry: Entry,
}

impl Model for Slip {
    ghost use Rattle.journal_parts.specs.Slips.{Slipped};
    ghost use Rattle.journal_parts.specs.Entries.{entry_of};

    ghost Value = { Slipped };

    ghost view = { λ s. record { number = s.number; before = s.before; entry = entry_of s.entry } };
}

impl Slip {
    pub(crate) fn make(number: u64, before: u64, entry: Entry) -> Slip
        ensures number { result.number ≡ number }
        ensures before { result.before ≡ before }
        ensures entry { result.entry ≡ entry_of entry }
    {
        Slip {
            number,
            before,
            entry,
        }
    }

    /// The number of its entry in the journal, from 1.
    pub fn number(&self) -> u64
        ensures { result ≡ self.now.number }
    {
        self.number
    }

    /// The step that its call was handed.
    pub fn step(&self) -> &Step
        ensures { result.now ≡ self.now.entry.done.step }
    {
        &self.entry.done.step
    }

    /// What the step gave out. Its packets have numbers, the first of them the one above `packets_before`, and so on.
    pub fn outputs(&self) -> &Outputs
        ensures given { given_of result.now ≡ self.now.entry.done.given }
        ensures sent { map packet_of result.now.packets.items ≡ self.now.entry.done.sent }
    {
        &self.entry.done.outputs
    }

    /// The packet that came by the step, if one did.
    pub fn packet(&self) -> Option<&Packet>
        ensures { option_map packet_of (option_copied result) ≡ self.now.entry.done.packet }
    {
        self.entry.done.packet.as_ref()
    }

    /// How many packets had numbers before it: its own have the next ones.
    pub fn packets_before(&self) -> u64
        ensures { result ≡ self.now.before }
    {
        self.before
    }

    /// Of a start anew the save that the node had not finished, if there is one.
    pub fn unfinished(&self) -> Option<Unfinished>
        ensures { option_map save_of result ≡ self.now.entry.unfinished }
    {
        self.entry.unfinished
    }

    pub(crate) fn entry(&self) -> &Entry
        ensures { entry_of result.now ≡ self.now.entry }
    {
        &self.entry
    }
}
