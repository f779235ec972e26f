//! What is compared as a journal is closed.

ghost use Rattle.std.specs.Prelude.{◌≡◌, ◌↔◌, IsTrue, length, map};
ghost use Rattle.journal_laws.specs.Journals.{entries_at};
ghost use Rattle.journal_laws.specs.Likeness.{AreAllAlike};
ghost use Rattle.journal_parts.specs.Closing.{AllStand, IsFound, StandAbove, StandsAt};
ghost use Rattle.journal_parts.specs.Entries.{entry_of};
ghost use Rattle.journal_parts.specs.Marks.{EachOnce, slips_in};
ghost use Rattle.journal_parts.specs.Registers.{entries_of};

use crate::begins::Begins;
use crate::entry::Entry;
use crate::member::Member;
use crate::noted::Noted;
use crate::register::Register;
use crate::seat::Seat;
use crate::slip::Slip;
use mc_types::NodeNo;
use stable_store::StableStore;
use std::sync::ledger::Ledger;

impl<L: Begins> Register<L> {
    /// Whether there are as many slips as entries, and the number of each entry is that of a slip. It takes no memory, and changes nothing that a contract
    /// names.
    pub fn has_each_once(&mut self, seats: &[Seat<L>]) -> bool
        ensures each { IsTrue result ↔ EachOnce (length self.old.entries) seats.now }
        ensures stays { self.new ≡ self.old }
    {
        self.marks.begin(self.noted.len());
        self.marks.set_all(seats);
        let are_set = self.marks.are_set();
        are_as_many(seats, self.noted.len()) && are_set
    }

    /// Whether a slip stands in the journal: it has the number of the entry that it is of, and those of its packets. It takes no memory.
    fn has_slip(&self, slip: &Slip) -> bool
        ensures { IsTrue result → StandsAt L.numbers.count self.now.entries slip.now }
    {
        let Some(place) = slip.number().checked_sub(1) else {
            return false;
        };
        match self.noted.get(place as usize) {
            Some(noted) => { noted.before == slip.packets_before() && noted.entry.is(slip.entry()) }
            None => false,
        }
    }

    /// Whether the slips of a seat stand in the journal, and their numbers rise. It takes no memory.
    fn has_slips(&self, slips: &[Slip]) -> bool
        ensures { IsTrue result → StandAbove 0 L.numbers.count self.now.entries slips.now }
    {
        let mut last = 0;
        for slip in slips {
            if slip.number() <= last || !self.has_slip(slip) {
                return false;
            }
            last = slip.number();
        }
        true
    }

    /// Whether the slips of all seats stand in the journal, and the numbers of each seat rise. It takes no memory.
    pub fn has_seats(&self, seats: &[Seat<L>]) -> bool
        ensures { IsTrue result → AllStand L.numbers.count self.now.entries seats.now }
    {
        for seat in seats {
            if !self.has_slips(seat.slips()) {
                return false;
            }
        }
        true
    }

    /// Whether a member is the node with this number, and its entries are those of the node in the journal. It takes no memory.
    pub fn finds<S: StableStore>(&self, member: &Member<S, L>, number: usize) -> bool
        ensures { IsTrue result → IsFound S.stored L.cluster L.kept self.now.entries number member.now.post }
    {
        let node = member.node();
        member.is_own_run();
        node.number() as usize == number && are_own(node, member.own(), self.noted.as_slice())
    }
}

/// Whether the seats have so many slips.
fn are_as_many<L: Ledger>(seats: &[Seat<L>], count: usize) -> bool
    ensures { IsTrue result ↔ (slips_in seats.now ≡ count) }
{
    let mut left = count;
    for seat in seats {
        match left.checked_sub(seat.slips().len()) {
            Some(rest) => left = rest,
            None => return false,
        }
    }
    left == 0
}

/// Whether the entries of a node in the journal are these, in this order.
fn are_own(node: NodeNo, own: &[Entry], noted: &[Noted]) -> bool
    ensures { IsTrue result → AreAllAlike (map entry_of own.now) (entries_at node (entries_of noted.now)) }
{
    let mut next = 0;
    for one in noted {
        if one.entry.node() == node {
            match own.get(next) {
                Some(entry) if entry.is(&one.entry) => next += 1,
                _ => return false,
            }
        }
    }
    next == own.len()
}
