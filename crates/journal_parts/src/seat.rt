//! Seats, from which steps are handed in.

ghost use Rattle.std.specs.Prelude.{◌≡◌, ◌+◌, ◌-◌, ◌≤◌, ◌<◌, [], ◌∷◌, ◌++◌, OnErr, OnOk, length};

use crate::slip::Slip;
use std::alloc::{AllocError, Global};
use std::marker::Model;
use std::sync::ledger::{Book, Ledger, Share};

/// A seat, from which steps are handed in. It keeps the slip of each of them, and can have no other: its share of the journal's book, which grows by an entry
/// alone, is the number of its slips. Contracts see its slips, and for how many more it has room.
#[derive(Drop)]
pub struct Seat<L: Ledger> {
    share: Share<L>,
    slips: Vec<Slip>,
}

impl<L: Ledger> Model for Seat<L> {
    ghost use Rattle.std.specs.Prelude.{◌≡◌, ◌-◌};
    ghost use Rattle.std.specs.Vec.{vec_capacity, vec_len};
    ghost use Rattle.journal_parts.specs.Slips.{Seated};

    ghost Value = { Seated };

    ghost view = { λ s. record { slips = s.slips.items; room = vec_capacity s.slips - vec_len s.slips } };

    ghost invariant = { λ s. (s.share.parts ≡ 1) × (s.share.amount ≡ vec_len s.slips) };
}

impl<L: Ledger> Seat<L> {
    /// A seat with no slip. It takes no memory.
    pub(crate) fn of(alloc: Global, share: Share<L>) -> Seat<L>
        requires part { share.parts ≡ 1 }
        requires none { share.amount ≡ 0 }
        ensures { result.slips ≡ [] }
    {
        Seat {
            share,
            slips: Vec::new(alloc),
        }
    }

    /// Its slips, the oldest first.
    pub fn slips(&self) -> &[Slip]
        ensures { result.now ≡ self.now.slips }
    {
        self.slips.as_slice()
    }

    /// Makes room for one more slip. An `Err` is want of memory.
    pub fn make_room(&mut self) -> Result<(), AllocError>
        ensures room { OnOk result (1 ≤ self.new.room) }
        ensures slips { self.new.slips ≡ self.old.slips }
    {
        self.slips.reserve(1)
    }

    /// Makes room for so many more slips. An `Err` is want of memory.
    pub fn make_room_for(&mut self, more: usize) -> Result<(), AllocError>
        ensures room { OnOk result (more ≤ self.new.room) }
        ensures slips { self.new.slips ≡ self.old.slips }
    {
        self.slips.reserve(more)
    }

    /// Adds the slip of an entry, which counts in the book. It takes no memory.
    pub(crate) fn add(&mut self, book: &mut Book<L>, slip: Slip)
        requires { 1 ≤ self.old.room }
        ensures slips { self.new.slips ≡ self.old.slips ++ slip ∷ [] }
        ensures counted { book.new.total ≡ book.old.total + 1 }
        ensures room { self.new.room + 1 ≡ self.old.room }
    {
        book.add(&mut self.share, 1);
        self.slips.push_reserved(slip);
    }
}
