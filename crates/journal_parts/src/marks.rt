//! Which entries of a journal have a slip.

ghost use Rattle.std.specs.Prelude.{◌≡◌, ◌≤◌, IfOk, false, replicate};
ghost use Rattle.std.specs.List.{list_all};
ghost use Rattle.journal_parts.specs.Marks.{mark_at, marked_by, marked_in};

use crate::seat::Seat;
use crate::slip::Slip;
use std::alloc::{AllocError, Global};
use std::marker::Model;
use std::sync::ledger::Ledger;

/// A mark for each number of an entry, from 1, which is set once a slip has it. Contracts see the marks, and how many there can be.
#[derive(Drop)]
pub(crate) struct Marks {
    marks: Vec<bool>,
}

impl Model for Marks {
    ghost use Rattle.std.specs.Vec.{vec_capacity};
    ghost use Rattle.journal_parts.specs.Marks.{Marked};

    ghost Value = { Marked };

    ghost view = { λ m. record { marks = m.marks.items; most = vec_capacity m.marks } };
}

impl Marks {
    /// Room for so many marks. An `Err` is want of memory.
    pub(crate) fn make(alloc: Global, most: usize) -> Result<Marks, AllocError>
        ensures { IfOk result (λ marks. marks.most ≡ most) }
    {
        Ok(Marks {
            marks: Vec::with_capacity(alloc, most)?,
        })
    }

    /// So many marks, none of which is set. It takes no memory.
    pub(crate) fn begin(&mut self, count: usize)
        requires { count ≤ self.old.most }
        ensures marks { self.new.marks ≡ replicate count false }
        ensures most { self.new.most ≡ self.old.most }
    {
        self.marks.clear();
        for _ in 0..count {
            self.marks.push_reserved(false);
        }
    }

    /// Sets those of the slips of these seats; a number that has no mark is passed over. It takes no memory.
    pub(crate) fn set_all<L: Ledger>(&mut self, seats: &[Seat<L>])
        ensures marks { self.new.marks ≡ marked_in seats.now self.old.marks }
        ensures most { self.new.most ≡ self.old.most }
    {
        for seat in seats {
            self.set_each(seat.slips());
        }
    }

    /// Sets those of these slips.
    fn set_each(&mut self, slips: &[Slip])
        ensures marks { self.new.marks ≡ marked_by slips.now self.old.marks }
        ensures most { self.new.most ≡ self.old.most }
    {
        for slip in slips {
            self.set(slip.number());
        }
    }

    /// Sets that of a number, if there is one.
    fn set(&mut self, number: u64)
        ensures marks { self.new.marks ≡ mark_at number self.old.marks }
        ensures most { self.new.most ≡ self.old.most }
    {
        let Some(place) = number.checked_sub(1) else {
            return;
        };
        if place < self.marks.len() as u64 {
            self.marks[place as usize] = true;
        }
    }

    /// Whether all are set.
    pub(crate) fn are_set(&self) -> bool
        ensures { result ≡ list_all (λ mark. mark) self.now.marks }
    {
        for mark in self.marks.as_slice() {
            if !*mark {
                return false;
            }
        }
        true
    }
}
