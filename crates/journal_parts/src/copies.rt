//! One entry for those that share it.

ghost use Rattle.std.specs.Prelude.{◌≡◌, IfOk, option_map};
ghost use Rattle.journal_parts.specs.Entries.{entry_of, save_of};

use crate::entry::{Entry, Unfinished};
use std::alloc::AllocError;
use std::marker::Model;

/// One entry for the journal, for the seat and for whom its slip is handed. Contracts see the entry.
#[derive(Drop)]
pub struct EntryCopies {
    pub(crate) journal: Entry,
    pub(crate) seat: Entry,
    pub(crate) slip: Entry,
}

impl Model for EntryCopies {
    ghost use Rattle.std.specs.Prelude.{◌≡◌};
    ghost use Rattle.journal_laws.specs.Journals.{Entry};
    ghost use Rattle.journal_parts.specs.Entries.{entry_of};

    ghost Value = { Entry };

    ghost view = { λ c. entry_of c.journal };

    ghost invariant = { λ c. (entry_of c.seat ≡ entry_of c.journal) × (entry_of c.slip ≡ entry_of c.journal) };
}

impl EntryCopies {
    /// An entry for each of them. It takes no memory: an `Err` comes only if the entry has 2^63 owners.
    pub(crate) fn of(entry: &Entry) -> Result<EntryCopies, AllocError>
        ensures { IfOk result (λ copies. copies ≡ entry_of entry.now) }
    {
        Ok(EntryCopies {
            journal: entry.again()?,
            seat: entry.again()?,
            slip: entry.again()?,
        })
    }

    /// They name this save as one that the node had not finished, if there is one.
    pub(crate) fn name(&mut self, save: Option<Unfinished>)
        ensures { self.new ≡ record self.old { unfinished = option_map save_of save } }
    {
        self.journal.unfinished = save;
        self.seat.unfinished = save;
        self.slip.unfinished = save;
    }
}
