//! Room that was taken for records.

ghost use Rattle.std.specs.Prelude.{◌≡◌, ◌≤◌, ◌<◌, ◌++◌, ◌∷◌, [], length, IfOk, OnErr};
ghost use Rattle.std.specs.Vec.{vec_capacity};

use crate::record::Record;
use std::alloc::{AllocError, Global};
use std::mem;

/// Room for the records of an acceptor. What lies there counts for nothing.
#[derive(Drop)]
pub struct RecordRoom {
    pub(crate) records: Vec<Record>,
}

impl RecordRoom {
    /// No room. It takes no memory.
    pub fn none(alloc: Global) -> RecordRoom
        ensures { result.records.items ≡ [] }
    {
        RecordRoom {
            records: Vec::new(alloc),
        }
    }

    /// Room for so many records.
    pub(crate) fn of(alloc: Global, records: usize) -> Result<RecordRoom, AllocError>
        ensures room { IfOk result (λ room. records ≤ vec_capacity room.records) }
        ensures memory { OnErr result (0 < records) }
    {
        Ok(RecordRoom {
            records: Vec::with_capacity(alloc, records)?,
        })
    }

    /// Moves records here, with one more behind them; there is room for it. It takes no memory.
    pub(crate) fn push(self, records: &mut Vec<Record>, more: Record)
        requires { length records.old.items < vec_capacity self.records }
        ensures { records.new.items ≡ records.old.items ++ more ∷ [] }
    {
        let RecordRoom { records: mut room } = self;
        room.clear();
        if room.append(records).is_err() {
            unreachable!();
        }
        room.push_reserved(more);
        mem::swap(records, &mut room);
    }
}
