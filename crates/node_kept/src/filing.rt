//! What a node makes of the records of its store as it opens.

ghost use Rattle.std.specs.Prelude.{◌≡◌, ◌≢◌, OnOk, false, true};
ghost use Rattle.mc_model.specs.synod.Acceptor.{blank};
ghost use Rattle.synod_acceptor.specs.Records.{entries_of, record_at};
ghost use Rattle.node_kept.specs.Keeping.{HasFiled, IsFiled, IsFirstFiled, records_of};

use crate::kept::Kept;
use mc_types::Slot;
use std::alloc::AllocError;
use std::collections::VecDeque;
use synod_acceptor::Record;

impl Kept {
    /// Takes in all records of its store; of several of a slot the first counts. It goes over them so that the ids of their messages rise, if they rise or
    /// fall: then each new message is put behind all others.
    #[inline(never)]
    pub(crate) fn file_all(&mut self, records: Vec<Record>) -> Result<(), AllocError>
        ensures { OnOk result (HasFiled (record_at (entries_of records.items)) self.old self.new) }
    {
        if is_rising(&records) {
            self.file_rising(records)
        } else {
            self.file_falling(records)
        }
    }

    /// Takes in records from the first to the last, but for those of a slot of which there is one.
    fn file_rising(&mut self, records: Vec<Record>) -> Result<(), AllocError>
        ensures { OnOk result (HasFiled (record_at (entries_of records.items)) self.old self.new) }
    {
        let mut left = VecDeque::from_vec(records);
        while let Some(stored) = left.pop_front() {
            self.file_first(stored)?;
        }
        Ok(())
    }

    /// Takes in records from the last to the first, each in the place of the one of its slot.
    fn file_falling(&mut self, mut records: Vec<Record>) -> Result<(), AllocError>
        ensures { OnOk result (HasFiled (record_at (entries_of records.items)) self.old self.new) }
    {
        while let Some(stored) = records.pop() {
            self.file(stored)?;
        }
        Ok(())
    }

    /// Takes in a record, unless there is one of its slot.
    fn file_first(&mut self, stored: Record) -> Result<(), AllocError>
        ensures { OnOk result (IsFirstFiled self.old stored self.new) }
    {
        stored.promises();
        if self.has_record(stored.slot()) {
            return Ok(());
        }
        self.file(stored)
    }

    /// Whether there is a record of a slot. It takes no memory.
    fn has_record(&self, slot: Slot) -> bool
        ensures there { result ≡ true → records_of self.now.messages.entries slot ≢ blank }
        ensures none { result ≡ false → records_of self.now.messages.entries slot ≡ blank }
    {
        let Some(message) = self.find(slot.id) else {
            return false;
        };
        let Some(record) = message.record(slot) else {
            return false;
        };
        record.promises();
        true
    }

    /// Takes in a record, in the place of the one of its slot.
    #[inline(never)]
    fn file(&mut self, stored: Record) -> Result<(), AllocError>
        ensures { OnOk result (IsFiled self.old stored self.new) }
    {
        stored.promises();
        let id = stored.slot().id;
        let mut message = self.taken(id)?;
        message.file(stored)?;
        let next = self.next(id, message)?;
        self.install(next);
        Ok(())
    }
}

/// Whether the message of the first of some records has a lower id than that of the last.
fn is_rising(records: &[Record]) -> bool {
    match records {
        [first, .., last] => first.slot().id < last.slot().id,
        _ => false,
    }
}
