//! An entry at its place in the journal.

ghost use Rattle.std.specs.Prelude.{◌+◌, ◌<◌, ◌^◌};
ghost use Rattle.std.specs.Arc.{arc_value};
ghost use Rattle.std.specs.Vec.{vec_len};

use crate::entry::Entry;
use synod_acceptor::Packet;

/// An entry at its place in the journal, and how many packets had numbers before it.
#[derive(Drop)]
pub(crate) struct Noted {
    pub(crate) entry: Entry,
    pub(crate) before: u64,
    ghost within: { before + vec_len (arc_value entry.done).outputs.packets < 2 ^ 64 },
}

impl Noted {
    ghost use Rattle.std.specs.Prelude.{IfNone, IfSome};
    ghost use Rattle.std.specs.Option.{option_copied};
    ghost use Rattle.journal_parts.specs.Registers.{IsNumberedIn, count_in};

    /// The packet that it sent under this number; none exactly if it sent none under it.
    pub(crate) fn packet(&self, number: u64) -> Option<&Packet>
        ensures some { IfSome (option_copied result) (IsNumberedIn self.now number) }
        ensures none { IfNone result (self.now.before < number → self.now.before + count_in self.now < number) }
    {
        let place = number.checked_sub(self.before)?.checked_sub(1)?;
        self.entry.done.outputs.packets.get(place as usize)
    }
}
