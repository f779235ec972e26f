//! Of which messages an attempt may begin.

ghost use Rattle.std.specs.Prelude.{◌≡◌, ◌↔◌, IfOk, IsTrue};
ghost use Rattle.node_parts.specs.Rising.{IsRest};
ghost use Rattle.node_parts.specs.Reaching.{are_all, may_of, named_in};

use crate::message_ids::MessageIds;
use mc_types::MsgId;
use std::alloc::AllocError;

/// Of which messages a tick may begin an attempt, if it is due and their account is up.
#[derive(Drop)]
pub enum MayBegin {
    /// Of all.
    All,
    /// Of these alone. No attempt of another one begins by this tick; all else that is due goes on.
    These(MessageIds),
}

impl MayBegin {
    /// Whether an attempt of this message may begin. It takes no memory.
    pub fn may(&self, id: MsgId) -> bool
        ensures { result ≡ may_of self.now id }
    {
        match self {
            MayBegin::All => true,
            MayBegin::These(ids) => ids.has(id),
        }
    }

    /// Whether an attempt may begin of all messages. It takes no memory.
    pub(crate) fn are_all(&self) -> bool
        ensures { result ≡ are_all self.now }
    {
        matches!(self, MayBegin::All)
    }

    /// Those that are named, from a number on; none, if an attempt may begin of all.
    pub(crate) fn named(&self, from: u64) -> &[MsgId]
        ensures { IsRest (named_in self.now) from result.now }
    {
        match self {
            MayBegin::All => &[],
            MayBegin::These(ids) => ids.rest(from),
        }
    }

    /// Whether the other is the same. It takes no memory.
    pub fn is(&self, other: &MayBegin) -> bool
        ensures { IsTrue result ↔ (self.now ≡ other.now) }
    {
        match (self, other) {
            (MayBegin::All, MayBegin::All) => true,
            (MayBegin::These(ids), MayBegin::These(others)) => ids.are(others),
            _ => false,
        }
    }

    /// The same once more. An `Err` is want of memory.
    pub fn copy(&self) -> Result<MayBegin, AllocError>
        ensures { IfOk result (λ copy. copy ≡ self.now) }
    {
        match self {
            MayBegin::All => Ok(MayBegin::All),
            MayBegin::These(ids) => Ok(MayBegin::These(ids.copy()?)),
        }
    }
}
