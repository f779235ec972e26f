//! Ids of messages, in ascending order.

ghost use Rattle.std.specs.Prelude.{◌≡◌, ◌↔◌, [], IfOk, IsTrue, OnErr, OnOk};
ghost use Rattle.std.specs.BTreeSet.{insert_key};
ghost use Rattle.std.specs.Ordering.{nat_cmp};
ghost use Rattle.node_parts.specs.Rising.{IsRest};
ghost use Rattle.node_parts.specs.Rising.{has_id};

use crate::awake::{place_of, put};
use crate::comparing::are_same;
use mc_types::MsgId;
use std::alloc::{AllocError, Global};
use std::marker::Model;

/// Ids of messages, each once, in ascending order.
#[derive(Drop)]
pub struct MessageIds {
    ids: Vec<MsgId>,
}

impl Model for MessageIds {
    ghost use Rattle.std.specs.Prelude.{ℕ, List};
    ghost use Rattle.node_parts.specs.Rising.{AreRising};

    ghost Value = { List ℕ };

    ghost view = { λ s. s.ids.items };

    ghost invariant = { λ s. AreRising s.ids.items };
}

impl MessageIds {
    /// None. It takes no memory.
    pub fn none(alloc: Global) -> MessageIds
        ensures { result ≡ [] }
    {
        MessageIds {
            ids: Vec::new(alloc),
        }
    }

    /// Puts an id among them. An `Err` is want of memory, after which they are what they were.
    pub fn put(&mut self, id: MsgId) -> Result<(), AllocError>
        ensures put { OnOk result (self.new ≡ insert_key nat_cmp self.old id) }
        ensures same { OnErr result (self.new ≡ self.old) }
    {
        self.ids.reserve(1)?;
        put(&mut self.ids, id);
        Ok(())
    }

    /// Whether an id is one of them. It takes no memory.
    pub fn has(&self, id: MsgId) -> bool
        ensures { result ≡ has_id self.now id }
    {
        place_of(&self.ids, id.number()).is_ok()
    }

    /// Those from a number on. It takes no memory.
    pub fn rest(&self, from: u64) -> &[MsgId]
        ensures { IsRest self.now from result.now }
    {
        match place_of(&self.ids, from) {
            Ok(place) => &self.ids[place..],
            Err(place) => &self.ids[place..],
        }
    }

    /// Whether the others are the same. It takes no memory.
    pub fn are(&self, others: &MessageIds) -> bool
        ensures { IsTrue result ↔ (self.now ≡ others.now) }
    {
        are_same(&self.ids, &others.ids)
    }

    /// The same ids once more. An `Err` is want of memory.
    pub fn copy(&self) -> Result<MessageIds, AllocError>
        ensures { IfOk result (λ copy. copy ≡ self.now) }
    {
        let ids = copied(&self.ids)?;
        Ok(MessageIds { ids })
    }
}

/// The same ids once more.
fn copied(ids: &Vec<MsgId>) -> Result<Vec<MsgId>, AllocError>
    ensures { IfOk result (λ copies. copies.items ≡ ids.now.items) }
{
    let mut copies = Vec::with_capacity(*ids.allocator(), ids.len())?;
    for id in ids {
        copies.push(*id)?;
    }
    Ok(copies)
}
