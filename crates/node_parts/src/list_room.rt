//! Room that was taken to list messages.

ghost use Rattle.std.specs.Prelude.{◌≡◌, ◌≤◌, ◌+◌, ◌-◌, ◌⊎◌, ◌<◌, [], length, IfOk, OnErr, max};
ghost use Rattle.std.specs.Vec.{vec_capacity};
ghost use Rattle.shelf.specs.Parted.{IsNumberOfParts, all_in, wide_in};

use crate::listing::Listing;
use mc_types::MsgId;
use shelf::{Parts, parts_of};
use std::alloc::{AllocError, Global};
use std::marker::Model;
use std::mem;

/// Room for messages on the list of those that are live, and as much at least on the list of those that are awake. Nothing lies there yet. Contracts see it
/// as the first of the two.
#[derive(Drop)]
pub(crate) struct ListRoom {
    live: Parts<Listing>,
    awake: Vec<MsgId>,
    // What contracts see if there is no room.
    none: Vec<Listing>,
}

impl Model for ListRoom {
    ghost use Rattle.std.specs.Prelude.{◌≡◌, ◌≤◌, [], length, slice_index_or};
    ghost use Rattle.std.specs.Global.{Vec};
    ghost use Rattle.std.specs.Vec.{vec_capacity};
    ghost use Rattle.shelf.specs.Parted.{IsNumberOfParts, all_in, wide_in};
    ghost use Rattle.node_parts.specs.declared.listing.Listing.{Listing};

    ghost Value = { Vec Listing };

    ghost view = { λ room. slice_index_or room.live.items 0 room.none };

    ghost invariant = { λ room.
        IsNumberOfParts (length room.live.items)
        × ((all_in room.live.items ≡ [])
        × ((vec_capacity (slice_index_or room.live.items 0 room.none) ≤ wide_in room.live.items)
        × (vec_capacity (slice_index_or room.live.items 0 room.none) ≤ vec_capacity room.awake))) };
}

impl ListRoom {
    /// Room for so many more messages than there are, if what there is does not suffice; it is twice as many as there are, at least.
    pub fn of(
        alloc: Global,
        have: usize,
        messages: usize,
        more: usize,
    ) -> Result<ListRoom, AllocError>
        requires { messages ≤ have }
        ensures serves { IfOk result (λ room. (more ≤ have - messages) ⊎ (messages + more ≤ vec_capacity room)) }
        ensures memory { OnErr result (0 < more) }
    {
        if more <= have - messages {
            return ListRoom::wide(alloc, 0);
        }
        let Some(least) = messages.checked_add(more) else {
            return Err(AllocError);
        };
        ListRoom::wide(alloc, least.max(messages.saturating_mul(2)))
    }

    /// Room for so many messages on either list.
    fn wide(alloc: Global, room: usize) -> Result<ListRoom, AllocError>
        ensures room { IfOk result (λ lists. room ≤ vec_capacity lists) }
        ensures memory { OnErr result (0 < room) }
    {
        Ok(ListRoom {
            live: parts_of(alloc, room)?,
            awake: Vec::with_capacity(alloc, room)?,
            none: Vec::new(alloc),
        })
    }

    /// The room on the list of those that are live, and on that of those that are awake.
    pub fn split(self) -> (Parts<Listing>, Vec<MsgId>)
        ensures number { IsNumberOfParts (length result.0.items) }
        ensures none { all_in result.0.items ≡ [] }
        ensures live { vec_capacity self ≤ wide_in result.0.items }
        ensures awake { vec_capacity self ≤ vec_capacity result.1 }
    {
        let ListRoom {
            live,
            awake,
            none: _,
        } = self;
        (live, awake)
    }
}

/// Moves a list into this room, if it is larger than what it has.
pub(crate) fn widen<T: Drop>(list: &mut Vec<T>, mut room: Vec<T>)
    ensures items { list.new.items ≡ list.old.items }
    ensures capacity { max (vec_capacity list.old) (vec_capacity room) ≤ vec_capacity list.new }
{
    if room.capacity() <= list.capacity() {
        return;
    }
    room.clear();
    if room.append(list).is_err() {
        unreachable!();
    }
    mem::swap(list, &mut room);
}
