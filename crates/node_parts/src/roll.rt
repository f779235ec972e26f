//! The list of those that are live, in parts by spans of ids.

ghost use Rattle.std.specs.Prelude.{◌≡◌, ◌≤◌, ◌+◌, ◌⊎◌, ◌++◌, [], None, Some, filter, length, map, max};
ghost use Rattle.std.specs.BTreeSet.{insert_key};
ghost use Rattle.std.specs.Ordering.{nat_cmp};
ghost use Rattle.std.specs.Vec.{vec_capacity, vec_len};
ghost use Rattle.mc_model.specs.synod.Lists.{In};
ghost use Rattle.waiting_requests.specs.Numbers.{IsLeastFrom};
ghost use Rattle.shelf.specs.Parted.{IsNumberOfParts, all_in, lists_of, wide_in};
ghost use Rattle.node_parts.specs.declared.listing.Listing.{Listing as ListingValue};
ghost use Rattle.node_parts.specs.Living.{is_kept_listed};
ghost use Rattle.node_parts.specs.Rising.{AreRising};
ghost use Rattle.node_parts.specs.Sleeping.{IsDueIn, dozed, ids_of, reach_noted};
ghost use Rattle.node_parts.specs.Waking.{awake_in, looked_at, soonest_in, until_at};

use crate::listing::Listing;
use crate::message::Message;
use crate::message_shelf::{due_from, enlist, is_live, least_from};
use crate::noted::Noted;
use crate::sleepers::{doze_each, doze_one, gather, soonest_in, until_at};
use mc_types::{Moment, MsgId};
use shelf::{Parts, Shelf, part_of, widen_parts, width};
use std::alloc::Global;
use std::marker::Model;

/// Those that are live, in ascending order of their ids. The ids of an author rise, and have a part of their own: so a new one goes to an end.
#[derive(Drop)]
pub(crate) struct Roll {
    parts: Parts<Listing>,
}

impl Model for Roll {
    ghost use Rattle.shelf.specs.Parted.{AreInTheirParts, all_in, wide_in};
    ghost use Rattle.node_parts.specs.Rolling.{Enrolled};

    ghost Value = { Enrolled };

    ghost view = { λ roll. record { items = all_in roll.parts.items; width = wide_in roll.parts.items } };

    ghost invariant = { λ roll. AreInTheirParts (λ listing. listing.id) roll.parts.items };
}

impl Roll {
    /// Nothing, and no room. It takes no memory.
    pub fn empty(alloc: Global) -> Roll
        ensures items { result.items ≡ [] }
        ensures width { result.width ≡ 0 }
    {
        Roll {
            parts: Vec::new(alloc),
        }
    }

    /// For how many there is room, wherever their ids lie.
    pub fn width(&self) -> usize
        ensures { result ≡ self.now.width }
    {
        width(&self.parts)
    }

    /// Moves the list into this room, as far as it is wider.
    pub fn widen(&mut self, room: Parts<Listing>)
        requires number { IsNumberOfParts (length room.items) }
        requires none { all_in room.items ≡ [] }
        ensures items { self.new.items ≡ self.old.items }
        ensures width { max self.old.width (wide_in room.items) ≤ self.new.width }
    {
        if room.is_empty() {
            return;
        }
        if self.parts.is_empty() {
            self.parts = room;
        } else {
            widen_parts(&mut self.parts, room);
        }
    }

    /// Lists a message of an id, to be looked at by the next tick; there is room for it.
    pub fn enlist(&mut self, id: MsgId)
        requires rising { AreRising (ids_of self.old.items) }
        requires room { length (insert_key nat_cmp (ids_of self.old.items) id) ≤ self.old.width }
        ensures ids { ids_of self.new.items ≡ insert_key nat_cmp (ids_of self.old.items) id }
        ensures woken { (l : ListingValue) → In l self.new.items → ((l.id ≡ id) × (l.until ≡ None)) ⊎ (In l self.old.items × (l.id ≡ id → ⊥)) }
        ensures width { self.new.width ≡ self.old.width }
    {
        enlist(&mut self.parts[part_of(id.number())], id);
    }

    /// The least of the ids, which ascend, from a number on; none if there is none.
    pub fn least_from(&self, from: u64) -> Option<MsgId>
        requires { AreRising (ids_of self.now.items) }
        ensures { IsLeastFrom from (λ id. In id (ids_of self.now.items)) result }
    {
        least_in(&self.parts, from)
    }

    /// The least of the ids of those that are due at a clock, from a number on; none if there is none.
    pub fn due_from(&self, from: u64, clock: Moment) -> Option<MsgId>
        requires { AreRising (ids_of self.now.items) }
        ensures { IsLeastFrom from (IsDueIn clock self.now.items) result }
    {
        due_in(&self.parts, from, clock)
    }

    /// Takes those that are awake and decided off the list.
    pub fn keep_live(&mut self, shelf: &Shelf<Message>)
        ensures items { self.new.items ≡ filter (is_kept_listed shelf.now.entries) self.old.items }
        ensures width { self.new.width ≡ self.old.width }
    {
        keep_each(&mut self.parts, shelf);
    }

    /// Notes until when each message sleeps that is due at a clock, or each, if there is none.
    pub fn doze_each(&mut self, shelf: &Shelf<Message>, noted: &Noted, clock: &Option<Moment>)
        ensures items { self.new.items ≡ map (dozed shelf.now.entries noted.now.me (reach_noted noted.now) clock.now) self.old.items }
        ensures width { self.new.width ≡ self.old.width }
    {
        doze_parts(&mut self.parts, shelf, noted, clock);
    }

    /// Notes until when a message sleeps, if it is listed and due at a clock.
    pub fn doze_one(&mut self, id: MsgId, shelf: &Shelf<Message>, noted: &Noted, clock: Moment)
        requires { AreRising (ids_of self.old.items) }
        ensures items { self.new.items
            ≡ looked_at (dozed shelf.now.entries noted.now.me (reach_noted noted.now) (Some clock)) id self.old.items }
        ensures width { self.new.width ≡ self.old.width }
    {
        if self.parts.is_empty() {
            return;
        }
        doze_one(
            &mut self.parts[part_of(id.number())],
            id,
            shelf,
            noted,
            clock,
        );
    }

    /// Until when the message of an id sleeps, on a list that ascends; none if it is awake, or not listed.
    pub fn until_at(&self, id: MsgId) -> Option<Moment>
        ensures { AreRising (ids_of self.now.items) → result ≡ until_at self.now.items id }
    {
        if self.parts.is_empty() {
            return None;
        }
        until_at(&self.parts[part_of(id.number())], id)
    }

    /// The soonest moment until which a message sleeps; the last one if all are awake.
    pub fn soonest(&self) -> Moment
        ensures { result ≡ soonest_in self.now.items 4102444799 }
    {
        soonest_of(&self.parts)
    }

    /// Puts the ids of those that are awake in the place of these ids; there is room for them.
    pub fn gather(&self, ids: &mut Vec<MsgId>)
        requires { length self.now.items ≤ vec_capacity ids.old }
        ensures ids { ids.new.items ≡ awake_in self.now.items }
        ensures capacity { vec_capacity ids.new ≡ vec_capacity ids.old }
    {
        gather_all(ids, &self.parts);
    }
}

/// The least of the ids in parts, which ascend, from a number on.
fn least_in(parts: &[Vec<Listing>], from: u64) -> Option<MsgId>
    requires { AreRising (ids_of (all_in parts.now)) }
    ensures { IsLeastFrom from (λ id. In id (ids_of (all_in parts.now))) result }
{
    for part in parts {
        if let Some(id) = least_from(part, from) {
            return Some(id);
        }
    }
    None
}

/// The least of the ids of those in parts that are due at a clock, from a number on.
fn due_in(parts: &[Vec<Listing>], from: u64, clock: Moment) -> Option<MsgId>
    requires { AreRising (ids_of (all_in parts.now)) }
    ensures { IsLeastFrom from (IsDueIn clock (all_in parts.now)) result }
{
    for part in parts {
        if let Some(id) = due_from(part, from, clock) {
            return Some(id);
        }
    }
    None
}

/// Takes those that are awake and decided off each part.
fn keep_each(parts: &mut Parts<Listing>, shelf: &Shelf<Message>)
    ensures lists { lists_of parts.new.items ≡ map (filter (is_kept_listed shelf.now.entries)) (lists_of parts.old.items) }
    ensures widths { map (λ part. vec_capacity part) parts.new.items ≡ map (λ part. vec_capacity part) parts.old.items }
{
    for part in parts.iter_mut() {
        keep(part, shelf);
    }
}

/// Takes those that are awake and decided off a list.
fn keep(live: &mut Vec<Listing>, shelf: &Shelf<Message>)
    ensures live { live.new.items ≡ filter (is_kept_listed shelf.now.entries) live.old.items }
    ensures capacity { vec_capacity live.new ≡ vec_capacity live.old }
{
    live.retain(|listing| listing.until.is_some() || is_live(shelf, listing.id));
}

/// Notes until when each message in parts sleeps that is due at a clock, or each, if there is none.
fn doze_parts(
    parts: &mut Parts<Listing>,
    shelf: &Shelf<Message>,
    noted: &Noted,
    clock: &Option<Moment>,
)
    ensures lists { lists_of parts.new.items
        ≡ map (map (dozed shelf.now.entries noted.now.me (reach_noted noted.now) clock.now)) (lists_of parts.old.items) }
    ensures widths { map (λ part. vec_capacity part) parts.new.items ≡ map (λ part. vec_capacity part) parts.old.items }
{
    for part in parts.iter_mut() {
        doze_each(part, shelf, noted, clock);
    }
}

/// The soonest moment until which a message in parts sleeps; the last one if all are awake.
fn soonest_of(parts: &[Vec<Listing>]) -> Moment
    ensures { result ≡ soonest_in (all_in parts.now) 4102444799 }
{
    let mut soonest = Moment::least().later(u32::MAX);
    for part in parts {
        soonest = soonest_in(part, soonest);
    }
    soonest
}

/// Puts the ids of those in parts that are awake in the place of these ids; there is room for them.
fn gather_all(ids: &mut Vec<MsgId>, parts: &[Vec<Listing>])
    requires { length (all_in parts.now) ≤ vec_capacity ids.old }
    ensures ids { ids.new.items ≡ awake_in (all_in parts.now) }
    ensures capacity { vec_capacity ids.new ≡ vec_capacity ids.old }
{
    ids.clear();
    for part in parts {
        gather(ids, part);
    }
}
