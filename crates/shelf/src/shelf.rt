//! The shelf.

ghost use Rattle.std.specs.Prelude.{◌≡◌, ◌≤◌, ◌<◌, ◌+◌, ◌-◌, [], None, Some, length, map, max, IsSome, IfOk, OnErr, option_map};
ghost use Rattle.std.specs.Option.{option_copied, option_copied_mut};
ghost use Rattle.std.specs.Borrow.{sem};
ghost use Rattle.std.specs.List.{insert, slice_get};
ghost use Rattle.std.specs.List.Sorted.{IsStrictlySortedBy};
ghost use Rattle.std.specs.Map.{keys_of};
ghost use Rattle.std.specs.Ordering.{nat_cmp};
ghost use Rattle.std.specs.Vec.{vec_capacity, vec_len};
ghost use Rattle.std.specs.Box.{box_value};
ghost use Rattle.shelf.specs.Shelved.{Serves, value_at, with_value};
ghost use Rattle.shelf.specs.Parted.{free_in, frees_of};
ghost use Rattle.shelf.specs.Places.{IsPlaceOf, entries_in, entries_of, entry_seen, lists_in};

use crate::parts::{Parts, free, item_at, part_of, parts_of, widen_parts};
use crate::room::Room;
use crate::visit::Visit;
use std::alloc::{AllocError, Global};
use std::marker::Model;

/// A table from numbers to values, in the order of the numbers. A value is put into it without taking memory, if there is room.
///
/// It lies in ten parts, by spans of 1,000,000,000 keys, the highest keys in the last. A look-up costs the logarithm of how many there are in a part. A value
/// under a key above all others of its part is put after them, at no more cost as the table grows; one in the middle moves those after it in the part, 16
/// octets each.
#[derive(Drop)]
pub struct Shelf<V> {
    parts: Parts<(u64, Box<V>)>,
}

impl<V> Model for Shelf<V> {
    ghost use Rattle.shelf.specs.Shelved.{Shelved, shelved_code};

    ghost Value = { Shelved V };

    ghost coded = { shelved_code V.code };

    ghost use Rattle.shelf.specs.Parted.{room_in};
    ghost use Rattle.shelf.specs.Places.{AreInParts, entries_in};

    ghost view = { λ s. record { entries = entries_in s.parts.items; room = room_in s.parts.items } };

    ghost invariant = { λ s. AreInParts s.parts.items };
}

impl<V> Shelf<V> {
    ghost use Rattle.shelf.specs.Lends.{lends_value};

    /// A shelf with nothing on it, and no room. It takes no memory.
    pub fn empty(alloc: Global) -> Shelf<V>
        ensures entries { result.entries ≡ [] }
        ensures room { result.room ≡ 0 }
    {
        Shelf {
            parts: Vec::new(alloc),
        }
    }

    /// A shelf with nothing on it, and room for so many values.
    pub fn with_capacity(alloc: Global, room: usize) -> Result<Shelf<V>, AllocError>
        ensures entries { IfOk result (λ shelf. shelf.entries ≡ []) }
        ensures room { IfOk result (λ shelf. shelf.room ≡ room) }
    {
        Ok(Shelf {
            parts: parts_of(alloc, room)?,
        })
    }

    /// How many values there are.
    pub fn len(&self) -> usize
        ensures { result ≡ length self.now.entries }
    {
        count(&self.parts)
    }

    /// The value of a key; none if it has none.
    pub fn get(&self, key: u64) -> Option<&V>
        ensures { option_copied result ≡ value_at self.now.entries key }
    {
        if self.parts.is_empty() {
            return None;
        }
        value_in(&self.parts[part_of(key)], key)
    }

    /// The value of a key, to be changed; none if it has none.
    pub fn get_mut(&mut self, key: u64) -> Option<&mut V>
        ensures* writes_back { sem 𝓛 (lends_value V.row self.entry key result) }
        ensures value { option_copied_mut result ≡ value_at self.old.entries key }
    {
        if self.parts.is_empty() {
            return None;
        }
        let part = part_of(key);
        match place_of(&self.parts[part], key) {
            Ok(place) => Some(&mut *self.parts[part][place].1),
            Err(_) => None,
        }
    }

    /// The key at a place in their order, from 0 on, and its value; none from `len` on. Each key is higher than the one before.
    pub fn at(&self, place: usize) -> Option<(u64, &V)>
        ensures entry { option_map entry_seen result ≡ slice_get self.now.entries place }
        ensures ascends { IsStrictlySortedBy nat_cmp (keys_of self.now.entries) }
    {
        let (key, value) = item_at(&self.parts, place)?;
        Some((*key, value))
    }

    /// What a proof takes of the keys: they ascend. The call does nothing.
    pub fn ascends(&self)
        ensures { IsStrictlySortedBy nat_cmp (keys_of self.now.entries) }
    {
        let _parts = self.parts.len();
    }

    /// Room for so many more entries, to be handed to `make_room`. It takes memory only if the shelf has no room for them; then
    /// there is room for all entries, and for twice as many as there are. It changes nothing.
    pub fn room(&self, alloc: Global, more: usize) -> Result<Room<V>, AllocError>
        ensures serves { IfOk result (λ room. Serves self.now more room) }
        ensures none { more ≤ self.now.room → IfOk result (λ room. room ≡ 0) }
        ensures memory { OnErr result (self.now.room < more) }
    {
        if more <= free(&self.parts) {
            return Ok(Room::none(alloc));
        }
        let length = self.len();
        let Some(least) = length.checked_add(more) else {
            return Err(AllocError);
        };
        Room::of(alloc, least.max(length.saturating_mul(2)))
    }

    /// Moves the entries into this room, if it is larger than what the shelf has. It takes no memory.
    pub fn make_room(&mut self, room: Room<V>)
    where
        V: Drop,
        ensures entries { self.new.entries ≡ self.old.entries }
        ensures room { max self.old.room (room - length self.old.entries) ≤ self.new.room }
    {
        let Room { parts } = room;
        if self.parts.is_empty() {
            self.parts = parts;
        } else {
            widen_parts(&mut self.parts, parts);
        }
    }

    /// Does this with each value. It takes no memory.
    pub fn for_each<F: Visit<V>>(&mut self, visit: &F)
        ensures entries { self.new.entries ≡ map (λ entry. (entry.0, F.leaves visit.now entry.1)) self.old.entries }
        ensures room { self.new.room ≡ self.old.room }
    {
        visit_parts(&mut self.parts, visit);
    }

    /// Puts a value under a key, in the place of the one that was there. For a key that has none there is room. It takes no memory.
    pub fn put(&mut self, key: u64, value: Box<V>)
    where
        V: Drop,
        requires { value_at self.old.entries key ≡ None → 0 < self.old.room }
        ensures entries { self.new.entries ≡ with_value self.old.entries key (box_value value) }
        ensures room { self.old.room ≤ self.new.room + 1 }
        ensures kept { IsSome (value_at self.old.entries key) → self.new.room ≡ self.old.room }
    {
        put_in(&mut self.parts[part_of(key)], key, value);
    }
}

/// How many entries there are in parts.
fn count<V>(parts: &[Vec<(u64, Box<V>)>]) -> usize
    requires { length parts.now ≤ 10 }
    ensures { result ≡ length (entries_in parts.now) }
{
    let mut entries = 0;
    for part in parts {
        let part: &[(u64, Box<V>)] = part;
        entries += part.len();
    }
    entries
}

/// The value of a key in a part; none if it has none.
fn value_in<V>(part: &[(u64, Box<V>)], key: u64) -> Option<&V>
    requires { IsStrictlySortedBy nat_cmp (keys_of (entries_of part.now)) }
    ensures { option_copied result ≡ value_at (entries_of part.now) key }
{
    match place_of(part, key) {
        Ok(place) => Some(&part[place].1),
        Err(_) => None,
    }
}

/// Puts a value under a key into its part, in the place of the one that was there. For a key that has none there is room.
fn put_in<V: Drop>(part: &mut Vec<(u64, Box<V>)>, key: u64, value: Box<V>)
    requires ascends { IsStrictlySortedBy nat_cmp (keys_of (entries_of part.old.items)) }
    requires room { value_at (entries_of part.old.items) key ≡ None → 0 < free_in part.old }
    ensures entries { entries_of part.new.items ≡ with_value (entries_of part.old.items) key (box_value value) }
    ensures room { free_in part.old ≤ free_in part.new + 1 }
    ensures kept { IsSome (value_at (entries_of part.old.items) key) → free_in part.new ≡ free_in part.old }
{
    match place_of(part, key) {
        Ok(place) => part[place].1 = value,
        Err(place) => insert_reserved(part, place, (key, value)),
    }
}

/// Does this with the value of each entry in parts.
fn visit_parts<V, F: Visit<V>>(parts: &mut Parts<(u64, Box<V>)>, visit: &F)
    ensures room { frees_of parts.new.items ≡ frees_of parts.old.items }
    ensures entries { lists_in parts.new.items ≡ map (map (λ entry. (entry.0, F.leaves visit.now entry.1))) (lists_in parts.old.items) }
{
    for part in parts.iter_mut() {
        visit_each(part, visit);
    }
}

/// Does this with the value of each entry.
fn visit_each<V, F: Visit<V>>(entries: &mut Vec<(u64, Box<V>)>, visit: &F)
    ensures room { free_in entries.new ≡ free_in entries.old }
    ensures entries { entries_of entries.new.items ≡ map (λ entry. (entry.0, F.leaves visit.now entry.1)) (entries_of entries.old.items) }
{
    for entry in entries.iter_mut() {
        visit.visit(&mut entry.1);
    }
}

/// Where the key stands, or where it would go.
fn place_of<V>(entries: &[(u64, Box<V>)], key: u64) -> Result<usize, usize>
    ensures { IsPlaceOf (entries_of entries.now) key result }
{
    entries.binary_search_by_key(&key, |entry| entry.0)
}

/// Puts an item at a place of a vector that has room for it.
fn insert_reserved<T: Drop>(items: &mut Vec<T>, place: usize, item: T)
    requires place { place ≤ vec_len items.old }
    requires room { vec_len items.old < vec_capacity items.old }
    ensures items { items.new.items ≡ insert items.old.items place item }
    ensures len { vec_len items.new ≡ vec_len items.old + 1 }
    ensures capacity { vec_capacity items.new ≡ vec_capacity items.old }
{
    if items.insert(place, item).is_err() {
        unreachable!();
    }
}
