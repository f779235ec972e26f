//! Lists in parts, one for each span of keys, so that an item whose key is the highest of its span goes to the end of its part, and nothing moves.

ghost use Rattle.std.specs.Prelude.{◌≡◌, ◌≤◌, ◌<◌, ◌+◌, ◌-◌, [], length, map, max, IfOk, OnErr};
ghost use Rattle.std.specs.List.{All, slice_get};
ghost use Rattle.std.specs.Option.{option_copied};
ghost use Rattle.std.specs.Vec.{vec_capacity, vec_len};
ghost use Rattle.shelf.specs.Parted.{IsNumberOfParts, all_in, frees_of, least_of, lists_of, part_of, room_in, wide_in};

use std::alloc::{AllocError, Global};
use std::mem;

/// No part, which takes no memory, or a part for each span of keys.
pub type Parts<T> = Vec<Vec<T>>;

/// How many keys there are to a part, but for the last, in which all higher ones lie.
const SPAN: u64 = 1_000_000_000;

/// How many parts there are.
const PARTS: usize = 10;

/// The place of the part in which a key lies.
pub fn part_of(key: u64) -> usize
    ensures { result ≡ part_of key }
{
    (key / SPAN).min(PARTS as u64 - 1) as usize
}

/// Parts with nothing in them, and room for so many items in each. It takes memory only for some.
pub fn parts_of<T>(alloc: Global, room: usize) -> Result<Parts<T>, AllocError>
    ensures number { IfOk result (λ parts. IsNumberOfParts (length parts.items)) }
    ensures items { IfOk result (λ parts. all_in parts.items ≡ []) }
    ensures room { IfOk result (λ parts. room_in parts.items ≡ room) }
    ensures width { IfOk result (λ parts. wide_in parts.items ≡ room) }
    ensures each { IfOk result (λ parts. All (λ part. vec_capacity part ≡ room) parts.items) }
    ensures memory { OnErr result (0 < room) }
{
    if room == 0 {
        return Ok(Vec::new(alloc));
    }
    let mut parts = Vec::with_capacity(alloc, PARTS)?;
    for _ in 0..PARTS {
        match Vec::with_capacity(alloc, room) {
            Ok(part) => parts.push_reserved(part),
            Err(error) => {
                discard(parts);
                return Err(error);
            }
        }
    }
    Ok(parts)
}

/// Gives parts back in which nothing lies.
fn discard<T>(mut parts: Parts<T>)
    requires { all_in parts.items ≡ [] }
{
    while let Some(part) = parts.pop() {
        part.destroy_empty();
    }
    parts.destroy_empty();
}

/// For how many more items there is room in each part; none without a part.
pub fn free<T>(parts: &[Vec<T>]) -> usize
    ensures { result ≡ room_in parts.now }
{
    match parts {
        [] => 0,
        [first, others @ ..] => least_free(first.capacity() - first.len(), others),
    }
}

/// The least of a number and the room in each part.
fn least_free<T>(first: usize, parts: &[Vec<T>]) -> usize
    ensures { result ≡ least_of first (frees_of parts.now) }
{
    let mut least = first;
    for part in parts {
        least = least.min(part.capacity() - part.len());
    }
    least
}

/// How wide the narrowest part is; 0 without a part.
pub fn width<T>(parts: &[Vec<T>]) -> usize
    ensures { result ≡ wide_in parts.now }
{
    match parts {
        [] => 0,
        [first, others @ ..] => least_width(first.capacity(), others),
    }
}

/// The least of a number and the width of each part.
fn least_width<T>(first: usize, parts: &[Vec<T>]) -> usize
    ensures { result ≡ least_of first (map (λ part. vec_capacity part) parts.now) }
{
    let mut least = first;
    for part in parts {
        least = least.min(part.capacity());
    }
    least
}

/// The item at a place among all, from 0 on; none after the last.
pub fn item_at<T>(parts: &[Vec<T>], place: usize) -> Option<&T>
    ensures { option_copied result ≡ slice_get (all_in parts.now) place }
{
    let mut left = place;
    for part in parts {
        if left < part.len() {
            return Some(&part[left]);
        }
        left -= part.len();
    }
    None
}

/// Moves the items of each part into the room of the part at its place, if that is larger than what the part has.
pub fn widen_parts<T: Drop>(parts: &mut Parts<T>, mut room: Parts<T>)
    requires { vec_len room ≤ vec_len parts.old }
    ensures lists { lists_of parts.new.items ≡ lists_of parts.old.items }
    ensures kept { room_in parts.old.items ≤ room_in parts.new.items }
    ensures number { vec_len parts.new ≡ vec_len parts.old }
    ensures width { vec_len room ≡ vec_len parts.old → max (wide_in parts.old.items) (wide_in room.items) ≤ wide_in parts.new.items }
    ensures room { vec_len room ≡ vec_len parts.old → room_in room.items - length (all_in parts.old.items) ≤ room_in parts.new.items }
{
    for place in 0..room.len() {
        widen(&mut parts[place], &mut room[place]);
    }
}

/// Moves items into this room, if it is larger than what they have.
fn widen<T: Drop>(items: &mut Vec<T>, room: &mut Vec<T>)
    ensures items { items.new.items ≡ items.old.items }
    ensures capacity { max (vec_capacity items.old) (vec_capacity room.old) ≤ vec_capacity items.new }
{
    if room.capacity() <= items.capacity() {
        return;
    }
    room.clear();
    if room.append(items).is_err() {
        unreachable!();
    }
    mem::swap(items, room);
}
