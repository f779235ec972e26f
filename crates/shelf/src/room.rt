//! Room that was taken for entries of a shelf.

ghost use Rattle.std.specs.Prelude.{◌≡◌, ◌≤◌, IfOk};

use crate::parts::{Parts, parts_of};
use std::alloc::{AllocError, Global};
use std::marker::Model;

/// Room for so many entries of a shelf, wherever their keys lie, which holds none yet. Contracts see it as their number.
#[derive(Drop)]
pub struct Room<V> {
    pub(crate) parts: Parts<(u64, Box<V>)>,
}

impl<V> Model for Room<V> {
    ghost use Rattle.std.specs.Prelude.{◌≡◌, ℕ, [], length};
    ghost use Rattle.shelf.specs.Parted.{IsNumberOfParts, all_in, room_in};

    ghost Value = { ℕ };

    ghost view = { λ r. room_in r.parts.items };

    ghost invariant = { λ r. IsNumberOfParts (length r.parts.items) × (all_in r.parts.items ≡ []) };
}

impl<V> Room<V> {
    /// No room, which takes no memory.
    pub(crate) fn none(alloc: Global) -> Room<V>
        ensures { result ≡ 0 }
    {
        Room {
            parts: Vec::new(alloc),
        }
    }

    /// Room for so many entries.
    pub(crate) fn of(alloc: Global, entries: usize) -> Result<Room<V>, AllocError>
        ensures { IfOk result (λ room. room ≡ entries) }
    {
        Ok(Room {
            parts: parts_of(alloc, entries)?,
        })
    }
}
