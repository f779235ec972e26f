//! A table from numbers to values into which a value is put without taking memory: room for it is taken before.
#![tactic(auto)]

mod parts;
mod room;
mod shelf;
mod visit;

pub use parts::{Parts, part_of, parts_of, widen_parts, width};
pub use room::Room;
pub use shelf::Shelf;
pub use visit::Visit;
