//! The two tables of a node's store, and `known` beside them, as raw rows over `sqlite`: made, recognised, read and written.
#![tactic(auto)]

mod adding;
mod beside;
mod fault;
mod group;
mod known;
mod known_row;
mod life;
mod making;
mod probe;
mod row;
mod slots;
mod tables;
mod whose;

pub use adding::{add_life, add_slots};
pub use fault::{Fault, ReadFault};
pub use group::put_slots;
pub use known::{has_known, put_known, read_known};
pub use known_row::KnownRow;
pub use life::{put_incarnation, read_incarnation};
pub use making::make_tables;
pub use row::SlotRow;
pub use slots::{put_slot, read_slots};
pub use tables::{Found, find_tables};
pub use whose::{WhoseRow, add_beside, has_whose, put_whose, read_whose};
