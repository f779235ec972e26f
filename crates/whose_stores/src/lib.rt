//! Whether the stores that nodes find are those with which they may go on together.
#![tactic(auto)]

mod begun;
mod broken;
mod difference;
mod found;
mod judging;
mod mark;

pub use difference::Difference;
pub use found::{Found, MOST_NODES, Stored, Whose};
pub use judging::judge;
