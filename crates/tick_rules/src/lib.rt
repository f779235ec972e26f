//! The rules by which a node goes on with a message: which decree is due after what it knows.
#![tactic(auto)]

mod attempted;
mod due;
mod following;
mod laws;
mod reached;
mod standpoint;
mod waking;

pub use attempted::{Attempted, Closing};
pub use due::Due;
pub use following::follow;
pub use laws::what_is_due_is_the_first_rule;
pub use reached::Reached;
pub use standpoint::Standpoint;
pub use waking::{RETRY_DELAY, until_due};
