//! The numbers of SMPP 3.4: commands, statuses, states of messages, tags of optional parameters, and the limits
//! of fields.
#![tactic(auto)]

mod codes;
mod command;
mod laws;
pub mod limits;
mod state;
mod status;
mod tag;

pub use command::Command;
pub use laws::limits_are_those_of_the_standard;
pub use state::State;
pub use status::Status;
pub use tag::Tag;
