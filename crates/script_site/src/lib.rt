//! What stands beside a node of a script: the service of its ESMEs, and the lines that go out there.
#![tactic(auto)]

mod lines;
mod output;
mod session_place;
mod site;
mod steps;
mod streams;
mod telling;

pub use output::{write_declined, write_unsettled};
pub use site::Site;
