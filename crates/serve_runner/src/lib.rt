//! Runs a server: its arguments and its configuration to stores, listeners and nodes, and how it ended to an exit status.
#![tactic(auto)]

mod asked;
mod fault;
mod inspecting;
mod listing;
mod opening;
mod running;
mod standard;
mod version;

pub use asked::{Asked, Options, asked_by};
pub use fault::ServeFault;
pub use inspecting::inspect;
pub use running::serve_file;
pub use server::{Stamp, Stop, stamp_now};
pub use version::PROGRAM;
