//! The threads in which a server tells of itself over HTTP.
#![tactic(auto)]

mod talking;
mod telling;

pub use telling::tell_on;
