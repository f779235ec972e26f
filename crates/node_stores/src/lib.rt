//! A node's store, on disk or in memory.
#![tactic(auto)]

mod looking;
mod named;
mod store;

pub use store::NodeStore;
