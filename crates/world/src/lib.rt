//! A world of up to nine nodes, and the packets between them.
#![tactic(auto)]

mod fault;
mod given;
mod member;
mod world;

pub use fault::{StartFault, WorldFault};
pub use given::Given;
pub use node_entry::Step;
pub use node_runs::{Found, MayBegin, MessageIds, Reach, is_well_made, may_come, sender};
pub use world::World;
