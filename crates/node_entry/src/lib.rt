//! What is done at a node, step by step.
#![tactic(auto)]

mod step;

pub use node_core::{Found, MayBegin, MessageIds, Reach};
pub use step::Step;
