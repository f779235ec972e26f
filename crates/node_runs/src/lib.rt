//! The runs of a node.
#![tactic(auto)]

mod coming;
mod laws;

pub use coming::{is_well_made, may_come, take};
pub use laws::{a_node_goes_on, a_node_is_one_actor, a_start_happens, a_stop_happens};
pub use node_core::{
    Found, GrantRefusal, Input, Life, MayBegin, MessageIds, Node, Outputs, Pending, Reach, Setup,
    StepFault, open_node, opens_as_restarted, sender,
};
