//! One node over the synod and a store that outlives its stops: how it opens, prepares its steps and commits them, and grants attempts.
#![tactic(auto)]

mod grouping;
mod laws;
mod life;
mod loaded;
mod node;
mod open;
mod pending;
mod permit;
mod permitting;
mod settling;

pub use laws::{
    opens_as_crashed, opens_as_restarted, opens_over_a_list, opens_over_what_is_held,
    reopens_as_crashed,
};
pub use life::Life;
pub use loaded::Loaded;
pub use node::Node;
pub use node_kept::{
    Found, GrantRefusal, Input, JoinFault, MOST_GROUPED, MayBegin, MessageIds, Outputs, Reach,
    Setup, StepFault, StepGroup, Stopped, sender,
};
pub use open::open_node;
pub use pending::Pending;
pub use permit::Permit;
