//! What a node keeps, and what each step makes of it.
#![tactic(auto)]

mod arriving;
mod filing;
mod granting;
mod grouped_step;
mod grouping;
mod join_fault;
mod kept;
mod learning;
mod queue_change;
mod requesting;
mod settling;
mod setup;
mod step;
mod step_group;
mod stopped;
mod telling;
mod ticking;
mod turn_list;
mod walk;

pub use join_fault::JoinFault;
pub use kept::Kept;
pub use node_parts::{
    GrantRefusal, Input, MayBegin, MessageIds, Outputs, Reach, StepFault, sender,
};
pub use queue_change::QueueChange;
pub use setup::Setup;
pub use step::{Counted, Next, Put, Step};
pub use step_group::{MOST_GROUPED, StepGroup};
pub use stopped::{Found, Stopped, told};
