//! What goes between a node and its ESMEs: what they ask and answer, and what it gives out in its steps.
#![tactic(auto)]

mod asking;
mod heeded;
mod heeding;
mod outlet;
mod posting;
mod replying;
mod steps;
mod telling;

pub use asking::{AskFault, Asking, ask};
pub use heeded::Heeded;
pub use heeding::{Centre, HeardOn, HeedFault, Unasked, heed};
pub use outlet::Outlet;
pub use posting::{post_all, post_for, post_for_all, post_on};
pub use replying::reply_all;
pub use steps::{Steps, Taken};
pub use telling::tell;
