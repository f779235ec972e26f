//! What a node keeps where a stop can't reach it: the records of its acceptor, and the number of its last incarnation.
#![tactic(auto)]

mod failing;
mod fault;
mod group;
mod holding;
mod latch;
mod laws;
mod list;
mod store;

pub use failing::{FailingStore, Found};
pub use fault::StoreFault;
pub use group::GroupStore;
pub use holding::{Hold, HoldingStore};
pub use latch::{Latch, LatchHold};
pub use laws::{a_group_of_one_is_a_save, a_list_is_exact};
pub use list::ListStore;
pub use store::StableStore;
