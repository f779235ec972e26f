//! The stores of a cluster, each where the configuration says: looked at, and only then made.
#![tactic(auto)]

mod fault;
mod looking;
mod marking;
mod opening;
mod private;
mod refusal;
mod unopened;

pub use fault::StoresFault;
pub use opening::open_stores;
pub use refusal::Refusal;
