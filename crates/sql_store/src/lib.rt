//! A node's store on disk, over `sqlite`.
#![tactic(auto)]

mod filling;
mod looking;
mod order;
mod settling;
mod store;

pub use looking::Said;
pub use record_rows::WhoseRow;
pub use store::SqlStore;
