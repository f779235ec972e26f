//! Who may bind, and to which account a message goes.
#![tactic(auto)]

mod account;
mod fault;
mod laws;
mod role;
mod route;

pub use account::{Account, Accounts};
pub use fault::AccountsFault;
pub use laws::{account_is_the_named, route_is_the_longest};
pub use role::Role;
pub use route::{Route, Routes};
