//! What a configuration says of the limits of its accounts.
#![tactic(auto)]

mod fault;
mod key;
mod limited_account;
mod reading;
mod row;
mod row_fault;
mod values;

pub use fault::LimitsFault;
pub use key::LimitKey;
pub use limited_account::{LimitedAccount, limits_of};
pub use reading::read_limits;
