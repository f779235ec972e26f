//! What an account may be limited to, and how what comes is held against that.
#![tactic(auto)]

mod address;
mod bind_tries;
mod hash_fault;
mod hmac;
mod limits;
mod net;
mod net_fault;
mod number;
mod pace;
mod password_hash;
mod sender_fault;
mod sender_pattern;

pub use bind_tries::{BindTries, BindTry};
pub use hash_fault::HashFault;
pub use limits::Limits;
pub use net::Net;
pub use net_fault::NetFault;
pub use pace::Pace;
pub use password_hash::{MOST_ROUNDS, PasswordHash};
pub use sender_fault::SenderFault;
pub use sender_pattern::SenderPattern;
