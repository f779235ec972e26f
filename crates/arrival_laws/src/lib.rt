//! What comes to a node by the requests of accounts.
#![tactic(auto)]

mod laws;

pub use laws::a_request_may_come;
