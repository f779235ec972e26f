//! The service of the ESMEs at a node: their sessions, what comes on these for the node, and what goes out.
#![tactic(auto)]

mod delivering;
mod heard;
mod heard_pdu;
mod hearing;
mod overdue;
mod owner;
mod pushed_on;
mod receiving;
mod response;
mod sending;
mod service;
mod waiting;

pub use heard::{Asked, Heard};
pub use heard_pdu::HeardPdu;
pub use owner::Owner;
pub use pushed_on::PushedOn;
pub use sending::Sending;
pub use service::Service;
