//! What the bodies of PDUs have, and bodies read to their last octet.
#![tactic(auto)]

mod bind;
mod bodies;
mod cancel;
mod comparing;
mod copying;
mod message;
mod pdu;
mod reading;

pub use pdu::{Bind, BindAnswer, Body, Cancel, Message, Pdu, Query, QueryAnswer};
pub use reading::body_of;
