//! The sessions of ESMEs (SMPP 3.4, section 2.2): their states, their windows, and what each PDU is answered.
#![tactic(auto)]

mod fault;
mod laws;
mod pushed;
mod reaction;
mod request;
mod requested;
mod response;
mod session;
mod state;

pub use laws::{
    no_pdu_takes_a_place, nothing_leaves_gone, refusal_changes_nothing,
    reply_to_another_changes_nothing, tickets_are_apart,
};
pub use pushed::{Abandoned, Delivery, PushRefusal, Pushed};
pub use reaction::Reaction;
pub use request::OpenRequest;
pub use requested::Requested;
pub use response::{Outgoing, Response, encoded, pdu_with};
pub use session::{Session, WINDOW, sequence_after};
pub use state::SessionState;
