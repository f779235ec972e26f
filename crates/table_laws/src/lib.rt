//! Laws of one node by itself, to which its packets are delivered. The functions do nothing: their contracts are the laws.
#![tactic(auto)]

mod attempts;
mod events;
mod examples;
mod openings;
mod requests;
mod rounds;
mod settling;
mod ticks;

pub use attempts::{a_grant_settles, a_response_settles};
pub use events::{an_event_settles, one_node_alone_is_the_table};
pub use examples::a_message_is_delivered_on_the_table;
pub use openings::a_new_node_is_at_rest;
pub use requests::{a_refusal_settles, a_request_settles};
pub use rounds::a_round_settles;
pub use settling::{a_settle_ends, a_settle_goes_on, a_settle_has_one_end};
pub use ticks::a_tick_settles;
