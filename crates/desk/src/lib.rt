//! What is refused of a request at once, what of it waits, and what a query_sm shows.
#![tactic(auto)]

mod door;
mod laws;
mod request;
mod showing;
mod times;

pub use door::{Admitted, Door};
pub use laws::unrouted_are_refused;
pub use request::{Answer, Request};
pub use showing::shown;
