//! The requests that wait at a node: what is told to their questions, and what they are answered.
#![tactic(auto)]

mod answer;
mod held;
mod queue;
mod request;
mod taken;
mod told;
mod verdict;
mod walk;

pub use answer::{Answer, Reply};
pub use held::Held;
pub use queue::Queue;
pub use request::Request;
pub use taken::Taken;
