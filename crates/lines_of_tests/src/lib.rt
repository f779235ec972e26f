//! Lines of text by which tests say what comes to a node and what it answers.
#![tactic(auto)]

mod answers;
mod asked;
mod inputs;
mod packets;
mod rows;
mod scripts;
mod walks;

pub use answers::{Answer, NOTHING, OTHER, answer_in, answer_said, copied, told_in};
pub use asked::{account, request, text};
pub use inputs::{TAKEN, first_id, input, input_of, node, numbers};
pub use rows::{ALONE, ATTEMPTS, LIVE, PACKETS, TICKS};
pub use scripts::OF_THREE_NODES;
pub use walks::{Given, first_other, put_back, step};
