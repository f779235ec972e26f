//! What calm scripts print.
#![tactic(auto)]

mod laws;

pub use laws::calm_text_is_of_one_node;
