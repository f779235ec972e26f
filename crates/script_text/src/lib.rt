//! The text of a script: its definitions, and their laws.
#![tactic(auto)]

mod laws;

pub use laws::{first_script_is_calm, lines_join, second_script_is_calm, three_nodes_print};
