//! What tests of the program do with a script, and what comes of it.
#![tactic(auto)]

mod arguments;
mod runs;

pub use arguments::Arguments;
pub use runs::{Telling, program_run, ran, told};
