//! Runs a script: octets read to octets written.
#![tactic(auto)]

mod arrivals;
mod centre;
mod fault;
mod program;
mod run;

pub use fault::ScriptFault;
pub use octet_io::{CountedReader, CountedWriter};
pub use program::{ProgramRun, run_program};
pub use run::run_script;
