//! What a worker that delivers attempts needs: hints of what to attempt, a gate to the ESMEs, and an attempt as the gate has it.
#![tactic(auto)]

mod attempt;
mod gate;
mod hints;
mod queue;

pub use attempt::{attempt_octets, attempt_outcome};
pub use gate::Gate;
pub use hints::Hints;
