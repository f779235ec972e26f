//! What a list of steps gave.

ghost use Rattle.std.specs.Prelude.{◌≡◌, IfOk};
ghost use Rattle.world_runs.specs.Statements.{statements_of};

use crate::statement::{Statement, add_given};
use std::alloc::AllocError;
use world::{Given, Step, WorldFault};

/// A list of steps, and what each of them gave, in their order: what went out, or why it was refused.
#[derive(Drop)]
pub struct Trace {
    pub steps: Vec<Step>,
    /// The answer of each step stands at its place.
    pub answers: Vec<Result<Given, WorldFault>>,
}

impl Trace {
    /// The final states that the steps told, in their order. An `Err` is want of memory.
    pub fn statements(&self) -> Result<Vec<Statement>, AllocError>
        ensures { IfOk result (λ statements. statements.items ≡ statements_of self.now.answers.items) }
    {
        let mut statements = Vec::new(*self.answers.allocator());
        for (step, answer) in self.answers.iter().enumerate() {
            if let Ok(given) = answer {
                add_given(&mut statements, step, given)?;
            }
        }
        Ok(statements)
    }
}
