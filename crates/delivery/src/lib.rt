//! Attempts of a message: what is due for it, its deliver_sm, and what came of that.
#![tactic(auto)]

mod deliver;
mod due_decree;
mod fault;
mod laws;
mod outcome;
mod rules;

pub use deliver::deliver_pdu;
pub use due_decree::DueDecree;
pub use fault::DeliverFault;
pub use laws::{one_decree_is_due, outcomes_are_possible};
pub use outcome::{Failure, Outcome, outcome_of};
pub use rules::due;
