//! Lists of steps of a world, and what they give.
#![tactic(auto)]

mod laws;
mod running;
mod statement;
mod trace;

pub use laws::{
    a_history_goes_on, a_world_answers_by_what_it_told, a_world_deletes_what_is_cancelled,
    a_world_grants_nothing_after_a_fate, a_world_tells_deliveries_that_stand,
    a_world_tells_one_fate, a_world_tells_one_receipt, a_world_tells_receipts_that_stand,
    a_world_tells_what_was_chosen, statements_are_told,
};
pub use running::run;
pub use statement::Statement;
pub use trace::Trace;
