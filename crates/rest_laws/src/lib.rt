//! Laws of notes and of messages at rest. The functions do nothing: their contracts are the laws.
#![tactic(auto)]

mod behind;
mod cool;
mod histories;
mod miniature;
mod notes;
mod rest;

pub use behind::{
    a_cooling_goes_on, a_drop_goes_on, a_run_stands_behind, a_start_anew_goes_on,
    a_step_of_a_node_that_forgot_goes_on, each_run_is_a_history,
};
pub use cool::{
    what_comes_suits_what_is_calm, what_is_calm_stays_calm,
    what_was_heard_of_what_is_over_does_not_matter,
};
pub use histories::{
    nodes_that_forget_answer_by_what_they_told, nodes_that_forget_delete_what_is_cancelled,
    nodes_that_forget_grant_nothing_after_a_fate, nodes_that_forget_tell_deliveries_that_stand,
    nodes_that_forget_tell_one_fate, nodes_that_forget_tell_one_receipt,
    nodes_that_forget_tell_receipts_that_stand, nodes_that_forget_tell_what_was_chosen,
};
pub use miniature::{one_chain_is_told_though_nodes_drop, two_are_told_if_one_answers_again};
pub use notes::{
    a_first_message_is_noted, a_node_starts_anew_over_notes,
    a_start_anew_does_without_what_is_gone, most_chains_start_no_round, what_is_known_may_be_noted,
    what_was_heard_was_sent, what_was_noted_is_known_again,
};
pub use rest::{
    a_delivered_message_is_at_rest, a_node_does_without_what_is_at_rest,
    a_run_does_without_what_is_at_rest, nothing_is_due_at_rest,
};
