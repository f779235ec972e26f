//! The laws over whole runs and over steps. The functions do nothing: their contracts are the laws.
#![tactic(auto)]

mod promises;
mod replies;
mod runs;
mod steps;
mod steps_of_nodes;
mod stories;

pub use promises::{
    each_run_is_loose, headline, headline_over_steps, one_receipt_over_steps,
    what_is_stated_is_chosen,
};
pub use replies::{
    a_settling_majority_has_seen_every_choice, answers_are_fresh, answers_are_fresh_over_steps,
    tellers_meet_a_choice, tells_follow_their_question,
};
pub use runs::{
    a_cancelled_message_is_deleted, a_full_desk_takes_no_request, a_node_that_stopped_starts_anew,
    a_receipt_stands_on_its_told, an_open_attempt_is_not_passed,
    an_outcome_is_possible_and_comes_once, chosen_chains_agree, chosen_chains_are_permitted,
    decrees_have_their_errors, deleted_stands_on_a_cancel, every_packet_concerns_every_node,
    no_decree_is_ahead_of_the_clock, receipts_are_of_the_node_of_the_id, what_is_chosen_stays,
    what_is_given_up_was_never_granted,
};
pub use steps::{
    a_run_of_steps_goes_on, a_run_over_old_stores_goes_on, a_step_alone_is_a_step,
    acts_leave_what_the_node_says, nodes_make_a_run, nodes_make_a_run_of_steps,
    replies_are_decided, steps_are_runs,
};
pub use steps_of_nodes::{
    a_node_starts_anew, a_request_finds_no_serial, a_tell_settles_a_query, a_tick_starts_a_round,
    a_told_vote_is_followed, a_voted_chain_is_carried_on, an_acceptor_promises_or_stops,
    an_attempt_is_granted_and_concluded, each_cancel_starts_a_round,
    each_fate_that_asks_starts_a_round,
};
pub use stories::{
    a_message_is_cancelled, a_message_is_delivered, a_message_is_taken_step_by_step,
    a_node_stops_after_a_save, a_query_is_answered, a_submit_starts_a_round,
};
