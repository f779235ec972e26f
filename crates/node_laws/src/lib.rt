//! Laws of the node by what it keeps. The functions do nothing: their contracts are the laws.
#![tactic(auto)]

mod attempts;
mod clusters;
mod examples;
mod inputs;
mod packets;
mod requests;
mod rules;
mod steps;
mod synod;
mod tables;
mod ticks;

pub use attempts::{a_grant_is_exact, a_grant_is_judged, a_response_is_exact};
pub use clusters::{
    a_cancelled_message_is_given_out_as_deleted, a_cluster_of_nodes_runs,
    a_delivery_stands_on_an_answered_attempt, a_later_query_is_told_the_fate,
    a_later_request_is_of_a_known_message, a_receipt_is_given_out_on_a_told_of_its_node,
    no_attempt_is_granted_after_a_fate, one_fate_is_given_out, one_receipt_is_given_out,
    what_is_given_out_was_chosen,
};
pub use examples::{
    a_message_is_cancelled_alone, a_message_is_delivered_alone, a_message_is_taken_alone,
    a_node_of_three_waits_for_others, a_query_is_answered_alone,
    a_refused_round_is_followed_by_a_greater_one, an_attempt_is_lost_by_a_restart,
};
pub use inputs::{a_run_is_exact, a_step_is_exact};
pub use packets::{
    a_promise_is_exact, a_refused_ballot_is_exact, a_step_of_a_packet_is_exact, a_tell_is_exact,
    a_vote_is_exact,
};
pub use requests::an_arrival_is_exact;
pub use rules::the_first_rule_is_found;
pub use steps::{
    a_refusal_is_exact, a_step_of_an_acceptor_is_exact, a_stop_is_exact, an_opening_is_exact,
};
pub use synod::{
    a_set_decides_a_majority, an_acceptor_answers_as_the_actor, votes_are_compared_exactly,
    what_is_heard_is_known,
};
pub use tables::messages_are_kept_by_their_ids;
pub use ticks::a_tick_is_exact;
