//! The fates that scripts over several nodes print.
#![tactic(auto)]

mod laws;

pub use laws::{
    a_delivery_is_told, a_later_query_is_told, a_script_is_a_run,
    accepted_ids_are_not_refused_at_once, answers_come_in_octets,
    attempts_are_refused_after_a_fate, delivered_is_printed_of_what_was_answered,
    deliveries_come_before_fates, ids_are_not_refused_at_once, later_queries_are_told_the_fate,
    later_queries_tell_the_fate, later_requests_are_not_refused_as_unknown,
    later_requests_are_not_refused_at_once, later_requests_are_of_known_messages,
    no_attempt_is_granted_after_a_fate, one_fate_is_printed_by_all_nodes, one_receipt_is_printed,
    printed_deliveries_stand, printed_fates_stay, requests_that_wait_came_in_octets,
    two_nodes_tell_one_fate,
};
