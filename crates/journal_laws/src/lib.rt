//! The journal of nodes that took their steps by themselves.
#![tactic(auto)]

mod laws;

pub use laws::{
    a_journal_answers_by_what_it_told, a_journal_deletes_what_is_cancelled, a_journal_goes_on,
    a_journal_goes_on_over_old_stores, a_journal_grants_nothing_after_a_fate, a_journal_is_a_run,
    a_journal_is_worked, a_journal_keeps_its_promises, a_journal_over_an_old_store_is_worked,
    a_journal_tells_deliveries_that_stand, a_journal_tells_one_fate, a_journal_tells_one_receipt,
    a_journal_tells_receipts_that_stand, a_journal_tells_what_was_chosen,
    a_node_keeps_what_it_opened_over, a_part_is_a_journal, a_run_is_a_journal,
    a_run_lists_its_records, a_start_anew_of_a_node_is_its_own, a_step_of_a_node_is_its_own,
    a_stop_of_a_node_is_its_own, an_own_run_is_copied, nodes_that_open_begin_a_journal,
};
