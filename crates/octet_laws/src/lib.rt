//! What the octets that a script writes tell of fates.
#![tactic(auto)]

mod laws;

pub use laws::{
    a_cancel_is_answered, a_cancelled_message_stays_deleted, each_answer_is_to_a_query,
    lines_write_on, one_fate_is_written, one_receipt_is_written, two_lines_tell_one_fate,
    what_is_read_is_spelled,
};
