//! The records of an acceptor, and its last incarnation, as the rows of a node's store over `sqlite`.
#![tactic(auto)]

mod calls;
mod fault;
mod note_row;
mod notes;
mod row;
mod voters;

pub use calls::{load_records, raise_incarnation, save_record, save_records};
pub use fault::NextFault;
pub use notes::{load_notes, save_notes};
