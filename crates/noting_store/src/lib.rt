//! Notes, which a node keeps beside its records: what made it know a chain.
#![tactic(auto)]

mod failing;
mod laws;
mod list;
mod note;
mod store;

pub use failing::FailingNotes;
pub use laws::a_note_says_who_told;
pub use list::NotingList;
pub use note::Note;
pub use store::NotingStore;
