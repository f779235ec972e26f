//! Chains of decrees on messages, of which only the permitted ones exist.
#![tactic(auto)]

mod chain;
mod content;
mod decree;
mod fault;
mod fields;
mod format;
mod laws;
mod marks;
mod octets;
mod progress;
mod reading;
mod shared_decrees;
mod shared_submission;
mod submission;
mod terms;
mod writing;

pub use chain::Chain;
pub use content::Content;
pub use decree::{Author, Decree, ErrorCode, Final, Kind};
pub use fault::ChainFault;
pub use laws::octets_are_of_one_chain;
pub use marks::MOST_DECREES;
pub use shared_submission::SharedSubmission;
pub use submission::Submission;
