//! What a configuration says that is no fault, and hardly meant.
#![tactic(auto)]

mod lines;
mod nodes;
mod routes;
mod section;
mod shown;
mod tables;
mod telling;
mod unknown;

pub use lines::{Named, line_of};
pub use nodes::{is_left_in_memory, share_port, share_store};
pub use routes::is_deaf;
pub use section::{Section, each_key_is_known};
pub use shown::Shown;
pub use tables::{tables_in, text_at};
pub use telling::warnings;
pub use unknown::unknown_names;
