//! The lines of a script, read from any reader, and what each of them says.
#![tactic(auto)]

mod buffer;
mod line;
mod octets;

pub use buffer::{Found, LineBuffer, lines_are_read};
pub use line::{Line, MOST_OCTETS, read_line, spelled_so};
pub use octet_io::{CountedReader, ReadFault};
