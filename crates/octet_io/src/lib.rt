//! Reads and writes of octets, over any reader and any writer, counted.
#![tactic(auto)]

mod counted_reader;
mod counted_writer;

pub use counted_reader::{CountedReader, MOST_READS, ReadFault};
pub use counted_writer::{CountedWriter, MOST_WRITES, WriteFault};
