//! A reader at any pace.

use std::io;
use std::io::{ErrorKind, Read};

/// A reader of these octets.
#[derive(Drop)]
pub struct Source<'a> {
    pub octets: &'a [u8],
    /// How many octets it gives at most by one read.
    pub pace: usize,
    /// How many octets are left when a read fails, once.
    pub fails_at: Option<usize>,
    /// Whether every second read is interrupted.
    pub interrupts: bool,
    /// Whether the last one was not.
    pub was_read: bool,
    /// How often it was read.
    pub reads: usize,
}

impl Source<'_> {
    /// These octets, so many by one read.
    pub fn of(octets: &[u8], pace: usize) -> Source<'_> {
        Source {
            octets,
            pace,
            fails_at: None,
            interrupts: false,
            was_read: true,
            reads: 0,
        }
    }
}

impl Read for Source<'_> {
    fn read(&mut self, buffer: &mut [u8]) -> io::Result<usize> {
        self.reads = self.reads.saturating_add(1);
        self.was_read = !self.was_read;
        if self.interrupts && !self.was_read {
            return Err(ErrorKind::Interrupted.into());
        }
        if self.fails_at == Some(self.octets.len()) {
            self.fails_at = None;
            return Err(ErrorKind::BrokenPipe.into());
        }
        let count = self.pace.min(buffer.len()).min(self.octets.len());
        let (front, rest) = self.octets.split_at(count);
        buffer[..count].copy_from_slice(front);
        self.octets = rest;
        Ok(count)
    }
}
