//! Readers and writers as a test wants them.

use std::io;
use std::io::{Read, Write};

/// A reader that gives its octets and then fails.
#[derive(Drop)]
pub struct Failing<'a>(pub &'a [u8]);

impl Read for Failing<'_> {
    fn read(&mut self, buffer: &mut [u8]) -> io::Result<usize> {
        if self.0.is_empty() {
            return Err(io::Error::from(io::ErrorKind::BrokenPipe));
        }
        self.0.read(buffer)
    }
}

/// A reader that gives one octet each time.
#[derive(Drop)]
pub struct Slow<'a>(pub &'a [u8]);

impl Read for Slow<'_> {
    fn read(&mut self, buffer: &mut [u8]) -> io::Result<usize> {
        let end = buffer.len().min(1);
        self.0.read(&mut buffer[..end])
    }
}

/// A writer that takes no octet.
#[derive(Drop)]
pub struct Closed;

impl Write for Closed {
    fn write(&mut self, _octets: &[u8]) -> io::Result<usize> {
        Err(io::Error::from(io::ErrorKind::BrokenPipe))
    }

    fn flush(&mut self) -> io::Result<()> {
        Ok(())
    }
}
