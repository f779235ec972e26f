//! Files that nobody but their owner may read.

use std::fs::OpenOptions;
use std::io;
use std::io::ErrorKind;
use std::os::unix::fs::OpenOptionsExt;
use std::rt::Files;

/// Who may read and write the file of a store, as a mode of the system: its owner alone, since it has the texts of messages.
const OWNER_ALONE: u32 = 0o600;

/// Makes an empty file at a path that its owner alone may read and write, if nothing is there; whether it made one. What is there already stays as it is, its
/// mode, too. The log beside the file of a store, which is made later, gets the mode of that file. An `Err` tells why no file could be made.
pub(crate) fn make_private<R: Files>(rt: &R, path: &str) -> io::Result<bool> {
    match OpenOptions::new()
        .write(true)
        .create_new(true)
        .mode(OWNER_ALONE)
        .open(rt, path)
    {
        Ok(_) => Ok(true),
        Err(error) if error.kind() == ErrorKind::AlreadyExists => Ok(false),
        Err(error) => Err(error),
    }
}
