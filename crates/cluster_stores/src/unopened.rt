//! Why the store of a node can't be opened.

use crate::fault::StoresFault;
use crate::private::make_private;
use stable_store::StoreFault;
use std::alloc::AllocError;
use std::fs::OpenOptions;
use std::io;
use std::rt::HostRuntime;

/// Why the store of a node can't be opened: of a file which it is, and what the system says, if it is the system that refuses it.
pub(crate) fn unopened(
    host: &HostRuntime,
    number: u8,
    path: Option<&str>,
    fault: StoreFault,
) -> Result<StoresFault, AllocError> {
    match (path, fault) {
        (Some(path), StoreFault::Device) => {
            let shown = String::from_str(host.alloc(), path)?;
            Ok(StoresFault::Unopened(number, shown, refusal(host, path)))
        }
        _ => Ok(StoresFault::Store(number, fault)),
    }
}

/// Why the system opens no file of this path to read and write; none if it does.
fn refusal(host: &HostRuntime, path: &str) -> Option<io::Error> {
    match make_private(host, path) {
        Ok(_) => OpenOptions::new()
            .read(true)
            .write(true)
            .open(host, path)
            .err(),
        Err(error) => Some(error),
    }
}
