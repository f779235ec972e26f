//! The numbers of standard input, output and error.

use crate::fault::ServeFault;
use std::fs::OpenOptions;
use std::rt::Files;

/// Where nothing is read and nothing written.
const NOTHING: &str = "/dev/null";

/// Three files in which there is nothing. If standard input, output or error is closed, one of them has its number, so that no store and no connection gets it:
/// lines of the log would go there.
#[derive(Drop)]
pub(crate) struct Standard<F> {
    first: F,
    second: F,
    third: F,
}

/// Opens them. Nothing if that fails.
pub(crate) fn fill_standard<R: Files>(rt: &R) -> Result<Standard<R::File>, ServeFault> {
    Ok(Standard {
        first: open_nothing(rt)?,
        second: open_nothing(rt)?,
        third: open_nothing(rt)?,
    })
}

/// Opens one. Nothing if that fails.
fn open_nothing<R: Files>(rt: &R) -> Result<R::File, ServeFault> {
    match OpenOptions::new().read(true).open(rt, NOTHING) {
        Ok(file) => Ok(file),
        Err(_) => Err(ServeFault::Nothing),
    }
}
