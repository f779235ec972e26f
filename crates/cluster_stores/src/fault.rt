//! Why stores are not served.

use crate::refusal::Refusal;
use stable_store::StoreFault;
use std::alloc::{AllocError, AllocFailed};
use std::{fmt, io};

/// Why the stores of a cluster are not served.
#[derive(Drop)]
pub enum StoresFault {
    /// The store of the node with this number is none.
    Store(u8, StoreFault),
    /// The store of the node with this number can't be opened, which is the file of this path. What the system says, if it is the system that refuses it.
    Unopened(u8, String, Option<io::Error>),
    /// Two nodes have one store, at this path.
    Shared(u8, u8, String),
    /// The stores are not those with which their nodes may go on together.
    Stores(Refusal),
    /// The system gave no random octets.
    Random,
    /// There was no memory.
    Memory,
}

impl From<AllocError> for StoresFault {
    fn from(_error: AllocError) -> StoresFault {
        StoresFault::Memory
    }
}

impl<T: Drop> From<AllocFailed<T>> for StoresFault {
    fn from(_error: AllocFailed<T>) -> StoresFault {
        StoresFault::Memory
    }
}

/// What is wrong with a store, and what to do.
fn store_text(fault: StoreFault) -> &'static str {
    match fault {
        StoreFault::Device =>
            "its file can't be opened, read or written, is of another program, or another process has it open",
        StoreFault::Damaged =>
            "what is in it was never saved there: take the stores of all nodes back from one backup",
        StoreFault::Incarnations => "the node has begun its last incarnation, 9999",
        StoreFault::Memory => "there was not enough memory",
    }
}

impl fmt::Display for StoresFault {
    fn fmt<W: fmt::Write>(&self, f: &mut fmt::Formatter<W>) -> fmt::Result {
        match self {
            StoresFault::Store(number, fault) => {
                let text = store_text(*fault);
                write!(f, "the store of node {number}: {text}")
            }
            StoresFault::Shared(one, other, path) => {
                write!(f, "node {one} and node {other} have one store: {path}")
            }
            StoresFault::Stores(refusal) => write!(f, "{refusal}"),
            StoresFault::Random => f.write_str("the system gave no random octets"),
            StoresFault::Unopened(number, path, Some(error)) => {
                write!(
                    f,
                    "the store of node {number}, {path}, can't be opened: {error}"
                )
            }
            StoresFault::Unopened(number, path, None) => write!(
                f,
                "the store of node {number}, {path}, can't be opened: another process has it open, another program wrote it, or no file can be made beside it"
            ),
            StoresFault::Memory => f.write_str("there was not enough memory"),
        }
    }
}
