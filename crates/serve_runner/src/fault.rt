//! Why a server does not serve, or no longer.

use cluster_stores::StoresFault;
use config::{ConfigFault, OwnFault};
use server::Ending;
use std::alloc::{AllocError, AllocFailed};
use std::net::SocketAddrV4;
use std::{fmt, io};

/// Why a server does not serve, or no longer.
#[derive(Drop)]
pub enum ServeFault {
    /// `/dev/null` can't be opened.
    Nothing,
    /// The file of the configuration can't be read, for this reason of the system.
    File(String, io::Error),
    /// What stands in it is no TOML: where, and why.
    NotToml(String),
    /// What stands in it is no configuration.
    Config(ConfigFault),
    /// What stands in its table `own` is none.
    Own(OwnFault),
    /// The stores of its nodes are not served, for this reason.
    Stores(StoresFault),
    /// A node can't listen here, for this reason of the system.
    Listen(SocketAddrV4, io::Error),
    /// The server can't tell of itself here, for this reason of the system.
    Status(SocketAddrV4, io::Error),
    /// There was no memory to begin.
    Memory,
    /// It ended, for this reason, which is not that it was asked to.
    Ended(Ending),
    /// Its journal could not be closed.
    Journal,
}

impl From<AllocError> for ServeFault {
    fn from(_error: AllocError) -> ServeFault {
        ServeFault::Memory
    }
}

impl<T: Drop> From<AllocFailed<T>> for ServeFault {
    fn from(_error: AllocFailed<T>) -> ServeFault {
        ServeFault::Memory
    }
}

impl From<StoresFault> for ServeFault {
    fn from(fault: StoresFault) -> ServeFault {
        ServeFault::Stores(fault)
    }
}

impl fmt::Display for ServeFault {
    fn fmt<W: fmt::Write>(&self, f: &mut fmt::Formatter<W>) -> fmt::Result {
        match self {
            ServeFault::Nothing => f.write_str("/dev/null can't be opened"),
            ServeFault::File(path, error) => write!(f, "the file {path} can't be read: {error}"),
            ServeFault::NotToml(text) => write!(f, "the configuration: no TOML: {text}"),
            ServeFault::Config(fault) => write!(f, "the configuration: {fault}"),
            ServeFault::Own(fault) => write!(f, "the configuration: {fault}"),
            ServeFault::Stores(fault) => write!(f, "{fault}"),
            ServeFault::Listen(address, error) => {
                write!(f, "no node can listen on {address}: {error}")
            }
            ServeFault::Status(address, error) => {
                write!(f, "the status can't be served on {address}: {error}")
            }
            ServeFault::Memory => f.write_str("there was not enough memory"),
            ServeFault::Ended(Ending::Asked) => f.write_str("it was asked to end"),
            ServeFault::Ended(Ending::Full) => {
                f.write_str("the journal is full: start it again, over the same stores")
            }
            ServeFault::Ended(Ending::Lost(node)) => {
                let number = node.number();
                write!(f, "node {number} can't be started anew: its store failed")
            }
            ServeFault::Ended(Ending::Spent(node)) => {
                let number = node.number();
                write!(
                    f,
                    "node {number} can't be started anew: no incarnation is left"
                )
            }
            ServeFault::Ended(Ending::Threads) => {
                f.write_str("a thread can't be started, or there was not enough memory for one")
            }
            ServeFault::Ended(Ending::NoPart) => {
                f.write_str("there was not enough memory to begin the next part of the journal")
            }
            ServeFault::Journal => f.write_str("the journal can't be closed"),
        }
    }
}
