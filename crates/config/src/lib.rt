//! The configuration of a node of the centre, out of a TOML text.
#![tactic(auto)]

mod build;
mod checks;
mod config;
mod digests;
mod fault;
mod key;
mod listen;
mod own;
mod own_fault;
mod own_key;
mod place;
mod reading;
mod rows;
mod scripts;
mod values;

pub use config::{Config, NodeConfig};
pub use fault::ConfigFault;
pub use key::{Key, Part};
pub use own::{Own, read_own};
pub use own_fault::OwnFault;
pub use own_key::OwnKey;
pub use place::Place;
pub use reading::read_config;
