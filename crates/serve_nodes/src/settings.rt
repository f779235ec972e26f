//! How a server is to be run.

use crate::stop::Stop;
use config::{Config, Own};
use std::sync::Arc;

/// How the server is to be run.
#[derive(Drop)]
pub struct Settings {
    /// Accounts, routes, and after how many sessions it ends.
    pub config: Config,
    /// Its limits.
    pub own: Own,
    /// Whether it tells nothing but what must be told.
    pub is_quiet: bool,
    /// What it is asked to end by.
    pub stop: Arc<Stop>,
}
