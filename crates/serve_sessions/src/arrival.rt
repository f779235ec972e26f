//! A connection that has a session.

use crate::connection::Connection;
use std::sync::Arc;

/// A connection, and the number of its session.
#[derive(Drop)]
pub struct Arrival {
    pub connection: Arc<Connection>,
    pub number: u8,
}
