//! Where in a text a key stands.

use crate::key::{Key, Part};
use std::fmt;

/// A key, and in which of the tables of its part: the first is 0, as the only one of the whole text is.
#[derive(Clone, Copy, Debug, PartialEq, Eq)]
pub struct Place {
    pub key: Key,
    pub row: usize,
}

/// The key, and behind it the number of its table, from 1, if there may be several: `account.password (account 2)`.
impl fmt::Display for Place {
    fn fmt<W: fmt::Write>(&self, f: &mut fmt::Formatter<W>) -> fmt::Result {
        write!(f, "{}", self.key)?;
        let part = match self.key.part() {
            Part::Whole => return Ok(()),
            Part::Nodes => "node",
            Part::Accounts => "account",
            Part::Routes => "route",
        };
        write!(f, " ({part} {})", self.row.saturating_add(1))
    }
}
