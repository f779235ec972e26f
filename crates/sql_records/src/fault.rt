//! Why no incarnation begins.

use record_rows::Fault;

/// Why no incarnation begins.
#[derive(Clone, Copy, Debug, PartialEq, Eq)]
pub enum NextFault {
    /// What is stored is no incarnation.
    Damaged,
    /// All 9,999 were used.
    Incarnations,
    /// There was no memory, or the connection answered a fault.
    Failed(Fault),
}
