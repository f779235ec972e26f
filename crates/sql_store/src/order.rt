//! In which order the tables were made.

/// In which order the two tables were made.
#[derive(Clone, Copy, Debug, PartialEq, Eq)]
pub(crate) enum Order {
    LifeFirst,
    SlotsFirst,
}
