//! A delivery that is under way.

/// Where a delivery is under way: over the session with which number, and in which worker's place there.
#[derive(Clone, Copy, Debug, PartialEq, Eq)]
pub struct Carriage {
    pub number: u8,
    pub place: usize,
}
