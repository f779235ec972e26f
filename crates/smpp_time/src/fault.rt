//! Why a text names no moment.

/// Why a text names no moment. Of several faults the lowest is told.
#[derive(Clone, Copy, Debug, PartialEq, Eq)]
pub enum TimeFault {
    /// 1: it has not 16 characters, one of the first 15 is no digit, or the last is none of `+`, `-` and `R`.
    Shape,
    /// 2: a part of it is out of its range: an absolute time with no such date or time of the day, or more than 48 quarters of an
    /// hour; a relative one with tenths or quarters.
    Field,
    /// 3: the moment is not one of 2000 to 2099.
    Range,
}
