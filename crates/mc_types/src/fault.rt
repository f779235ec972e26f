//! Why a value is none of these types.

/// Why there is no such value.
#[derive(Clone, Copy, Debug, PartialEq, Eq)]
pub enum TypeFault {
    /// 1: the text is not ten decimal digits.
    NotAnId,
    /// 2: a number is outside its range.
    OutOfRange,
}
