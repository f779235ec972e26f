//! What may be wrong with octets.

use thiserror::Error;

/// What is wrong with the octets at the place of a field.
#[derive(Clone, Copy, Debug, PartialEq, Eq, Error)]
pub enum Defect {
    /// They end before the field does.
    #[error("the octets end before the field does")]
    Cut,
    /// Fewer octets follow than the number in front of them says.
    #[error("fewer octets follow than the number in front of them says")]
    Few,
    /// The octets of the field are more than may be.
    #[error("the octets of the field are more than may be")]
    Long,
    /// The number or the octets are none that the field may have: they do not pass its test.
    #[error("the number or the octets are none that the field may have")]
    Unfit,
    /// Octets follow the last field.
    #[error("octets follow the last field")]
    Extra,
}
