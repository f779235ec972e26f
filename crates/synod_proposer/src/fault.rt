//! Why a round does not start.

/// Why a round does not start.
#[derive(Clone, Copy, Debug, PartialEq, Eq)]
pub enum ProposerFault {
    /// 1: its number would pass 2^32 - 1.
    Rounds,
}
