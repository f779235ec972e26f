//! What a tick is told of one message.

/// Whether a session of the target of a message may receive, and whether an attempt of the message may begin.
#[derive(Clone, Copy, Debug, PartialEq, Eq)]
pub struct Reached {
    /// Whether a session of the target may receive: if none may, an attempt that was not granted is given up.
    pub up: bool,
    /// Whether an attempt may begin, once it is due.
    pub begins: bool,
}
