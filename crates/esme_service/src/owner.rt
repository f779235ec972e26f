//! Whose request it is.

ghost use Rattle.std.specs.Prelude.{◌≡◌};

use sessions::OpenRequest;

/// A request that waits for the node's answer, and the number of the session on which it came. Only `Service::reply` makes one.
#[derive(Clone, Copy, Debug, PartialEq, Eq)]
pub struct Owner {
    pub(crate) number: u8,
    pub(crate) request: OpenRequest,
}

impl Owner {
    /// The number of the session.
    pub fn number(&self) -> u8
        ensures { result ≡ self.now.number }
    {
        self.number
    }
}
