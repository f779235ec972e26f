//! Whether the bodies of requests are the same.

ghost use Rattle.std.specs.Prelude.{◌≡◌, ◌↔◌, IsTrue};

use crate::pdu::{Cancel, Message, Query};

impl Message {
    /// Whether it is the same as the other: each field is. It takes no memory.
    pub fn is(&self, other: &Message) -> bool
        ensures { IsTrue result ↔ (self.now ≡ other.now) }
    {
        self == other
    }
}

impl Query {
    /// Whether it is the same as the other: each field is. It takes no memory.
    pub fn is(&self, other: &Query) -> bool
        ensures { IsTrue result ↔ (self.now ≡ other.now) }
    {
        self == other
    }
}

impl Cancel {
    /// Whether it is the same as the other: each field is. It takes no memory.
    pub fn is(&self, other: &Cancel) -> bool
        ensures { IsTrue result ↔ (self.now ≡ other.now) }
    {
        self == other
    }
}
