//! Where a tick stands.

ghost use Rattle.std.specs.Prelude.{◌≡◌};
ghost use Rattle.node_parts.specs.Living.{lower_of};

use mc_types::MsgId;
use node_parts::lower_of;

/// Where a tick stands that goes over the messages that are live and not noted to be asleep, and those of which requests ask, by ascending ids: all
/// messages of ids below `from` were looked at, or no rule fits them. `live` is the first other one that is live so, `asked` the first other one of
/// which a request asks.
#[derive(Clone, Copy)]
pub struct Walk {
    pub from: u64,
    pub live: Option<MsgId>,
    pub asked: Option<MsgId>,
}

impl Walk {
    /// The id of its next message; none if none is left.
    pub fn next(&self) -> Option<MsgId>
        ensures { result ≡ lower_of self.now.live self.now.asked }
    {
        lower_of(self.live, self.asked)
    }
}
