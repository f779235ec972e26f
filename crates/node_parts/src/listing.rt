//! A message on the list of those that are live.

ghost use Rattle.std.specs.Prelude.{◌≡◌};
ghost use Rattle.node_parts.specs.Sleeping.{is_due};

use mc_types::{Moment, MsgId};

/// A message that is live, and the moment before which a tick need not look at it, by what is noted; none if the next tick looks at it.
#[derive(Clone, Copy, Debug)]
pub(crate) struct Listing {
    pub id: MsgId,
    pub until: Option<Moment>,
}

impl Listing {
    /// Whether a tick at this clock has to look at it.
    pub fn is_due(&self, clock: Moment) -> bool
        ensures { result ≡ is_due clock self.now }
    {
        match self.until {
            Some(until) => until <= clock,
            None => true,
        }
    }
}
