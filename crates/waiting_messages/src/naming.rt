//! By what messages are named.

ghost use Rattle.std.specs.Prelude.{◌↔◌, IsTrue};
ghost use Rattle.waiting_messages.specs.Named.{IsNameable};

use crate::queue::Queue;
use crate::spread::Spread;
use mc_types::{Moment, NodeNo};
use pdu_codec::SystemId;

/// By what messages are named: this node, its moment, and which accounts are up at each node.
#[derive(Clone, Copy)]
pub struct Naming<'a> {
    pub node: NodeNo,
    pub now: Moment,
    pub spread: &'a Spread,
}

impl Naming<'_> {
    /// Whether one of these messages goes to this account, is due, and the node begins their attempts.
    pub(crate) fn has(&self, queue: &Queue, account: &SystemId) -> bool
        ensures { IsTrue result ↔ IsNameable self.entry.now.spread.now self.entry.now.node self.entry.now.now account.now queue.now }
    {
        queue.is_for(account)
            && queue.is_due(self.now.seconds())
            && self.spread.names(self.node, queue.home(), account)
    }
}
