//! Messages of a node whose incarnation becomes known.

use crate::message::Message;
use fate_chain::Author;
use shelf::Visit;

/// Keeps each message for this node in this incarnation.
#[derive(Drop)]
pub struct Renewal {
    pub me: Author,
}

impl Visit<Message> for Renewal {
    ghost use Rattle.node_parts.specs.Renewal.{renewed};

    ghost leaves = { λ renewal message. renewed renewal.me message };

    fn visit(&self, message: &mut Message) {
        message.act_for(self.me);
    }
}
