//! For whom it is noted until when messages sleep.

ghost use Rattle.std.specs.Prelude.{◌≡◌, ◌↔◌, IsTrue};
ghost use Rattle.node_parts.specs.Sleeping.{IsNoted};

use crate::reach::are_same;
use fate_chain::Author;
use pdu_codec::SystemId;

/// The node, in its incarnation, the accounts of which a session may receive, and whether an attempt may begin of all messages or of none, for which it
/// is noted until when messages sleep.
#[derive(Drop)]
pub(crate) struct Noted {
    pub me: Author,
    pub up: Vec<SystemId>,
    pub tries: bool,
}

/// Whether it is noted for this author and these accounts, and for attempts that may begin or not. It takes no memory.
pub(crate) fn is_noted(noted: &Option<Noted>, me: &Author, up: &[SystemId], tries: bool) -> bool
    ensures { IsTrue result ↔ IsNoted noted.now me.now up.now tries }
{
    match noted {
        Some(noted) => noted.me == *me && noted.tries == tries && are_same(&noted.up, up),
        None => false,
    }
}
