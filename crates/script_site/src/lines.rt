//! The lines of a node, as an outlet.

ghost use Rattle.std.specs.Prelude.{◌≡◌};
ghost use Rattle.std.proofs.Common.{refl, sym, ◌∙◌};

use crate::output::{write_gone, write_outgoing, write_sending};
use crate::session_place::SessionPlace;
use esme_service::Sending;
use esme_site::Outlet;
use mc_types::NodeNo;
use pdu_codec::SystemId;
use sessions::Outgoing;
use std::alloc::AllocError;
use std::mem;

/// The text of a script, to which a node adds its lines.
#[derive(Drop)]
pub(crate) struct Lines {
    node: NodeNo,
    text: Vec<u8>,
}

impl Lines {
    /// The lines of a node behind a text, which is taken out.
    pub(crate) fn behind(text: &mut Vec<u8>, node: NodeNo) -> Lines
        ensures node { result.node ≡ node }
        ensures text { result.text.items ≡ text.old.items }
    {
        let alloc = *text.allocator();
        Lines {
            node,
            text: mem::replace(text, Vec::new(alloc)),
        }
    }

    /// They are the text.
    pub(crate) fn put_back(self, text: &mut Vec<u8>)
        ensures { text.new.items ≡ self.text.items }
    {
        *text = self.text;
    }

    /// Where the session of a number is.
    fn place(&self, number: u8) -> SessionPlace
        ensures { result ≡ record { node = self.now.node; number = number } }
    {
        SessionPlace {
            node: self.node,
            number,
        }
    }
}

impl Outlet for Lines {
    ghost use Rattle.script_site.specs.Written.{Adds, adds_both, adds_none};

    ghost puts = { λ before prints lost after. Adds before.node before.text.items prints after.node after.text.items };

    fn put(&mut self, sending: &Sending) -> Result<(), AllocError> {
        let mut line = Vec::new(*self.text.allocator());
        write_sending(&mut line, self.node, sending)?;
        self.text.extend_from_slice(&line)
    }

    fn respond(
        &mut self,
        system_id: &SystemId,
        number: u8,
        outgoing: Outgoing,
    ) -> Result<(), AllocError> {
        let mut line = Vec::new(*self.text.allocator());
        write_outgoing(&mut line, self.place(number), system_id, outgoing)?;
        self.text.extend_from_slice(&line)
    }

    fn end(&mut self, number: u8) -> Result<(), AllocError> {
        let mut line = Vec::new(*self.text.allocator());
        write_gone(&mut line, self.place(number))?;
        self.text.extend_from_slice(&line)
    }

    /// A script stops then.
    fn lose(&mut self, _number: u8) {}

    ghost rests = { λ at. adds_none at.node at.text.items };

    ghost follows = { λ before between after first last lost more one two.
        adds_both before.node between.node after.node before.text.items between.text.items after.text.items first last one two };
}
