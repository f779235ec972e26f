//! Where what is put for sessions goes.

ghost use Rattle.std.specs.Prelude.{◌≡◌, ◌++◌, ℕ, List, [], ◌∷◌, OnErr, OnOk};
ghost use Rattle.sessions.specs.Responses.{pdu_of};
ghost use Rattle.esme_service.specs.Sendings.{number_of};
ghost use Rattle.script_text.specs.Prints.{AtOnce, Gone, Print};
ghost use Rattle.esme_site.specs.Puts.{ArePrintsOf};

use esme_service::Sending;
use pdu_codec::SystemId;
use sessions::Outgoing;
use std::alloc::AllocError;

/// Where what is put for the sessions of a node goes: a text, or connections.
pub trait Outlet {
    /// Between two states this was put, the oldest first, and the sessions of these numbers were lost.
    ghost puts: { Self → List Print → List ℕ → Self → Type 0 };

    /// Puts the PDU of what goes out on the session of its number, if it has one. An `Err` is want of memory; then nothing is put.
    fn put(&mut self, sending: &Sending) -> Result<(), AllocError>
        ensures put { OnOk result ((prints : List Print) → ArePrintsOf sending.now prints → puts self.old prints [] self.new) }
        ensures err { OnErr result (puts self.old [] [] self.new) };

    /// Puts the response to a PDU of the session of a number; the centre has this system_id. An `Err` is want of memory; then nothing is put.
    fn respond(
        &mut self,
        system_id: &SystemId,
        number: u8,
        outgoing: Outgoing,
    ) -> Result<(), AllocError>
        ensures put { OnOk result (puts self.old (AtOnce number (pdu_of system_id.now outgoing) ∷ []) [] self.new) }
        ensures err { OnErr result (puts self.old [] [] self.new) };

    /// Puts that the session of a number is gone. An `Err` is want of memory; then nothing is put.
    fn end(&mut self, number: u8) -> Result<(), AllocError>
        ensures put { OnOk result (puts self.old (Gone number ∷ []) [] self.new) }
        ensures err { OnErr result (puts self.old [] [] self.new) };

    /// There is no memory for what the session of a number is to get: it is lost.
    fn lose(&mut self, number: u8)
        ensures { puts self.old [] (number ∷ []) self.new };

    /// Nothing was put yet.
    ghost rests: { (at : Self) → puts at [] [] at };

    /// What was put first, and then.
    ghost follows: { (before between after : Self) (first last : List Print) (lost more : List ℕ) → puts before first lost between → puts between last more after
        → puts before (first ++ last) (lost ++ more) after };
}

/// Puts what goes out. An `Err` is want of memory; then its session is lost.
pub(crate) fn put_or_lose<O: Outlet>(outlet: &mut O, sending: &Sending) -> Result<(), AllocError>
    ensures put { OnOk result ((prints : List Print) → ArePrintsOf sending.now prints → O.puts outlet.old prints [] outlet.new) }
    ensures err { OnErr result (O.puts outlet.old [] (number_of sending.now ∷ []) outlet.new) }
{
    match outlet.put(sending) {
        Ok(()) => Ok(()),
        Err(fault) => {
            outlet.lose(sending.number());
            Err(fault)
        }
    }
}
