//! The way to the ESMEs.

ghost use Rattle.std.specs.Prelude.{List, Option, ℕ};
ghost use Rattle.pdu_bodies.specs.declared.pdu.Pdu.{Pdu as Answer};

use pdu_codec::Pdu;
use std::sync::Wait;

/// What carries the deliver_sm of an attempt to its ESME, and gives the ESME's answer. Nothing is promised of that: it comes from outside.
///
/// A call may wait as long as it likes: no lock of a cluster is held meanwhile.
pub trait Gate<R: Wait> {
    /// What a gate says of an answer, if it says anything: what the gate was, the account, the octets, the answer, and what the gate is then.
    /// Who hands in what a gate gave says by it that the gate gave it.
    ghost answers: { Self → List ℕ → List ℕ → Option Answer → Self → Type 0 } = { λ _ _ _ _ _. Unit {0} };

    /// Carries the octets of a whole PDU, a deliver_sm, to a session of the account with this system_id. The PDU that the ESME answered, or
    /// none if there was none: no session took it, the session ended, or the gate waited long enough.
    fn deliver(&mut self, rt: &R, account: &[u8], octets: &[u8]) -> Option<Pdu>
        ensures { answers self.old account.now octets.now result self.new };
}
