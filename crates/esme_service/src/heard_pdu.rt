//! A PDU that came.

ghost use Rattle.std.specs.Prelude.{◌≡◌};
ghost use Rattle.esme_service.specs.Coming.{HasCome};

use pdu_codec::Pdu;
use std::marker::Model;

/// A PDU that came from an ESME: only `Service::hear` makes one, of the octets of a frame that it hears. Contracts see it as the PDU.
#[derive(Drop)]
pub struct HeardPdu {
    pdu: Pdu,
}

impl Model for HeardPdu {
    ghost use Rattle.pdu_bodies.specs.declared.pdu.Pdu.{Pdu};
    ghost use Rattle.esme_service.specs.Coming.{HasCome};

    ghost Value = { Pdu };

    ghost view = { λ heard. heard.pdu };

    ghost invariant = { λ heard. HasCome heard.pdu };
}

impl HeardPdu {
    /// The PDU that some octets are.
    pub(crate) fn of(pdu: Pdu) -> HeardPdu
        requires { HasCome pdu }
        ensures { result ≡ pdu }
    {
        HeardPdu { pdu }
    }

    /// The PDU.
    pub fn pdu(&self) -> &Pdu
        ensures { result.now ≡ self.now }
    {
        &self.pdu
    }

    /// The PDU, which some octets are that came.
    pub fn into_pdu(self) -> Pdu
        ensures pdu { result ≡ self }
        ensures came { HasCome result }
    {
        self.pdu
    }
}
