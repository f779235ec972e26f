//! Gates to ESMEs that tests play.

use pdu_codec::{Body, Pdu};
use std::sync::Wait;
use worker_parts::Gate;

/// How an ESME of the tests answers.
#[derive(Clone, Copy)]
pub enum Esme {
    /// Not at all.
    Silent,
    /// With this sequence_number, whatever the deliver_sm has.
    Numbered(u32),
    /// With the sequence_number of the deliver_sm.
    Ready,
}

/// A gate to such an ESME, as `sme1`. It answers ESME_ROK.
#[derive(Drop)]
pub struct PlayedGate {
    pub esme: Esme,
}

impl<R: Wait> Gate<R> for PlayedGate {
    fn deliver(&mut self, _rt: &R, account: &[u8], octets: &[u8]) -> Option<Pdu> {
        if account != b"sme1".as_slice() {
            return None;
        }
        let sequence = match self.esme {
            Esme::Silent => return None,
            Esme::Numbered(sequence) => sequence,
            Esme::Ready => sequence_in(octets)?,
        };
        Some(Pdu {
            status: 0,
            sequence,
            body: Body::DeliverSmResp(None),
        })
    }
}

/// The sequence_number in the header of a PDU (SMPP 3.4, section 3.2).
fn sequence_in(octets: &[u8]) -> Option<u32> {
    let mut sequence = 0;
    for octet in octets.get(12..16)? {
        sequence = sequence << 8 | u32::from(*octet);
    }
    Some(sequence)
}
