//! The way of a delivery to its ESME.

ghost use Rattle.std.specs.Prelude.{◌≡◌, false};

use crate::berth::Berth;
use crate::connection::Connection;
use connection_parts::{Frame, Job};
use pdu_codec::Pdu;
use std::alloc::Global;
use std::sync::Wait;
use worker_parts::Gate;

/// The way of one delivery to its ESME: over the connection on which it has its place.
#[derive(Drop)]
pub struct BerthGate<'a> {
    alloc: Global,
    connection: &'a Connection,
    berth: &'a Berth,
    job: Job,
    // Whether the deliver_sm was to go out, and was not taken back.
    is_sent: bool,
}

impl<'a> BerthGate<'a> {
    /// That of a delivery over a connection, whose worker has this place there. Nothing went out yet.
    pub fn over(
        alloc: Global,
        connection: &'a Connection,
        berth: &'a Berth,
        job: Job,
    ) -> BerthGate<'a>
        ensures job { result.job ≡ job }
        ensures sent { result.is_sent ≡ false }
    {
        BerthGate {
            alloc,
            connection,
            berth,
            job,
            is_sent: false,
        }
    }

    /// Whether the deliver_sm was to go out, and was not taken back.
    pub fn has_sent(&self) -> bool
        ensures { result ≡ self.now.is_sent }
    {
        self.is_sent
    }
}

impl<R: Wait> Gate<R> for BerthGate<'_> {
    ghost use Rattle.std.specs.Prelude.{IfSome};
    ghost use Rattle.esme_service.specs.Coming.{HasCome};

    /// What it answers has come from an ESME.
    ghost answers = { λ gate account octets answer after. IfSome answer HasCome };

    fn deliver(&mut self, rt: &R, _account: &[u8], octets: &[u8]) -> Option<Pdu> {
        let frame = Frame::of_attempt(self.alloc, &self.job, octets).ok()??;
        if !self.berth.send(rt) {
            drop(frame);
            return None;
        }
        self.connection.post(rt, frame);
        let sequence = self.job.pushed.sequence();
        let answer = self.berth.answered(rt);
        // What is not answered fails the attempt: its deliver_sm must not go out behind that.
        self.is_sent = answer.is_some() || !self.connection.take_back(rt, sequence);
        Some(answer?.into_pdu())
    }
}
