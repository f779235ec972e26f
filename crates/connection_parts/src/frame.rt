//! A frame that is to be written.

ghost use Rattle.std.specs.Prelude.{◌≡◌, None, Some, option_map, IfOk, IfSome};
ghost use Rattle.pdu_codec.specs.Pdu.{octets_of};
ghost use Rattle.sessions.specs.Responses.{pdu_of};
ghost use Rattle.esme_service.specs.Sendings.{AreOctetsOf, number_of};
ghost use Rattle.connection_parts.specs.Fitting.{fitted_for};
ghost use Rattle.connection_parts.specs.Frames.{is_of};

use crate::fitting::without_optional;
use crate::place::Job;
use esme_service::Sending;
use pdu_codec::SystemId;
use sessions::Outgoing;
use std::alloc::{AllocError, Global};

/// The octets of a PDU that is to be written, with the number of the session on which it goes out, and, if it is the deliver_sm of an attempt, the
/// sequence_number with which that was pushed. What a service sends or pushes says on which session its frame goes out; of a response its caller says that. Each
/// frame goes out once at most, since it has no copy.
#[derive(Drop)]
pub struct Frame {
    number: u8,
    octets: Vec<u8>,
    attempt: Option<u32>,
}

impl Frame {
    /// The frame of what a service sends; none if that has no PDU. An `Err` is want of memory.
    pub fn of_sending(alloc: Global, sending: &Sending) -> Result<Option<Frame>, AllocError>
        ensures number { IfOk result (λ frame. IfSome frame (λ frame. frame.number ≡ number_of sending.now)) }
        ensures octets { IfOk result (λ frame. AreOctetsOf sending.now (option_map (λ frame. frame.octets.items) frame)) }
        ensures attempt { IfOk result (λ frame. IfSome frame (λ frame. frame.attempt ≡ None)) }
    {
        let Some(octets) = sending.octets(alloc)? else {
            return Ok(None);
        };
        Ok(Some(Frame {
            number: sending.number(),
            octets,
            attempt: None,
        }))
    }

    /// The frame of the response to a PDU of the session of a number. The centre has this system_id. An `Err` is want of memory.
    pub fn of_response(
        alloc: Global,
        system_id: &SystemId,
        number: u8,
        outgoing: Outgoing,
    ) -> Result<Frame, AllocError>
        ensures number { IfOk result (λ frame. frame.number ≡ number) }
        ensures octets { IfOk result (λ frame. frame.octets.items ≡ octets_of (pdu_of system_id.now outgoing)) }
        ensures attempt { IfOk result (λ frame. frame.attempt ≡ None) }
    {
        Ok(Frame {
            number,
            octets: outgoing.octets(alloc, system_id)?,
            attempt: None,
        })
    }

    /// The frame of a delivery, whose deliver_sm these octets are, with its optional parameters: without those if the ESME knows none (SMPP 3.4, section
    /// 5.2.4). None if it knows none and the text is one of them, or the octets are no deliver_sm. An `Err` is want of memory.
    pub fn of_attempt(alloc: Global, job: &Job, octets: &[u8]) -> Result<Option<Frame>, AllocError>
        ensures number { IfOk result (λ frame. IfSome frame (λ frame. frame.number ≡ job.now.pushed.number)) }
        ensures octets { IfOk result (λ frame. option_map (λ frame. frame.octets.items) frame
            ≡ fitted_for job.now.pushed.knows_optional job.now.long octets.now) }
        ensures attempt { IfOk result (λ frame. IfSome frame (λ frame. frame.attempt ≡ Some job.now.pushed.sequence)) }
    {
        let Some(octets) = fitted_for(alloc, job, octets)? else {
            return Ok(None);
        };
        Ok(Some(Frame {
            number: job.pushed.number(),
            octets,
            attempt: Some(job.pushed.sequence()),
        }))
    }

    /// The number of the session on which it goes out.
    pub fn number(&self) -> u8
        ensures { result ≡ self.now.number }
    {
        self.number
    }

    /// The octets.
    pub fn octets(&self) -> &[u8]
        ensures { result.now ≡ self.now.octets.items }
    {
        self.octets.as_slice()
    }

    /// The sequence_number with which its attempt was pushed; none if it is no deliver_sm of an attempt.
    pub fn attempt(&self) -> Option<u32>
        ensures { result ≡ self.now.attempt }
    {
        self.attempt
    }

    /// Whether it is the deliver_sm of the attempt that was pushed with this sequence_number.
    pub(crate) fn is_of(&self, sequence: u32) -> bool
        ensures { result ≡ is_of sequence self.now }
    {
        Some(sequence) == self.attempt
    }
}

/// The octets of a deliver_sm as the ESME of a delivery is to get them. An `Err` is want of memory.
fn fitted_for(alloc: Global, job: &Job, octets: &[u8]) -> Result<Option<Vec<u8>>, AllocError>
    ensures { IfOk result (λ made. option_map (λ vec. vec.items) made ≡ fitted_for job.now.pushed.knows_optional job.now.long octets.now) }
{
    if job.pushed.knows_optional() {
        return Ok(Some(octets.to_vec(alloc)?));
    }
    if job.long {
        return Ok(None);
    }
    without_optional(alloc, octets)
}
