//! What came of an attempt.

ghost use Rattle.std.specs.Prelude.{◌≡◌, option_map};
ghost use Rattle.mc_model.specs.node.Outcome.{decree_of};
ghost use Rattle.fate_chain.specs.Kinds.{kind_of};
ghost use Rattle.delivery.specs.Kept.{outcome_kept};
ghost use Rattle.delivery.specs.Outcomes.{failed_with, outcome_by, told_in};

use fate_chain::{ErrorCode, Final, Kind};
use pdu_codec::{Body, Pdu};
use pdu_tables::Status;
use std::marker::Model;

/// The error of an attempt that was answered with a status that is no conclusion.
const MOST_STATUS_ERROR: u16 = 900;
/// The error of an attempt that nobody answered.
const NO_ANSWER: u16 = 997;

/// Why an attempt failed, as an error: the status of its response, at most 900, or 997 if there was none.
#[derive(Clone, Copy, Debug, PartialEq, Eq)]
pub struct Failure {
    error: u16,
}

impl Model for Failure {
    ghost use Rattle.std.specs.Prelude.{◌≡◌, ◌⊎◌, ◌≤◌, ℕ};
    ghost use Rattle.mc_model.specs.node.Outcome.{most_status_error, no_answer_error};

    ghost Value = { ℕ };

    ghost view = { λ failure. failure.error };

    ghost invariant = { λ failure. (failure.error ≤ most_status_error) ⊎ (failure.error ≡ no_answer_error) };

    ghost inverse = { λ error. record { error = error } };
}

/// What came of an attempt: what the ESME answered to its deliver_sm, or that it failed.
#[derive(Clone, Copy, Debug, PartialEq, Eq)]
pub enum Outcome {
    /// `ESME_ROK`: the message is DELIVERED, without an error.
    Delivered,
    /// `ESME_RX_P_APPN`: it is UNDELIVERABLE, with the error 101.
    Undeliverable,
    /// `ESME_RX_R_APPN`: it is REJECTED, with the error 102.
    Rejected,
    /// The attempt failed, and another may follow.
    Failed(Failure),
}

impl Outcome {
    ghost use Rattle.mc_model.specs.node.Outcome.{Unanswered, no_answer_error};

    /// That of an attempt which nobody answered: it failed with the error 997.
    pub fn unanswered() -> Outcome
        ensures { outcome_kept result ≡ Unanswered no_answer_error }
    {
        Outcome::Failed(Failure { error: NO_ANSWER })
    }

    /// That of a deliver_sm_resp with this command_status.
    #[tactic(auto, unfolding(crate::specs::Outcomes::outcome_by))]
    fn by_status(status: u32) -> Outcome
        ensures { outcome_kept result ≡ outcome_by status }
    {
        match Status::of_code(status) {
            Some(Status::Ok) => Outcome::Delivered,
            Some(Status::PermanentApplicationError) => Outcome::Undeliverable,
            Some(Status::RejectedByApplication) => Outcome::Rejected,
            _ => Outcome::failed(status),
        }
    }

    /// That of an attempt which failed with this command_status.
    fn failed(status: u32) -> Outcome
        ensures { outcome_kept result ≡ failed_with status }
    {
        Outcome::Failed(Failure {
            error: status.min(u32::from(MOST_STATUS_ERROR)) as u16,
        })
    }

    /// What the decree on the attempt decides.
    pub fn kind(self) -> Kind
        ensures { kind_of result ≡ decree_of (outcome_kept self) }
    {
        match self {
            Outcome::Delivered => Kind::Fate(Final::Delivered, ErrorCode::of(0)),
            Outcome::Undeliverable => Kind::Fate(Final::Undeliverable, ErrorCode::of(101)),
            Outcome::Rejected => Kind::Fate(Final::Rejected, ErrorCode::of(102)),
            Outcome::Failed(failure) => Kind::Failed(ErrorCode::of(failure.error)),
        }
    }
}

/// What a response tells of the attempt whose deliver_sm has this sequence_number: a deliver_sm_resp by its command_status, and a
/// generic_nack that it failed, whatever its status. None for a PDU with another sequence_number, and for any other PDU. It takes no
/// memory.
pub fn outcome_of(sequence: u32, pdu: &Pdu) -> Option<Outcome>
    ensures { option_map outcome_kept result ≡ told_in sequence pdu.now }
{
    if pdu.sequence != sequence {
        return None;
    }
    match &pdu.body {
        Body::DeliverSmResp(_) => Some(Outcome::by_status(pdu.status)),
        Body::GenericNack => Some(Outcome::failed(pdu.status)),
        _ => None,
    }
}
