//! The PDU that answers a request that waited.

ghost use Rattle.std.specs.Prelude.{◌≡◌, IfOk};
ghost use Rattle.pdu_codec.specs.Pdu.{octets_of};
ghost use Rattle.esme_service.specs.Responses.{answer_pdu, final_date_of, refusal_pdu, reply_pdu};
ghost use Rattle.waiting_requests.specs.Replying.{answer_given};

use desk::{Answer, shown};
use mc_types::{Moment, MsgId};
use pdu_codec::{Body, MessageIdText, Pdu, QueryAnswer, Text, TimeText};
use pdu_tables::{State, Status};
use sessions::{OpenRequest, encoded, pdu_with};
use smpp_time::{times_fit_their_field, write_time};
use std::alloc::{AllocError, Global};
use waiting_requests::{Answer as Given, Reply};

/// The octets of the reply to a request that waited. An `Err` is want of memory.
pub(crate) fn reply_octets(
    alloc: Global,
    request: OpenRequest,
    reply: &Reply,
) -> Result<Vec<u8>, AllocError>
    ensures { IfOk result (λ octets. octets.items ≡ octets_of (reply_pdu request.requested request.sequence reply.now.id (answer_given reply.now.answer))) }
{
    let id = reply.id();
    match reply.answer() {
        Given::Accepted => answer_octets(alloc, request, id, Answer::Accepted),
        Given::Shown(chain) => answer_octets(alloc, request, id, shown(chain)),
        Given::Removed(_) => answer_octets(alloc, request, id, Answer::Removed),
        Given::Kept(_) => answer_octets(alloc, request, id, Answer::Kept),
        Given::NotOwner => answer_octets(alloc, request, id, Answer::NotOwner),
        Given::NotMatched(_) => answer_octets(alloc, request, id, Answer::NotMatched),
        Given::Unknown => answer_octets(alloc, request, id, Answer::Unknown),
        Given::TooLate => encoded(alloc, refusal(request, Status::SystemError)),
    }
}

/// The octets of what a request is told of the message of an id.
fn answer_octets(
    alloc: Global,
    request: OpenRequest,
    id: MsgId,
    answer: Answer,
) -> Result<Vec<u8>, AllocError>
    ensures { IfOk result (λ octets. octets.items ≡ octets_of (answer_pdu request.requested request.sequence id answer)) }
{
    encoded(alloc, pdu_of_answer(alloc, request, id, answer)?)
}

/// What a request is told of the message of an id.
fn pdu_of_answer(
    alloc: Global,
    request: OpenRequest,
    id: MsgId,
    answer: Answer,
) -> Result<Pdu, AllocError>
    ensures { IfOk result (λ pdu. pdu ≡ answer_pdu request.requested request.sequence id answer) }
{
    match answer {
        Answer::Accepted => {
            let text = text_of_id(alloc, id)?;
            Ok(pdu_with(Status::Ok, request.sequence, Body::SubmitSmResp(Some(text))))
        }
        Answer::Shown(state, ended, error_code) => {
            let shown = query_answer(alloc, id, state, ended, error_code)?;
            Ok(pdu_with(Status::Ok, request.sequence, Body::QuerySmResp(Some(shown))))
        }
        Answer::Removed => Ok(pdu_with(Status::Ok, request.sequence, Body::CancelSmResp)),
        Answer::NotOwner => Ok(refusal(request, Status::QueryFailed)),
        Answer::Kept | Answer::NotMatched => Ok(refusal(request, Status::CancelFailed)),
        Answer::Unknown => Ok(refusal(request, Status::InvalidMessageId)),
    }
}

/// The response that refuses a request.
fn refusal(request: OpenRequest, status: Status) -> Pdu
    ensures { result ≡ refusal_pdu request.requested request.sequence status }
{
    pdu_with(status, request.sequence, request.requested.refusal_body())
}

ghost use Rattle.std.specs.Fmt.{decimal};
ghost use Rattle.pdu_tables.specs.StateCodes.{state_code};

/// What a query_sm is told of a message (SMPP 3.4, section 4.8.2).
fn query_answer(
    alloc: Global,
    id: MsgId,
    state: State,
    ended: Option<Moment>,
    error_code: u8,
) -> Result<QueryAnswer, AllocError>
    ensures { IfOk result (λ answer.
        answer ≡ record { message_id = decimal id; final_date = final_date_of ended; message_state = state_code state; error_code = error_code }) }
{
    Ok(QueryAnswer {
        message_id: text_of_id(alloc, id)?,
        final_date: final_date(alloc, ended)?,
        message_state: state.code(),
        error_code,
    })
}

/// The digits of an id.
fn text_of_id(alloc: Global, id: MsgId) -> Result<MessageIdText, AllocError>
    ensures { IfOk result (λ text. text ≡ decimal id) }
{
    Text::of(alloc, &id.text())
}

/// The text of the moment of a final state; empty before one.
fn final_date(alloc: Global, ended: Option<Moment>) -> Result<TimeText, AllocError>
    ensures { IfOk result (λ text. text ≡ final_date_of ended) }
{
    times_fit_their_field();
    match ended {
        None => Text::of(alloc, b""),
        Some(moment) => Text::of(alloc, &write_time(moment)),
    }
}
