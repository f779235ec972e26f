//! Bodies of PDUs, read to their last octet. Memory is taken once the whole body is found to be one.

ghost use Rattle.std.specs.Prelude.{option_map};
ghost use Rattle.pdu_fields.specs.Grammar.{contents_at, bind_answer_parts, message_id_parts, query_parts, query_answer_parts};
ghost use Rattle.pdu_bodies.specs.Contents.{bind_answer_contents, message_id_contents, query_contents, query_answer_contents};
ghost use Rattle.pdu_bodies.specs.Forms.{MayHave, filling_at};
ghost use Rattle.pdu_bodies.specs.Made.{IsMade};

use crate::pdu::{BindAnswer, Query, QueryAnswer};
use pdu_fields::{
    Field, MessageIdText, PduFault, Text, Tlvs, check_optional, nothing_at, octet_at, source_at,
    text_at,
};
use pdu_tables::limits;
use std::alloc::Global;

/// What the response to a bind has (sections 4.1.2, 4.1.4 and 4.1.6); none if it has no field.
pub fn bind_answer_of(alloc: Global, octets: &[u8]) -> Result<Option<BindAnswer>, PduFault>
    ensures { IsMade (option_map bind_answer_contents) result (filling_at (MayHave bind_answer_parts) octets.now) }
{
    if octets.is_empty() {
        return Ok(None);
    }
    let (system_id, tlvs) = text_at(Field::SystemId, limits::SYSTEM_ID, octets)?;
    check_optional(tlvs)?;
    Ok(Some(BindAnswer {
        system_id: Text::of(alloc, system_id)?,
        tlvs: Tlvs::of(alloc, tlvs)?,
    }))
}

/// The message_id of the response to a submit_sm or a deliver_sm (sections 4.4.2 and 4.6.2); none if the response has no field.
pub fn message_id_of(alloc: Global, octets: &[u8]) -> Result<Option<MessageIdText>, PduFault>
    ensures { IsMade (option_map message_id_contents) result (filling_at (MayHave message_id_parts) octets.now) }
{
    if octets.is_empty() {
        return Ok(None);
    }
    let (message_id, rest) = text_at(Field::MessageId, limits::MESSAGE_ID, octets)?;
    nothing_at(rest)?;
    let message_id = Text::of(alloc, message_id)?;
    Ok(Some(message_id))
}

/// What a query_sm has (section 4.8.1).
#[tactic(auto, unfolding(pdu_fields::specs::Addresses::address_at))]
pub fn query_of(alloc: Global, octets: &[u8]) -> Result<Query, PduFault>
    ensures { IsMade query_contents result (contents_at query_parts octets.now) }
{
    let (message_id, rest) = text_at(Field::MessageId, limits::MESSAGE_ID, octets)?;
    let (source, rest) = source_at(rest)?;
    nothing_at(rest)?;
    Ok(Query {
        message_id: Text::of(alloc, message_id)?,
        source: source.address(alloc)?,
    })
}

/// What the response to a query_sm has (section 4.8.2); none if it has no field.
pub fn query_answer_of(alloc: Global, octets: &[u8]) -> Result<Option<QueryAnswer>, PduFault>
    ensures { IsMade (option_map query_answer_contents) result (filling_at (MayHave query_answer_parts) octets.now) }
{
    if octets.is_empty() {
        return Ok(None);
    }
    let (message_id, rest) = text_at(Field::MessageId, limits::MESSAGE_ID, octets)?;
    let (final_date, rest) = text_at(Field::FinalDate, limits::TIME, rest)?;
    let (message_state, rest) = octet_at(Field::MessageState, rest)?;
    let (error_code, rest) = octet_at(Field::ErrorCode, rest)?;
    nothing_at(rest)?;
    Ok(Some(QueryAnswer {
        message_id: Text::of(alloc, message_id)?,
        final_date: Text::of(alloc, final_date)?,
        message_state,
        error_code,
    }))
}
