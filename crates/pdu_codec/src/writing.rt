//! From a PDU to octets: room is made once, for all of them, and each piece is written where it stands.

ghost use Rattle.std.specs.Prelude.{◌≡◌, ◌<◌, ◌≤◌, ◌+◌, ◌^◌, ◌++◌, length, vec_capacity, OnOk, OnErr};
ghost use Rattle.std.specs.Int.{w32, to_be_bytes};
ghost use Rattle.pdu_tables.specs.CommandCodes.{command_code};
ghost use Rattle.octet_fields.specs.Texts.{joined, AreOctets};
ghost use Rattle.pdu_fields.specs.Grammar.{spellings, AreWithin, bind_parts, bind_answer_parts, message_parts, message_id_parts, query_parts};
ghost use Rattle.pdu_fields.specs.Grammar.{query_answer_parts, cancel_parts};
ghost use Rattle.pdu_bodies.specs.Contents.{bind_contents, bind_answer_contents, message_contents, message_id_contents, query_contents, query_answer_contents};
ghost use Rattle.pdu_bodies.specs.Contents.{cancel_contents};
ghost use Rattle.pdu_bodies.specs.Bodies.{body_octets, BodyFits};
ghost use Rattle.pdu_codec.specs.Pdu.{framed, octets_of, Fits};

use octet_fields::{length_of, put_pieces};
use pdu_bodies::{Bind, BindAnswer, Body, Cancel, Message, Pdu, Query, QueryAnswer};
use pdu_fields::MessageIdText;
use pdu_tables::{Command, limits};
use std::alloc::AllocError;

/// The numbers of a header after command_length.
#[derive(Clone, Copy)]
struct Head {
    command: u32,
    status: u32,
    sequence: u32,
}

/// The numbers of a PDU of this command.
fn head_of(command: Command, status: u32, sequence: u32) -> Head
    ensures head { result ≡ record { command = command_code command; status = status; sequence = sequence } }
    ensures status { status < 2 ^ 32 }
    ensures sequence { sequence < 2 ^ 32 }
{
    Head {
        command: command.code(),
        status,
        sequence,
    }
}

/// A header, for which there is room.
fn put_header(out: &mut Vec<u8>, count: u32, head: Head)
    requires { length out.old.items + 16 ≤ vec_capacity out.old }
    ensures octets { out.new.items ≡ out.old.items ++ (to_be_bytes w32 count
        ++ to_be_bytes w32 head.command ++ to_be_bytes w32 head.status ++ to_be_bytes w32 head.sequence) }
    ensures room { vec_capacity out.old ≤ vec_capacity out.new }
{
    put_pieces(
        out,
        &[
            &count.to_be_bytes(),
            &head.command.to_be_bytes(),
            &head.status.to_be_bytes(),
            &head.sequence.to_be_bytes(),
        ],
    );
}

/// A header, and a body that lies in pieces.
#[tactic(auto, unfolding(crate::specs::Pdu::framed))]
fn put_framed(out: &mut Vec<u8>, head: Head, body: &[&[u8]]) -> Result<(), AllocError>
    requires { length (joined body.now) ≤ 7400 }
    ensures ok { OnOk result (out.new.items
        ≡ out.old.items ++ framed head.command head.status head.sequence (joined body.now)) }
    ensures err { OnErr result (out.new.items ≡ out.old.items) }
    ensures octets { AreOctets body.now }
{
    let count = limits::HEADER + length_of(body);
    out.reserve(count)?;
    put_header(out, count as u32, head);
    put_pieces(out, body);
    Ok(())
}

fn put_bind(out: &mut Vec<u8>, head: Head, bind: &Bind) -> Result<(), AllocError>
    ensures ok { OnOk result (out.new.items ≡ out.old.items
        ++ framed head.command head.status head.sequence (spellings bind_parts (bind_contents bind.now))) }
    ensures err { OnErr result (out.new.items ≡ out.old.items) }
    ensures limits { AreWithin bind_parts (bind_contents bind.now) }
{
    let pieces: &[&[u8]] = &[
        bind.system_id.octets(),
        &[0],
        bind.password.octets(),
        &[0],
        bind.system_type.octets(),
        &[0, bind.interface_version, bind.addr_ton, bind.addr_npi],
        bind.address_range.octets(),
        &[0],
    ];
    put_framed(out, head, pieces)
}

fn put_bind_answer(out: &mut Vec<u8>, head: Head, answer: &BindAnswer) -> Result<(), AllocError>
    ensures ok { OnOk result (out.new.items ≡ out.old.items
        ++ framed head.command head.status head.sequence (spellings bind_answer_parts (bind_answer_contents answer.now))) }
    ensures err { OnErr result (out.new.items ≡ out.old.items) }
    ensures limits { AreWithin bind_answer_parts (bind_answer_contents answer.now) }
{
    put_framed(
        out,
        head,
        &[answer.system_id.octets(), &[0], answer.tlvs.octets()],
    )
}

fn put_message(out: &mut Vec<u8>, head: Head, message: &Message) -> Result<(), AllocError>
    ensures ok { OnOk result (out.new.items ≡ out.old.items
        ++ framed head.command head.status head.sequence (spellings message_parts (message_contents message.now))) }
    ensures err { OnErr result (out.new.items ≡ out.old.items) }
    ensures limits { AreWithin message_parts (message_contents message.now) }
{
    let short_message = message.short_message.octets();
    put_framed(
        out,
        head,
        &[
            message.service_type.octets(),
            &[0, message.source.ton, message.source.npi],
            message.source.digits.octets(),
            &[0, message.destination.ton, message.destination.npi],
            message.destination.digits.octets(),
            &[
                0,
                message.esm_class,
                message.protocol_id,
                message.priority_flag,
            ],
            message.schedule_delivery_time.octets(),
            &[0],
            message.validity_period.octets(),
            &[
                0,
                message.registered_delivery,
                message.replace_if_present_flag,
                message.data_coding,
                message.sm_default_msg_id,
                short_message.len() as u8,
            ],
            short_message,
            message.tlvs.octets(),
        ],
    )
}

fn put_message_id(
    out: &mut Vec<u8>,
    head: Head,
    message_id: &MessageIdText,
) -> Result<(), AllocError>
    ensures ok { OnOk result (out.new.items ≡ out.old.items
        ++ framed head.command head.status head.sequence (spellings message_id_parts (message_id_contents message_id.now))) }
    ensures err { OnErr result (out.new.items ≡ out.old.items) }
    ensures limits { AreWithin message_id_parts (message_id_contents message_id.now) }
{
    put_framed(out, head, &[message_id.octets(), &[0]])
}

fn put_query(out: &mut Vec<u8>, head: Head, query: &Query) -> Result<(), AllocError>
    ensures ok { OnOk result (out.new.items ≡ out.old.items
        ++ framed head.command head.status head.sequence (spellings query_parts (query_contents query.now))) }
    ensures err { OnErr result (out.new.items ≡ out.old.items) }
    ensures limits { AreWithin query_parts (query_contents query.now) }
{
    put_framed(
        out,
        head,
        &[
            query.message_id.octets(),
            &[0, query.source.ton, query.source.npi],
            query.source.digits.octets(),
            &[0],
        ],
    )
}

fn put_query_answer(out: &mut Vec<u8>, head: Head, answer: &QueryAnswer) -> Result<(), AllocError>
    ensures ok { OnOk result (out.new.items ≡ out.old.items
        ++ framed head.command head.status head.sequence (spellings query_answer_parts (query_answer_contents answer.now))) }
    ensures err { OnErr result (out.new.items ≡ out.old.items) }
    ensures limits { AreWithin query_answer_parts (query_answer_contents answer.now) }
{
    put_framed(
        out,
        head,
        &[
            answer.message_id.octets(),
            &[0],
            answer.final_date.octets(),
            &[0, answer.message_state, answer.error_code],
        ],
    )
}

fn put_cancel(out: &mut Vec<u8>, head: Head, cancel: &Cancel) -> Result<(), AllocError>
    ensures ok { OnOk result (out.new.items ≡ out.old.items
        ++ framed head.command head.status head.sequence (spellings cancel_parts (cancel_contents cancel.now))) }
    ensures err { OnErr result (out.new.items ≡ out.old.items) }
    ensures limits { AreWithin cancel_parts (cancel_contents cancel.now) }
{
    put_framed(
        out,
        head,
        &[
            cancel.service_type.octets(),
            &[0],
            cancel.message_id.octets(),
            &[0, cancel.source.ton, cancel.source.npi],
            cancel.source.digits.octets(),
            &[0, cancel.destination.ton, cancel.destination.npi],
            cancel.destination.digits.octets(),
            &[0],
        ],
    )
}

/// A header, and the body.
fn put_body(out: &mut Vec<u8>, head: Head, body: &Body) -> Result<(), AllocError>
    ensures ok { OnOk result (out.new.items
        ≡ out.old.items ++ framed head.command head.status head.sequence (body_octets body.now)) }
    ensures err { OnErr result (out.new.items ≡ out.old.items) }
    ensures limits { BodyFits body.now }
{
    match body {
        Body::BindReceiver(bind) => put_bind(out, head, bind),
        Body::BindReceiverResp(Some(answer)) => put_bind_answer(out, head, answer),
        Body::BindTransmitter(bind) => put_bind(out, head, bind),
        Body::BindTransmitterResp(Some(answer)) => put_bind_answer(out, head, answer),
        Body::BindTransceiver(bind) => put_bind(out, head, bind),
        Body::BindTransceiverResp(Some(answer)) => put_bind_answer(out, head, answer),
        Body::SubmitSm(message) => put_message(out, head, message),
        Body::SubmitSmResp(Some(message_id)) => put_message_id(out, head, message_id),
        Body::DeliverSm(message) => put_message(out, head, message),
        Body::DeliverSmResp(Some(message_id)) => put_message_id(out, head, message_id),
        Body::QuerySm(query) => put_query(out, head, query),
        Body::QuerySmResp(Some(answer)) => put_query_answer(out, head, answer),
        Body::CancelSm(cancel) => put_cancel(out, head, cancel),
        Body::BindReceiverResp(None)
        | Body::BindTransmitterResp(None)
        | Body::BindTransceiverResp(None)
        | Body::SubmitSmResp(None)
        | Body::DeliverSmResp(None)
        | Body::QuerySmResp(None)
        | Body::CancelSmResp
        | Body::Unbind
        | Body::UnbindResp
        | Body::EnquireLink
        | Body::EnquireLinkResp
        | Body::GenericNack => put_framed(out, head, &[]),
    }
}

/// Appends the octets of the PDU. It makes room for them once; if there is no memory for it the vector is as it was.
#[tactic(auto, unfolding(crate::specs::Pdu::octets_of))]
pub fn encode(pdu: &Pdu, octets: &mut Vec<u8>) -> Result<(), AllocError>
    ensures ok { OnOk result (octets.new.items ≡ octets.old.items ++ octets_of pdu.now) }
    ensures err { OnErr result (octets.new.items ≡ octets.old.items) }
    // What was written is within the limits of its fields, and so is read again.
    ensures fits { OnOk result (Fits pdu.now) }
{
    let head = head_of(pdu.body.command(), pdu.status, pdu.sequence);
    put_body(octets, head, &pdu.body)
}
