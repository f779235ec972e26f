//! What a PDU has, as octets that can be compared as one: its command, its status and its sequence_number, and the fields of its body in
//! the order of the standard, each behind a bar. Optional parameters are one field.

use crate::cases::assert_same;
use pdu_codec::{
    Address, Bind, BindAnswer, Body, Cancel, Message, Pdu, Query, QueryAnswer, decode, encode,
};
use std::alloc::Global;
use std::process::Abort;

fn put(rt: &impl Abort, told: &mut Vec<u8>, fields: &[&[u8]]) {
    for field in fields {
        told.push(b'|').expect(rt, "memory");
        told.extend_from_slice(field).expect(rt, "memory");
    }
}

/// Each octet as a field.
fn put_each(rt: &impl Abort, told: &mut Vec<u8>, octets: &[u8]) {
    for octet in octets {
        put(rt, told, &[&[*octet]]);
    }
}

fn put_address(rt: &impl Abort, told: &mut Vec<u8>, address: &Address) {
    put_each(rt, told, &[address.ton, address.npi]);
    put(rt, told, &[address.digits.octets()]);
}

fn put_bind(rt: &impl Abort, told: &mut Vec<u8>, bind: &Bind) {
    let texts = [
        bind.system_id.octets(),
        bind.password.octets(),
        bind.system_type.octets(),
    ];
    put(rt, told, &texts);
    put_each(
        rt,
        told,
        &[bind.interface_version, bind.addr_ton, bind.addr_npi],
    );
    put(rt, told, &[bind.address_range.octets()]);
}

fn put_bind_answer(rt: &impl Abort, told: &mut Vec<u8>, answer: &BindAnswer) {
    put(rt, told, &[answer.system_id.octets(), answer.tlvs.octets()]);
}

/// The fields of a message between its addresses and its text.
fn put_handling(rt: &impl Abort, told: &mut Vec<u8>, message: &Message) {
    let before = [
        message.esm_class,
        message.protocol_id,
        message.priority_flag,
    ];
    let times = [
        message.schedule_delivery_time.octets(),
        message.validity_period.octets(),
    ];
    let behind = [
        message.registered_delivery,
        message.replace_if_present_flag,
        message.data_coding,
        message.sm_default_msg_id,
    ];
    put_each(rt, told, &before);
    put(rt, told, &times);
    put_each(rt, told, &behind);
}

fn put_message(rt: &impl Abort, told: &mut Vec<u8>, message: &Message) {
    put(rt, told, &[message.service_type.octets()]);
    put_address(rt, told, &message.source);
    put_address(rt, told, &message.destination);
    put_handling(rt, told, message);
    put(
        rt,
        told,
        &[message.short_message.octets(), message.tlvs.octets()],
    );
}

fn put_query(rt: &impl Abort, told: &mut Vec<u8>, query: &Query) {
    put(rt, told, &[query.message_id.octets()]);
    put_address(rt, told, &query.source);
}

fn put_query_answer(rt: &impl Abort, told: &mut Vec<u8>, answer: &QueryAnswer) {
    put(
        rt,
        told,
        &[answer.message_id.octets(), answer.final_date.octets()],
    );
    put_each(rt, told, &[answer.message_state, answer.error_code]);
}

fn put_cancel(rt: &impl Abort, told: &mut Vec<u8>, cancel: &Cancel) {
    put(
        rt,
        told,
        &[cancel.service_type.octets(), cancel.message_id.octets()],
    );
    put_address(rt, told, &cancel.source);
    put_address(rt, told, &cancel.destination);
}

fn put_body(rt: &impl Abort, told: &mut Vec<u8>, body: &Body) {
    match body {
        Body::BindReceiver(bind) | Body::BindTransmitter(bind) | Body::BindTransceiver(bind) => {
            put_bind(rt, told, bind)
        }
        Body::BindReceiverResp(Some(answer))
        | Body::BindTransmitterResp(Some(answer))
        | Body::BindTransceiverResp(Some(answer)) => put_bind_answer(rt, told, answer),
        Body::SubmitSm(message) | Body::DeliverSm(message) => put_message(rt, told, message),
        Body::SubmitSmResp(Some(id)) | Body::DeliverSmResp(Some(id)) => {
            put(rt, told, &[id.octets()])
        }
        Body::QuerySm(query) => put_query(rt, told, query),
        Body::QuerySmResp(Some(answer)) => put_query_answer(rt, told, answer),
        Body::CancelSm(cancel) => put_cancel(rt, told, cancel),
        _ => {}
    }
}

fn command(body: &Body) -> &'static [u8] {
    match body {
        Body::BindReceiver(_) => b"bind_receiver",
        Body::BindReceiverResp(_) => b"bind_receiver_resp",
        Body::BindTransmitter(_) => b"bind_transmitter",
        Body::BindTransmitterResp(_) => b"bind_transmitter_resp",
        Body::BindTransceiver(_) => b"bind_transceiver",
        Body::BindTransceiverResp(_) => b"bind_transceiver_resp",
        Body::SubmitSm(_) => b"submit_sm",
        Body::SubmitSmResp(_) => b"submit_sm_resp",
        Body::DeliverSm(_) => b"deliver_sm",
        Body::DeliverSmResp(_) => b"deliver_sm_resp",
        Body::QuerySm(_) => b"query_sm",
        Body::QuerySmResp(_) => b"query_sm_resp",
        Body::CancelSm(_) => b"cancel_sm",
        Body::CancelSmResp => b"cancel_sm_resp",
        Body::Unbind => b"unbind",
        Body::UnbindResp => b"unbind_resp",
        Body::EnquireLink => b"enquire_link",
        Body::EnquireLinkResp => b"enquire_link_resp",
        Body::GenericNack => b"generic_nack",
    }
}

/// What is told of the PDU.
fn told(rt: &impl Abort, alloc: Global, pdu: &Pdu) -> Vec<u8> {
    let mut told = Vec::from_slice(alloc, command(&pdu.body)).expect(rt, "memory");
    put(
        rt,
        &mut told,
        &[&pdu.status.to_be_bytes(), &pdu.sequence.to_be_bytes()],
    );
    put_body(rt, &mut told, &pdu.body);
    told
}

/// Whether the octets are read as the PDU.
fn is_read_as(rt: &impl Abort, alloc: Global, octets: &[u8], wanted: &Pdu) -> bool {
    let pdu = decode(alloc, octets).expect(rt, "a PDU");
    let is_wanted = pdu == *wanted;
    drop(pdu);
    is_wanted
}

/// Whether the PDU is written as the octets.
pub fn is_written_as(alloc: Global, pdu: &Pdu, wanted: &[u8]) -> bool {
    let mut octets = Vec::new(alloc);
    let is_written = encode(pdu, &mut octets).is_ok() && octets.as_slice() == wanted;
    drop(octets);
    is_written
}

/// That this is told of the octets, which are read twice as the same PDU, and that it is written as they are. They are of a row of this number.
pub fn assert_said(rt: &impl Abort, alloc: Global, number: usize, octets: &[u8], wanted: &[u8]) {
    let pdu = decode(alloc, octets).expect(rt, "a PDU");
    let is_read = is_read_as(rt, alloc, octets, &pdu);
    let is_written = is_written_as(alloc, &pdu, octets);
    let told = told(rt, alloc, &pdu);
    drop(pdu);
    let found = (number, told.as_slice(), is_read, is_written);
    assert_same(rt, &found, &(number, wanted, true, true));
}
