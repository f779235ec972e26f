//! A client that submits many messages at once, and asks for them.

use crate::clients::{BIND_TRANSMITTER, read_on, submit_sm};
use std::alloc::Global;
use std::io::Write;
use std::net::{Net, SocketAddr, TcpListener, TcpStream};
use std::process::Abort;

/// How many messages are submitted at once: as many requests as a session may have open.
const AT_ONCE: u32 = 10;

/// How often ten are submitted, at most.
const MOST_TIMES: u32 = 500;

/// How many octets the header of a PDU has, behind which the message_id of an answer begins, and how many that has.
const HEADER: usize = 16;

const DIGITS: usize = 10;

/// The octets of a submit_sm_resp with ESME_ROK in front of its sequence_number.
const ACCEPTED: &[u8] = b"\0\0\0\x1b\x80\0\0\x04\0\0\0\0";

/// The first octets of the message_ids of the second incarnation of node 1.
const SECOND_LIFE: &[u8] = b"10002";

/// The octets of a query_sm in front of its sequence_number, and those behind its message_id: the source_addr 144.
const ASKS: &[u8] = b"\0\0\0\x21\0\0\0\x03\0\0\0\0";

const OF_144: &[u8] = b"\0\x01\x01144\0";

/// The message_id of an answer to a submit_sm; none if the message was refused.
pub fn accepted_id(answer: &[u8]) -> Option<&[u8]> {
    if !answer.starts_with(ACCEPTED) {
        return None;
    }
    answer.get(HEADER..HEADER + DIGITS)
}

/// Whether an answer accepts a message in the second incarnation of the node.
pub fn is_of_second_life(answer: &[u8]) -> bool {
    match accepted_id(answer) {
        Some(id) => id.starts_with(SECOND_LIFE),
        None => false,
    }
}

/// Reads a PDU.
fn read_pdu(rt: &impl Abort, alloc: Global, stream: &mut TcpStream) -> Vec<u8> {
    let mut pdu = Vec::new(alloc);
    assert!(rt; read_on(rt, stream, &mut pdu, HEADER));
    let length = pdu.get(3).copied().unwrap_or(0);
    let body = usize::from(length).saturating_sub(HEADER);
    assert!(rt; read_on(rt, stream, &mut pdu, body));
    pdu
}

/// Reads so many answers: whether the node has started anew.
fn read_answers(
    rt: &impl Abort,
    alloc: Global,
    stream: &mut TcpStream,
    count: u32,
    heard: &mut Vec<Vec<u8>>,
) -> bool {
    let mut is_anew = false;
    for _ in 0..count {
        let answer = read_pdu(rt, alloc, stream);
        is_anew |= is_of_second_life(&answer);
        heard.push(answer).expect(rt, "memory");
    }
    is_anew
}

/// So many submit_sm, one behind the other, of which the first has this sequence_number.
fn submissions(rt: &impl Abort, alloc: Global, count: u32, first: u32) -> Vec<u8> {
    let mut octets = Vec::new(alloc);
    for place in 0..count {
        let submit = submit_sm(rt, alloc, first.saturating_add(place));
        octets.extend_from_slice(&submit).expect(rt, "memory");
        drop(submit);
    }
    octets
}

/// Submits one message, and then ten at once, again and again, until the node has started anew: all answers.
fn submitted(rt: &impl Abort, alloc: Global, stream: &mut TcpStream) -> Vec<Vec<u8>> {
    let mut heard = Vec::new(alloc);
    let mut sequence = 2u32;
    let mut count = 1;
    for _ in 0..MOST_TIMES {
        let octets = submissions(rt, alloc, count, sequence);
        stream.write_all(&octets).expect(rt, "a write");
        drop(octets);
        if read_answers(rt, alloc, stream, count, &mut heard) {
            break;
        }
        sequence = sequence.saturating_add(count);
        count = AT_ONCE;
    }
    heard
}

/// Asks for a message with a query_sm of the sequence_number 1: the answer.
fn state_of(rt: &impl Abort, alloc: Global, stream: &mut TcpStream, id: &[u8]) -> Vec<u8> {
    let query = [ASKS, &1u32.to_be_bytes(), id, OF_144]
        .concat(alloc)
        .expect(rt, "memory");
    stream.write_all(&query).expect(rt, "a write");
    drop(query);
    read_pdu(rt, alloc, stream)
}

/// What such a client hears of its messages, and then of each that was accepted.
pub fn crowded<R: Abort + Net<Listener = TcpListener, Stream = TcpStream>>(
    rt: &R,
    alloc: Global,
    address: SocketAddr,
) -> Vec<Vec<u8>> {
    let mut stream = TcpStream::connect(rt, address).expect(rt, "a connection");
    stream.write_all(BIND_TRANSMITTER).expect(rt, "a write");
    drop(read_pdu(rt, alloc, &mut stream));
    let mut heard = submitted(rt, alloc, &mut stream);
    let mut states = Vec::new(alloc);
    for answer in &heard {
        if let Some(id) = accepted_id(answer) {
            let state = state_of(rt, alloc, &mut stream, id);
            states.push(state).expect(rt, "memory");
        }
    }
    for state in states {
        heard.push(state).expect(rt, "memory");
    }
    heard
}
