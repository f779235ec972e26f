//! Clients of the tests.

use crate::crowd::crowded;
use std::alloc::Global;
use std::io::{Read, Write};
use std::net::{Net, SocketAddr, TcpListener, TcpStream};
use std::process::Abort;
use std::rt::Clock;
use std::thread;
use std::time::Duration;

/// How long a steady client waits between two messages, in milliseconds: so few come in a second that a node starts anew before its message_ids are over.
const PAUSE: u64 = 150;

/// What a client does.
#[derive(Clone, Copy, Debug, PartialEq, Eq)]
pub enum Client {
    /// It binds, and submits a message.
    Plain,
    /// It binds, and submits twice, the first in vain.
    Stubborn,
    /// It binds as a transmitter, and submits so many messages, 150 milliseconds apart.
    Steady(u32),
    /// It binds as a transmitter, and submits ten messages at once, until the node has started anew; then it asks for each that was accepted.
    Crowd,
    /// It binds, and asks what the server tells of itself, while another connection of its own says nothing there.
    Asking,
}

/// Where a server listens: its node, and where it tells of itself.
#[derive(Clone, Copy, Debug)]
pub struct Addresses {
    pub node: SocketAddr,
    pub status: SocketAddr,
}

impl Client {
    /// What it hears: all, or what comes after each submit_sm, or the answer to each question.
    pub fn heard<R: Abort + Clock + Net<Listener = TcpListener, Stream = TcpStream>>(
        self,
        rt: &R,
        alloc: Global,
        addresses: Addresses,
    ) -> Vec<Vec<u8>> {
        let address = addresses.node;
        match self {
            Client::Plain => talked(rt, alloc, address, &PLAIN),
            Client::Stubborn => talked(rt, alloc, address, &STUBBORN),
            Client::Steady(count) => submitted(rt, alloc, address, count),
            Client::Crowd => crowded(rt, alloc, address),
            Client::Asking => asked(rt, alloc, addresses),
        }
    }
}

/// What a client writes, and how many octets it reads before it writes the next.
type Turn = (&'static [u8], usize);

/// bind_transceiver of sme1 with the password pw1, interface_version 0x34 and the sequence_number 1.
pub const BIND: &[u8] = b"\0\0\0\x1e\0\0\0\x09\0\0\0\0\0\0\0\x01sme1\0pw1\0\0\x34\0\0\0";

/// Its answer: ESME_ROK, CENTRE, and the version 0x34 of the centre.
pub const BOUND: &[u8] = b"\0\0\0\x1c\x80\0\0\x09\0\0\0\0\0\0\0\x01CENTRE\0\x02\x10\0\x01\x34";

/// bind_transmitter of the same, whose answer is as long.
pub const BIND_TRANSMITTER: &[u8] =
    b"\0\0\0\x1e\0\0\0\x02\0\0\0\0\0\0\0\x01sme1\0pw1\0\0\x34\0\0\0";

/// The command and its status behind which a sequence_number stands in a submit_sm, and what stands behind that: from 144 to 155, the text Hi.
const BEFORE: &[u8] = b"\0\0\0\x29\0\0\0\x04\0\0\0\0";

const BEHIND: &[u8] = b"\0\x01\x01144\0\x01\x01155\0\0\0\0\0\0\0\0\0\0\x02Hi";

/// submit_sm from 144 to 155 with the text Hi and the sequence_number 2.
const SUBMIT: &[u8] =
    b"\0\0\0\x29\0\0\0\x04\0\0\0\0\0\0\0\x02\0\x01\x01144\0\x01\x01155\0\0\0\0\0\0\0\0\0\0\x02Hi";

/// Its answer: ESME_ROK, and the message_id 1000100001: of the first incarnation of node 1.
pub const TAKEN: &[u8] = b"\0\0\0\x1b\x80\0\0\x04\0\0\0\0\0\0\0\x021000100001\0";

/// The answer to it if the node starts anew meanwhile: ESME_RSYSERR.
pub const REFUSED: &[u8] = b"\0\0\0\x10\x80\0\0\x04\0\0\0\x08\0\0\0\x02";

/// The same submit_sm with the sequence_number 3.
const SUBMIT_AGAIN: &[u8] =
    b"\0\0\0\x29\0\0\0\x04\0\0\0\0\0\0\0\x03\0\x01\x01144\0\x01\x01155\0\0\0\0\0\0\0\0\0\0\x02Hi";

/// Its answer: ESME_ROK, and the message_id 1000200001: of the second incarnation.
pub const TAKEN_ANEW: &[u8] = b"\0\0\0\x1b\x80\0\0\x04\0\0\0\0\0\0\0\x031000200001\0";

/// What a client does that binds and submits a message.
const PLAIN: [Turn; 2] = [(BIND, BOUND.len()), (SUBMIT, TAKEN.len())];

/// What one does that submits twice, the first in vain.
const STUBBORN: [Turn; 3] = [
    (BIND, BOUND.len()),
    (SUBMIT, REFUSED.len()),
    (SUBMIT_AGAIN, TAKEN_ANEW.len()),
];

/// A submit_sm with this sequence_number.
pub fn submit_sm(rt: &impl Abort, alloc: Global, sequence: u32) -> Vec<u8> {
    [BEFORE, &sequence.to_be_bytes(), BEHIND]
        .concat(alloc)
        .expect(rt, "memory")
}

/// What a client hears after each of so many submit_sm.
fn submitted<R: Abort + Clock + Net<Listener = TcpListener, Stream = TcpStream>>(
    rt: &R,
    alloc: Global,
    address: SocketAddr,
    count: u32,
) -> Vec<Vec<u8>> {
    let mut stream = TcpStream::connect(rt, address).expect(rt, "a connection");
    let mut heard = Vec::new(alloc);
    stream.write_all(BIND_TRANSMITTER).expect(rt, "a write");
    let mut bound = Vec::new(alloc);
    let _ = read_on(rt, &mut stream, &mut bound, BOUND.len());
    for place in 0..count {
        let submit = submit_sm(rt, alloc, place.saturating_add(2));
        stream.write_all(&submit).expect(rt, "a write");
        let mut answer = Vec::new(alloc);
        let _ = read_on(rt, &mut stream, &mut answer, TAKEN.len());
        heard.push(answer).expect(rt, "memory");
        thread::sleep(rt, Duration::from_millis(PAUSE));
    }
    heard
}

/// What is asked whether the server serves.
const READY: &[u8] = b"GET /ready HTTP/1.1\r\nHost: localhost\r\n\r\n";

/// What is asked for the metrics.
const METRICS: &[u8] = b"GET /metrics HTTP/1.1\r\nHost: localhost\r\n\r\n";

/// More octets than an answer has.
const MOST_OCTETS: usize = 100_000;

/// A line of the metrics of a node with one session, which is bound as transceiver.
pub const ONE_BOUND: &[u8] = b"\ntomveul_node_sessions_transceiver{node=\"1\"} 1\n";

/// How often is asked, 100 milliseconds apart, before a session is not told of.
const MOST_QUESTIONS: u32 = 50;

/// Whether the server serves, and the metrics once they tell of the session of the client.
fn asked<R: Abort + Clock + Net<Listener = TcpListener, Stream = TcpStream>>(
    rt: &R,
    alloc: Global,
    addresses: Addresses,
) -> Vec<Vec<u8>> {
    let silent = TcpStream::connect(rt, addresses.status).expect(rt, "a connection");
    let mut stream = TcpStream::connect(rt, addresses.node).expect(rt, "a connection");
    stream.write_all(BIND).expect(rt, "a write");
    let mut bound = Vec::new(alloc);
    let _ = read_on(rt, &mut stream, &mut bound, BOUND.len());
    let mut heard = Vec::new(alloc);
    let ready = answer_to(rt, alloc, addresses.status, READY);
    heard.push(ready).expect(rt, "memory");
    for _ in 0..MOST_QUESTIONS {
        let metrics = answer_to(rt, alloc, addresses.status, METRICS);
        let is_told = has(&metrics, ONE_BOUND);
        heard.push(metrics).expect(rt, "memory");
        if is_told {
            break;
        }
        thread::sleep(rt, Duration::from_millis(100));
    }
    drop(silent);
    heard
}

/// Whether octets have these in them.
pub fn has(octets: &[u8], piece: &[u8]) -> bool {
    (0..octets.len()).any(|place| octets[place..].starts_with(piece))
}

/// What is answered to a question, up to the end of the connection.
fn answer_to<R: Abort + Net<Listener = TcpListener, Stream = TcpStream>>(
    rt: &R,
    alloc: Global,
    address: SocketAddr,
    question: &[u8],
) -> Vec<u8> {
    let mut stream = TcpStream::connect(rt, address).expect(rt, "a connection");
    stream.write_all(question).expect(rt, "a write");
    let mut answer = Vec::new(alloc);
    let _ = read_on(rt, &mut stream, &mut answer, MOST_OCTETS);
    answer
}

/// All that a client hears that takes these turns.
fn talked<R: Abort + Net<Listener = TcpListener, Stream = TcpStream>>(
    rt: &R,
    alloc: Global,
    address: SocketAddr,
    turns: &[Turn],
) -> Vec<Vec<u8>> {
    let mut heard = Vec::new(alloc);
    let octets = talked_once(rt, alloc, address, turns);
    heard.push(octets).expect(rt, "memory");
    heard
}

/// The octets that a client reads that takes these turns, up to the end of its connection, if that comes first. It closes the connection then.
fn talked_once<R: Abort + Net<Listener = TcpListener, Stream = TcpStream>>(
    rt: &R,
    alloc: Global,
    address: SocketAddr,
    turns: &[Turn],
) -> Vec<u8> {
    let mut stream = TcpStream::connect(rt, address).expect(rt, "a connection");
    let mut heard = Vec::new(alloc);
    for (written, count) in turns {
        stream.write_all(written).expect(rt, "a write");
        if !read_on(rt, &mut stream, &mut heard, *count) {
            break;
        }
    }
    heard
}

/// Reads so many octets more: whether all of them came.
pub fn read_on(rt: &impl Abort, stream: &mut TcpStream, heard: &mut Vec<u8>, count: usize) -> bool {
    for _ in 0..count {
        let mut octet = [0u8; 1];
        match stream.read(&mut octet) {
            Ok(1) => heard.push(octet[0]).expect(rt, "memory"),
            _ => return false,
        }
    }
    true
}
