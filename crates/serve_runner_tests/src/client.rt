//! Clients of the tests, by lines.

use crate::home::Addresses;
use crate::same::assert_same;
use std::alloc::Global;
use std::io::{Read, Write};
use std::net::{Net, SocketAddr, TcpListener, TcpStream};
use std::process::Abort;
use std::rt::Clock;
use std::thread;
use std::time::Duration;

/// How often a client tries to connect, and how long it waits before it tries again, in milliseconds.
const TRIES: u32 = 400;

const PAUSE: u64 = 50;

/// How many seconds it waits for an octet at most.
const PATIENCE: u64 = 60;

/// The connections of the clients, and where the nodes listen.
#[derive(Drop)]
pub struct Clients {
    addresses: Addresses,
    first: Option<TcpStream>,
    second: Option<TcpStream>,
    third: Option<TcpStream>,
}

/// A connection to a server that may still be beginning.
fn connected<R: Abort + Clock + Net<Listener = TcpListener, Stream = TcpStream>>(
    rt: &R,
    address: SocketAddr,
) -> TcpStream {
    for _ in 0..TRIES {
        if let Ok(stream) = TcpStream::connect(rt, address) {
            stream
                .set_read_timeout(Some(Duration::from_secs(PATIENCE)))
                .expect(rt, "a timeout");
            return stream;
        }
        thread::sleep(rt, Duration::from_millis(PAUSE));
    }
    panic!(rt; "it listens");
}

/// Whether the digits of octets are these, where a point stands for any digit.
fn fits(found: &[u8], wanted: &[u8]) -> bool {
    found.len() == wanted.len()
        && found
            .iter()
            .zip(wanted)
            .all(|(one, other)| *other == b'.' || one == other)
}

/// So many octets of a stream, in digits; fewer, if it ends before or says nothing for too long.
fn heard(rt: &impl Abort, alloc: Global, stream: &mut TcpStream, count: usize) -> String {
    let mut octets = Vec::new(alloc);
    for _ in 0..count {
        let mut octet = [0u8; 1];
        let Ok(1) = stream.read(&mut octet) else {
            break;
        };
        octets.push(octet[0]).expect(rt, "memory");
    }
    hex::encode(alloc, octets).expect(rt, "memory")
}

impl Clients {
    /// Clients of nodes that listen here, none of which has connected.
    pub fn of(addresses: Addresses) -> Clients {
        Clients {
            addresses,
            first: None,
            second: None,
            third: None,
        }
    }

    /// Does what a line says.
    pub fn play<R: Abort + Clock + Net<Listener = TcpListener, Stream = TcpStream>>(
        &mut self,
        rt: &R,
        alloc: Global,
        line: &str,
    ) {
        let (word, rest) = line.split_once(' ').unwrap_or((line, ""));
        let (what, digits) = rest.split_once(' ').unwrap_or((rest, ""));
        match (word, what) {
            ("#", _) => {}
            ("wait", seconds) => {
                let seconds = seconds.parse().ok().expect(rt, "seconds");
                thread::sleep(rt, Duration::from_secs(seconds));
            }
            (_, "at") => {
                let [first, second] = self.addresses;
                let address = if digits == "1" { first } else { second };
                *self.stream(word) = Some(connected(rt, address));
            }
            (_, "gone") => *self.stream(word) = None,
            (_, _) => talk(rt, alloc, self.stream(word), line, (what, digits)),
        }
    }

    /// The connection of the client of this number.
    fn stream(&mut self, number: &str) -> &mut Option<TcpStream> {
        match number {
            "1" => &mut self.first,
            "2" => &mut self.second,
            _ => &mut self.third,
        }
    }
}

/// A client writes octets, or hears just these.
fn talk(
    rt: &impl Abort,
    alloc: Global,
    stream: &mut Option<TcpStream>,
    line: &str,
    (what, digits): (&str, &str),
) {
    let Some(stream) = stream else {
        panic!(rt; "a connection");
    };
    if what == ">" {
        let octets = hex::decode(alloc, digits).expect(rt, "digits");
        stream.write_all(&octets).expect(rt, "a write");
        return;
    }
    let found = heard(rt, alloc, stream, digits.len() / 2);
    if !fits(found.as_bytes(), digits.as_bytes()) {
        assert_same(rt, &(line, found.as_str()), &(line, digits));
    }
}
