//! Where ESMEs connect.

use crate::starting::{start_reader, start_writer};
use serve_nodes::{House, Station};
use serve_sessions::{Arrival, Connection, Notice, Reason, Wire};
use std::alloc::AllocError;
use std::io::ErrorKind;
use std::net::{SocketAddr, TcpStream};
use std::rt::Clock;
use std::sync::{Arc, Wait};
use std::thread::{Scope, Threads};
use std::time::Duration;
use std::{io, thread};

/// How many sessions a node has at most.
const MOST_SESSIONS: u32 = 99;

/// How long the thread that listens waits if a connection can't be taken, as since too many files are open, in milliseconds.
const PAUSE: u64 = 20;

/// Lets ESMEs connect to a node, until the server ends.
pub(crate) fn listen_on<'o, O, R: Threads + Wait + Eprint + Clock + Sync>(
    rt: &'o R,
    outer: &'o Scope<'o, O>,
    house: &'o House,
    station: &'o Station,
) {
    for _ in rt.forever() {
        if house.is_over(rt) {
            return;
        }
        match station.entrance.let_in() {
            Ok((stream, address)) => {
                if let Some(arrival) = admitted(rt, house, station, stream, address)
                    && start(rt, outer, house, &arrival).is_err()
                {
                    // Who serves it sees its end.
                    arrival.connection.lose(rt, Reason::NoThread);
                }
            }
            Err(error) => wait_for_more(rt, station, &error),
        }
    }
}

/// Waits until somebody connects, or the server ends, if nobody had, as this error tells; else for a moment.
fn wait_for_more<R: Wait + Clock>(rt: &R, station: &Station, error: &io::Error) {
    if error.kind() != ErrorKind::WouldBlock || station.entrance.sleep(rt).is_err() {
        thread::sleep(rt, Duration::from_millis(PAUSE));
    }
}

/// Starts the threads of a connection. An `Err` is that one can't be started.
fn start<'o, O, R: Threads + Wait + Clock + Sync>(
    rt: &'o R,
    outer: &'o Scope<'o, O>,
    house: &House,
    arrival: &Arrival,
) -> Result<(), AllocError> {
    start_writer(rt, outer, &arrival.connection)?;
    start_reader(rt, outer, house.alloc, &arrival.connection)
}

/// An ESME connected: it has a session, which its node serves. One for which there is no place or no memory is closed.
fn admitted<R: Wait + Eprint + Clock>(
    rt: &R,
    house: &House,
    station: &Station,
    stream: TcpStream,
    address: SocketAddr,
) -> Option<Arrival> {
    let wire = Wire::of(stream, address, &house.own);
    let Ok(Some(arrival)) = placed(rt, house, station, wire) else {
        let node = station.node.number();
        house.log.line(
            rt,
            format_args!("node {node}: no place for a session from {address}"),
        );
        return None;
    };
    station.news.ring();
    house.tell(rt, station.node, arrival.number, Notice::Connected(address));
    Some(arrival)
}

/// A connection over a wire, at the site of the node, and the number of its session. None if the node has as many as it may.
fn placed<R: Wait + Eprint + Clock>(
    rt: &R,
    house: &House,
    station: &Station,
    wire: Wire,
) -> Result<Option<Arrival>, AllocError> {
    if set_up(&wire).is_err() {
        return Ok(None);
    }
    let alloc = house.alloc;
    let serial = house.counters.next_connection();
    let begun = house.now(rt).seconds();
    let mut guard = station.site.lock(rt);
    let site = &mut *guard;
    let Some(number) = site.free_number(most_sessions(house.own.sessions)) else {
        return Ok(None);
    };
    let connection = Connection::make(alloc, number, serial, begun, wire)?;
    let connection = Arc::new(alloc, connection)?;
    site.admit(number, Arc::try_clone(&connection)?)?;
    Ok(Some(Arrival { connection, number }))
}

/// How many sessions a node may have, if the configuration gives this limit, or 0 for none.
fn most_sessions(limit: u32) -> u8 {
    if limit == 0 {
        return MOST_SESSIONS as u8;
    }
    limit.min(MOST_SESSIONS) as u8
}

/// Sets how long a read and a write on a stream may take.
fn set_up(wire: &Wire) -> io::Result<()> {
    let stream = &wire.stream;
    stream.set_nonblocking(false)?;
    stream.set_nodelay(true)?;
    stream.set_write_timeout(limit(wire.write_seconds))?;
    stream.set_read_timeout(limit(wire.idle_seconds))
}

/// As much time as a limit of so many seconds leaves, or None for 0: no limit.
fn limit(seconds: u32) -> Option<Duration> {
    (seconds > 0).then(|| Duration::from_secs(u64::from(seconds)))
}
