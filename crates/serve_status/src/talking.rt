//! A connection on which somebody asks what a server tells of itself.

use serve_nodes::House;
use serve_sessions::Mark;
use status_page::{Answers, Connection, LIMITS};
use std::hash::RandomState;
use std::io;
use std::io::ErrorKind;
use std::net::TcpStream;
use std::rt::Clock;
use std::sync::Wait;
use std::time::Duration;

/// How long a connection may last, in milliseconds.
const PATIENCE: u64 = 5_000;

/// How long a read or a write waits before it is looked whether the server ends, in milliseconds.
const LOOK: u64 = 100;

/// Answers the request that comes on a stream, with what the server tells of itself then. It ends once it has, after five seconds, or as the server does.
pub(crate) fn talk<R: Wait + Clock>(rt: &R, house: &House, keys: RandomState, stream: &TcpStream) {
    if set_up(stream).is_err() {
        return;
    }
    let mut connection = Connection::new(house.alloc, keys, LIMITS);
    let begun = Mark::now(rt);
    for _ in rt.forever() {
        if connection.is_done() || begun.is_past(rt, PATIENCE) || house.is_over(rt) {
            return;
        }
        if go_on(rt, house, &mut connection, stream).is_err() {
            return;
        }
    }
}

/// Reads or writes, and answers a request that has come. An `Err` ends the connection.
fn go_on<R: Wait + Clock>(
    rt: &R,
    house: &House,
    connection: &mut Connection,
    stream: &TcpStream,
) -> io::Result<()> {
    match carry(connection, stream) {
        Ok(()) => {
            let status = house.status(rt)?;
            connection.advance(&mut Answers::by(house.alloc, &status));
            Ok(())
        }
        Err(error) if is_pause(&error) => Ok(()),
        Err(error) => Err(error),
    }
}

/// Reads what comes on a stream, or writes what waits.
fn carry(connection: &mut Connection, stream: &TcpStream) -> io::Result<()> {
    let mut wire = stream;
    if !connection.wants_write() {
        connection.read_from(&mut wire)?;
    } else if connection.write_to(&mut wire)? == 0 {
        return Err(ErrorKind::WriteZero.into());
    }
    Ok(())
}

/// Whether an error says no more than that nothing came, or could be written, for a while.
fn is_pause(error: &io::Error) -> bool {
    matches!(
        error.kind(),
        ErrorKind::WouldBlock | ErrorKind::TimedOut | ErrorKind::Interrupted
    )
}

/// Sets how long a read and a write on a stream may take.
fn set_up(stream: &TcpStream) -> io::Result<()> {
    stream.set_nonblocking(false)?;
    stream.set_read_timeout(Some(Duration::from_millis(LOOK)))?;
    stream.set_write_timeout(Some(Duration::from_millis(LOOK)))
}
