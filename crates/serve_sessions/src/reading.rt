//! Who reads what an ESME sends.

use crate::connection::Connection;
use crate::notice::Reason;
use frame_io::{FrameFault, next_frame};
use octet_io::CountedReader;
use pdu_frames::Framer;
use std::alloc::Global;
use std::net::TcpStream;
use std::rt::Clock;
use std::sync::Wait;

/// Reads one PDU after another for who serves them, until nothing more comes or nobody serves, and sees the connection off.
pub fn read_all<R: Wait + Clock>(rt: &R, alloc: Global, connection: &Connection) {
    let reason = read_on(rt, alloc, connection);
    connection.end_input(rt, reason);
    connection.see_off(rt);
}

/// Reads one PDU after another; why nothing more comes.
fn read_on<R: Wait>(rt: &R, alloc: Global, connection: &Connection) -> Reason {
    let Ok(mut framer) = Framer::make(alloc) else {
        return Reason::NoMemory;
    };
    let mut reader = CountedReader::make(&connection.wire.stream);
    for _ in rt.forever() {
        if !connection.may_read(rt) {
            break;
        }
        match next(alloc, &mut reader, &mut framer) {
            Ok(frame) => connection.take_in(rt, frame),
            Err(Reason::Failed) => return connection.read_failure(),
            Err(reason) => return reason,
        }
    }
    Reason::Closed
}

/// The octets of the next PDU; why there is none, if there is none.
fn next(
    alloc: Global,
    reader: &mut CountedReader<&TcpStream>,
    framer: &mut Framer,
) -> Result<Vec<u8>, Reason> {
    let mut frame = Vec::new(alloc);
    let fault = match next_frame(reader, framer, &mut frame) {
        Ok(true) => return Ok(frame),
        Ok(false) => return Err(Reason::Closed),
        Err(fault) => fault,
    };
    Err(match fault {
        FrameFault::Read => Reason::Failed,
        FrameFault::Short => Reason::CutShort,
        FrameFault::Memory => Reason::NoMemory,
        FrameFault::Length => Reason::WrongLength,
    })
}
