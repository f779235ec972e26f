//! Where somebody connects who asks what a server tells of itself.

use crate::talking::talk;
use serve_nodes::{House, StatusDoor};
use serve_sessions::Entrance;
use std::io::ErrorKind;
use std::net::TcpStream;
use std::rt::Clock;
use std::sync::Wait;
use std::thread::{Scope, Threads};
use std::time::Duration;
use std::{io, thread};

/// How many are answered at a time: who connects beside them is closed.
const MOST_ASKING: u64 = 8;

/// How long the thread that listens waits if a connection can't be taken, as since too many files are open, in milliseconds.
const PAUSE: u64 = 20;

/// Tells who connects of a server, each in a thread, until the server ends.
pub fn tell_on<'o, O, R: Threads + Wait + Clock + Sync>(
    rt: &'o R,
    outer: &'o Scope<'o, O>,
    house: &'o House,
    door: &'o StatusDoor,
) {
    for _ in rt.forever() {
        if house.is_over(rt) {
            return;
        }
        match door.entrance.let_in() {
            Ok((stream, _)) => start_talk(rt, outer, house, door, stream),
            Err(error) => wait_for_more(rt, &door.entrance, &error),
        }
    }
}

/// Starts the thread that tells who connected, unless many are told.
fn start_talk<'o, O, R: Threads + Wait + Clock + Sync>(
    rt: &'o R,
    outer: &'o Scope<'o, O>,
    house: &'o House,
    door: &'o StatusDoor,
    stream: TcpStream,
) {
    if !house.counters.begin_asking(MOST_ASKING) {
        drop(stream);
        return;
    }
    match outer.spawn(move || {
        talk(rt, house, door.keys, &stream);
        house.counters.end_asking();
    }) {
        Ok(_) => {}
        Err(_) => house.counters.end_asking(),
    }
}

/// Waits until somebody connects, or the server ends, if nobody had, as this error tells; else for a moment.
fn wait_for_more<R: Wait + Clock>(rt: &R, entrance: &Entrance, error: &io::Error) {
    if error.kind() != ErrorKind::WouldBlock || entrance.sleep(rt).is_err() {
        thread::sleep(rt, Duration::from_millis(PAUSE));
    }
}
