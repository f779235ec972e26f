//! The chains that the tests are about, made from their octets.

use fate_chain::Chain;
use std::alloc::Global;
use std::process::Abort;

/// 2024-01-31T00:00:00Z, when the message is taken; it expires three days later.
pub const TAKEN: u32 = 1706659200;

/// One more decree, of node 1 in its first incarnation, so many seconds after the message was taken.
#[derive(Clone, Copy)]
pub enum Step {
    /// The attempt of this number begins.
    Attempt(u16, u8),
    /// It failed with this error.
    Failed(u16, u16),
    /// The message has the state of this code, with this error.
    Fate(u32, u8, u16),
    /// The receipt on that is told.
    Told(u32),
}

/// The layout of chain octets: the format, 2, the id 1000100001 and the number of decrees; the message from 144 to 155, with the text Hi.
const HEAD: &[u8] = b"\x02\0\0\0\0\x3b\x9c\x50\xa1\0";

const MESSAGE: &[u8] = b"\x01\x01\0\x01\x65\xb9\x8d\x80\
\x04sme1\x04sme1\0\x01\x01\x03144\x01\x01\x03155\0\0\0";

const TERM: &[u8] = b"\0\x65\xb9\x8d\x80\x65\xbd\x82\0\0\x02Hi\0\0";

/// Appends the octets of a decree of this kind, so many seconds after the message was taken: what it has beside that comes last.
fn put_decree(rt: &impl Abort, octets: &mut Vec<u8>, kind: u8, after: u32, last: &[u8]) {
    let [a, b, c, d] = TAKEN.saturating_add(after).to_be_bytes();
    let first = octets.extend_from_slice(&[kind, 1, 0, 1, a, b, c, d]);
    first.expect(rt, "memory");
    octets.extend_from_slice(last).expect(rt, "memory");
}

fn put_step(rt: &impl Abort, octets: &mut Vec<u8>, step: Step) {
    match step {
        Step::Attempt(after, number) => put_decree(rt, octets, 2, u32::from(after), &[number]),
        Step::Failed(after, error) => {
            put_decree(rt, octets, 3, u32::from(after), &error.to_be_bytes());
        }
        Step::Fate(after, state, error) => {
            let [high, low] = error.to_be_bytes();
            put_decree(rt, octets, 4, after, &[state, high, low]);
        }
        Step::Told(after) => put_decree(rt, octets, 5, after, b""),
    }
}

fn put_steps(rt: &impl Abort, octets: &mut Vec<u8>, steps: &[Step]) {
    for step in steps {
        put_step(rt, octets, *step);
    }
}

/// The message as it was taken, with this registered_delivery, and these decrees on it.
pub fn chain(rt: &impl Abort, alloc: Global, registered_delivery: u8, steps: &[Step]) -> Chain {
    let decrees = (steps.len() % 255) as u8 + 1;
    let parts = [HEAD, &[decrees], MESSAGE, &[registered_delivery], TERM];
    let mut octets = parts.concat(alloc).expect(rt, "memory");
    put_steps(rt, &mut octets, steps);
    let chain = Chain::read(alloc, &octets);
    drop(octets);
    chain.expect(rt, "a chain")
}

/// Eight attempts, each of which failed at once with the error 100.
pub const FAILURES: [Step; 16] = [
    Step::Attempt(0, 1),
    Step::Failed(0, 100),
    Step::Attempt(60, 2),
    Step::Failed(60, 100),
    Step::Attempt(180, 3),
    Step::Failed(180, 100),
    Step::Attempt(360, 4),
    Step::Failed(360, 100),
    Step::Attempt(600, 5),
    Step::Failed(600, 100),
    Step::Attempt(900, 6),
    Step::Failed(900, 100),
    Step::Attempt(1260, 7),
    Step::Failed(1260, 100),
    Step::Attempt(1680, 8),
    Step::Failed(1680, 100),
];

/// The same, and the end of the message.
pub fn undelivered() -> [Step; 17] {
    let mut steps = [Step::Fate(1680, UNDELIVERABLE, 100); 17];
    steps[..16].copy_from_slice(&FAILURES);
    steps
}

/// The same, and an hour later the receipt on it is told.
pub fn told_undelivered() -> [Step; 18] {
    let mut steps = [Step::Told(5280); 18];
    steps[..17].copy_from_slice(&undelivered());
    steps
}

/// The codes of final states.
pub const DELIVERED: u8 = 2;

pub const EXPIRED: u8 = 3;

pub const DELETED: u8 = 4;

pub const UNDELIVERABLE: u8 = 5;

pub const REJECTED: u8 = 8;

/// The decrees by which a message comes to a final state. Those to UNDELIVERABLE are above.
pub const TO_DELIVERED: &[Step] = &[Step::Attempt(0, 1), Step::Fate(0, DELIVERED, 0)];

pub const TO_EXPIRED: &[Step] = &[Step::Fate(259200, EXPIRED, 0)];

pub const TO_DELETED: &[Step] = &[Step::Fate(0, DELETED, 0)];

pub const TO_REJECTED: &[Step] = &[Step::Attempt(0, 1), Step::Fate(0, REJECTED, 102)];

/// The same as above, and an hour later the receipt on it is told.
pub const TOLD_DELIVERED: &[Step] = &[
    Step::Attempt(0, 1),
    Step::Fate(0, DELIVERED, 0),
    Step::Told(3600),
];

pub const TOLD_EXPIRED: &[Step] = &[Step::Fate(259200, EXPIRED, 0), Step::Told(262800)];

pub const TOLD_DELETED: &[Step] = &[Step::Fate(0, DELETED, 0), Step::Told(3600)];

pub const TOLD_REJECTED: &[Step] = &[
    Step::Attempt(0, 1),
    Step::Fate(0, REJECTED, 102),
    Step::Told(3600),
];
