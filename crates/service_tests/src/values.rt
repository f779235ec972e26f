//! Values that the tests are given.

use config::Config;
use fate_chain::Chain;
use mc_types::{Moment, MsgId, Slot};
use pdu_codec::{SystemId, Text};
use std::alloc::Global;
use std::process::Abort;

pub fn config(rt: &impl Abort, alloc: Global) -> Config {
    Config::of_scripts(alloc).expect(rt, "memory")
}

pub fn sme1(rt: &impl Abort, alloc: Global) -> SystemId {
    let text = Text::make(alloc, b"sme1").expect(rt, "memory");
    text.expect(rt, "a text")
}

/// 2024-01-31T00:00:00Z, and so many seconds.
pub fn at(rt: &impl Abort, seconds: u32) -> Moment {
    Moment::make(seconds.saturating_add(1706659200)).expect(rt, "a moment")
}

pub fn id(rt: &impl Abort) -> MsgId {
    MsgId::read(b"1000100001").expect(rt, "an id")
}

/// The slot of the first attempt of the message.
pub fn slot(rt: &impl Abort) -> Slot {
    Slot {
        id: id(rt),
        place: 1,
    }
}

pub fn chain(rt: &impl Abort, alloc: Global, octets: &[u8]) -> Chain {
    Chain::read(alloc, octets).expect(rt, "a chain")
}
