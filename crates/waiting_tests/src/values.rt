//! Values that the tests are given.

use fate_chain::{Author, Chain, Content, Decree, Kind, Submission};
use mc_types::{Incarnation, Moment, MsgId, NodeNo};
use pdu_codec::{Address, SystemId, Text, Tlvs};
use std::alloc::Global;
use std::process::Abort;

// The start of 2000.
const BEGINNING: u32 = 946684800;

pub fn node(rt: &impl Abort, number: u8) -> NodeNo {
    NodeNo::make(number).expect(rt, "a node")
}

// The message of this serial that node 1 took in its first incarnation.
pub fn id(rt: &impl Abort, serial: u64) -> MsgId {
    MsgId::of_number(1_000_100_000 + serial % 100_000).expect(rt, "an id")
}

pub fn account(rt: &impl Abort, alloc: Global, octets: &[u8]) -> SystemId {
    let made = SystemId::make(alloc, octets).expect(rt, "memory");
    made.expect(rt, "a system_id")
}

// So many seconds after the start of 2000.
pub fn after(rt: &impl Abort, seconds: u32) -> Moment {
    Moment::make(BEGINNING.saturating_add(seconds)).expect(rt, "a moment")
}

fn text<const LIMIT: usize>(rt: &impl Abort, alloc: Global, octets: &[u8]) -> Text<LIMIT> {
    let made = Text::make(alloc, octets).expect(rt, "memory");
    made.expect(rt, "a text")
}

fn address(rt: &impl Abort, alloc: Global, digits: &[u8]) -> Address {
    Address {
        ton: 1,
        npi: 1,
        digits: text(rt, alloc, digits),
    }
}

// A message to sme1, from this second on, of three days.
fn message(rt: &impl Abort, alloc: Global, schedule: u32) -> Submission {
    let octets = b"Hi".to_vec(alloc).expect(rt, "memory");
    Submission {
        submitter: text(rt, alloc, b"sme2"),
        target: text(rt, alloc, b"sme1"),
        service_type: text(rt, alloc, b""),
        source: address(rt, alloc, b"144"),
        destination: address(rt, alloc, b"155"),
        esm_class: 0,
        protocol_id: 0,
        priority_flag: 0,
        registered_delivery: 0,
        data_coding: 0,
        schedule: after(rt, schedule),
        expiry: after(rt, 259200),
        content: Content::of(octets, Tlvs::empty(alloc)),
    }
}

// The chain of such a message when node 1 took it.
pub fn taken(rt: &impl Abort, alloc: Global, serial: u64, schedule: u32) -> Chain {
    let message = message(rt, alloc, schedule);
    let chain = Chain::begin(alloc, id(rt, serial), after(rt, 0), message);
    chain.expect(rt, "a chain")
}

// A chain with a decree of node 1 behind it.
pub fn decided(rt: &impl Abort, chain: Chain, second: u32, kind: Kind) -> Chain {
    let longer = chain.extended(Decree {
        author: Author {
            node: node(rt, 1),
            incarnation: Incarnation::make(1).expect(rt, "an incarnation"),
        },
        moment: after(rt, second),
        kind,
    });
    drop(chain);
    longer.expect(rt, "a chain")
}
