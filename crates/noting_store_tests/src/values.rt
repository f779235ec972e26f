//! Values that the tests are given.

use fate_chain::Chain;
use mc_types::{Ballot, NodeNo, NodeSet};
use noting_store::Note;
use std::alloc::Global;
use std::process::Abort;
use synod_acceptor::Vote;

// The chain of one Taken on message 1000100001: from 144 to 155, with the text Hi.
const FIRST: &[u8] =
    b"\x01\x00\x00\x00\x00\x3b\x9c\x50\xa1\x00\x01\x01\x01\x00\x01\x38\x6d\x43\x80\x04sme1\x04sme1\x00\x01\x01\x03144\x01\x01\x03155\x00\x00\x00\x01\x00\x38\x6d\x43\x80\x38\x71\x38\x00\x02Hi\x00\x00";

// The same on message 1000100002.
const SECOND: &[u8] =
    b"\x01\x00\x00\x00\x00\x3b\x9c\x50\xa2\x00\x01\x01\x01\x00\x01\x38\x6d\x43\x80\x04sme1\x04sme1\x00\x01\x01\x03144\x01\x01\x03155\x00\x00\x00\x01\x00\x38\x6d\x43\x80\x38\x71\x38\x00\x02Hi\x00\x00";

fn node(rt: &impl Abort, number: u8) -> NodeNo {
    NodeNo::make(number).expect(rt, "a node")
}

// The set of these nodes.
pub fn set(rt: &impl Abort, numbers: &[u8]) -> NodeSet {
    let mut nodes = NodeSet::empty();
    for number in numbers {
        nodes.add(node(rt, *number));
    }
    nodes
}

fn chain(rt: &impl Abort, alloc: Global, octets: &[u8]) -> Chain {
    Chain::read(alloc, octets).expect(rt, "a chain")
}

// A vote at the ballot of this number for the chain of the first message, or else of the second.
pub fn vote(rt: &impl Abort, alloc: Global, first: bool, ballot: u64) -> Vote {
    let octets = if first { FIRST } else { SECOND };
    Vote {
        ballot: Ballot::of_number(ballot).expect(rt, "a ballot"),
        chain: chain(rt, alloc, octets),
    }
}

// A note of a vote on the first message, or else on the second, of which these of three nodes told.
pub fn note(rt: &impl Abort, alloc: Global, first: bool, ballot: u64, told: &[u8]) -> Note {
    Note::make(3, vote(rt, alloc, first, ballot), set(rt, told)).expect(rt, "a note")
}
