//! Values that the tests are given.

use fate_chain::Chain;
use mc_types::{Ballot, NodeNo};
use std::alloc::Global;
use std::process::Abort;
use synod_acceptor::Vote;

// The chain of one Taken on message 1000100001: from 144 to 155, with the text Hi.
const TAKEN: &[u8] =
    b"\x01\x00\x00\x00\x00\x3b\x9c\x50\xa1\x00\x01\x01\x01\x00\x01\x38\x6d\x43\x80\x04sme1\x04sme1\x00\x01\x01\x03144\x01\x01\x03155\x00\x00\x00\x01\x00\x38\x6d\x43\x80\x38\x71\x38\x00\x02Hi\x00\x00";

// The same with the text Ho.
const OTHER: &[u8] =
    b"\x01\x00\x00\x00\x00\x3b\x9c\x50\xa1\x00\x01\x01\x01\x00\x01\x38\x6d\x43\x80\x04sme1\x04sme1\x00\x01\x01\x03144\x01\x01\x03155\x00\x00\x00\x01\x00\x38\x6d\x43\x80\x38\x71\x38\x00\x02Ho\x00\x00";

pub fn taken(rt: &impl Abort, alloc: Global) -> Chain {
    Chain::read(alloc, TAKEN).expect(rt, "a chain")
}

pub fn other(rt: &impl Abort, alloc: Global) -> Chain {
    Chain::read(alloc, OTHER).expect(rt, "a chain")
}

pub fn node(rt: &impl Abort, number: u8) -> NodeNo {
    NodeNo::make(number).expect(rt, "a node")
}

pub fn ballot(rt: &impl Abort, number: u64) -> Ballot {
    Ballot::of_number(number).expect(rt, "a ballot")
}

// A vote for the first of these chains.
pub fn vote(rt: &impl Abort, alloc: Global, number: u64) -> Vote {
    Vote {
        ballot: ballot(rt, number),
        chain: taken(rt, alloc),
    }
}
