//! The packets that come to a node in the tests.

use crate::inputs::{TAKEN, node, octet, slot};
use fate_chain::{Author, Chain, Decree, ErrorCode, Final, Kind};
use mc_types::{Ballot, Incarnation, Moment, NodeNo};
use std::alloc::Global;
use synod_acceptor::{Name, Packet, Report, Vote};

fn ballot(number: u64) -> Option<Ballot> {
    Ballot::of_number(number).ok()
}

fn incarnation(number: u64) -> Option<Incarnation> {
    Incarnation::make(u16::try_from(number).ok()?).ok()
}

/// A packet on the first message, from the node that its first number names. The second number of `prepare`, `propose` and `promise` is a
/// ballot; those of `refused` are the first ballot, and the second, for whose promise it is refused. `voted`, `attempted` and `deleted` are
/// votes.
pub(crate) fn packet(alloc: Global, kind: &str, numbers: [u64; 4]) -> Option<Packet> {
    let [from, first, second, _] = numbers;
    let from = node(from)?;
    match kind {
        "voted" | "attempted" | "deleted" => {
            let vote = voted(alloc, kind, first, second)?;
            Some(Packet::Voted { from, vote })
        }
        "propose" => {
            let vote = vote(alloc, first)?;
            Some(Packet::Propose { from, vote })
        }
        _ => plain(kind, from, first, second),
    }
}

/// A packet without a vote.
fn plain(kind: &str, from: NodeNo, first: u64, second: u64) -> Option<Packet> {
    let slot = slot(0)?;
    match kind {
        "prepare" => Some(Packet::Prepare {
            from,
            slot,
            ballot: ballot(first)?,
        }),
        "promise" => Some(Packet::Promise {
            from,
            ballot: ballot(first)?,
            report: Report::Nothing(slot),
        }),
        "refused" => Some(Packet::Refused {
            from,
            slot,
            ballot: ballot(first)?,
            promised: ballot(second)?,
        }),
        "ask" => Some(Packet::Ask {
            from,
            id: slot.id,
            name: name(from, 7)?,
        }),
        "tell" => Some(Packet::Tell {
            from,
            name: name(node(2)?, 1)?,
            told: None,
        }),
        _ => None,
    }
}

fn name(node: NodeNo, ticket: u64) -> Option<Name> {
    Some(Name {
        node,
        incarnation: incarnation(1)?,
        ticket,
    })
}

fn vote(alloc: Global, number: u64) -> Option<Vote> {
    let ballot = ballot(number)?;
    let chain = taken(alloc, 0)?;
    Some(Vote { ballot, chain })
}

/// A vote for that chain; for it with its first attempt, by a node in an incarnation; or that the message is deleted of which the id is
/// this many numbers after that one.
fn voted(alloc: Global, kind: &str, first: u64, second: u64) -> Option<Vote> {
    match kind {
        "attempted" => {
            let author = Author {
                node: node(first)?,
                incarnation: incarnation(second)?,
            };
            extended(alloc, 0, author, Kind::Attempt(1))
        }
        "deleted" => {
            let author = Author {
                node: node(1)?,
                incarnation: incarnation(1)?,
            };
            let fate = Kind::Fate(Final::Deleted, ErrorCode::of(0));
            extended(alloc, octet(first)?, author, fate)
        }
        _ => vote(alloc, 262161),
    }
}

/// A vote for the chain of which the id is so many numbers after that one, with a decree of this kind.
fn extended(alloc: Global, more: u8, author: Author, kind: Kind) -> Option<Vote> {
    let ballot = ballot(262161)?;
    let taken = taken(alloc, more)?;
    let decree = Decree {
        author,
        moment: Moment::least(),
        kind,
    };
    match taken.extended(decree) {
        Ok(chain) => Some(Vote { ballot, chain }),
        Err(_) => None,
    }
}

fn taken(alloc: Global, more: u8) -> Option<Chain> {
    let mut octets = Vec::from_slice(alloc, TAKEN).ok()?;
    if let Some(last) = octets.get_mut(8) {
        *last = last.saturating_add(more);
    }
    Chain::read(alloc, &octets).ok()
}
