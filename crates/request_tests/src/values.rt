//! Values that the tests are given.

ghost use Rattle.std.specs.Prelude.{◌≡◌};

use fate_chain::{Author, Chain, Content, Decree, ErrorCode, Final, Kind, Submission};
use mc_types::{Ballot, Incarnation, Moment, MsgId, NodeNo};
use pdu_codec::{Address, Text, Tlvs};
use std::alloc::Global;
use std::process::Abort;
use synod_acceptor::Vote;
use waiting_requests::{Answer, Held, Request, Taken};

// The start of 2000.
pub const BEGINNING: u32 = 946684800;

pub fn node(rt: &impl Abort, number: u8) -> NodeNo {
    NodeNo::make(number).expect(rt, "a node")
}

pub fn first(rt: &impl Abort) -> Incarnation {
    Incarnation::make(1).expect(rt, "an incarnation")
}

// So many seconds after the start of 2000.
pub fn after(rt: &impl Abort, seconds: u32) -> Moment {
    Moment::make(BEGINNING.saturating_add(seconds)).expect(rt, "a moment")
}

// The first message of the first node.
pub fn id(rt: &impl Abort) -> MsgId {
    MsgId::read(b"1000100001").expect(rt, "an id")
}

pub fn text<const LIMIT: usize>(rt: &impl Abort, alloc: Global, octets: &[u8]) -> Text<LIMIT> {
    let text = Text::make(alloc, octets).expect(rt, "memory");
    text.expect(rt, "a text")
}

fn address(rt: &impl Abort, alloc: Global, digits: &[u8]) -> Address {
    Address {
        ton: 1,
        npi: 1,
        digits: text(rt, alloc, digits),
    }
}

// A text without other parameters.
fn content(rt: &impl Abort, alloc: Global) -> Content {
    let text = b"Hi".to_vec(alloc).expect(rt, "memory");
    Content::of(text, Tlvs::empty(alloc))
}

// A message of sme1 to itself, from 144 to 155, of three days.
pub fn message(rt: &impl Abort, alloc: Global) -> Submission {
    Submission {
        submitter: text(rt, alloc, b"sme1"),
        target: text(rt, alloc, b"sme1"),
        service_type: text(rt, alloc, b""),
        source: address(rt, alloc, b"144"),
        destination: address(rt, alloc, b"155"),
        esm_class: 0,
        protocol_id: 0,
        priority_flag: 0,
        registered_delivery: 1,
        data_coding: 0,
        schedule: after(rt, 0),
        expiry: after(rt, 259200),
        content: content(rt, alloc),
    }
}

// Its chain when it was taken.
pub fn taken(rt: &impl Abort, alloc: Global) -> Chain {
    let message = message(rt, alloc);
    let chain = Chain::begin(alloc, id(rt), after(rt, 0), message);
    chain.expect(rt, "a chain")
}

// A chain with a decree of the first node behind it.
fn decided(rt: &impl Abort, chain: Chain, kind: Kind) -> Chain {
    let longer = chain.extended(Decree {
        author: Author {
            node: NodeNo::of(1),
            incarnation: Incarnation::of(1),
        },
        moment: after(rt, 1),
        kind,
    });
    drop(chain);
    longer.expect(rt, "a chain")
}

// Its chain when it was taken, with such a decree.
fn behind(rt: &impl Abort, alloc: Global, kind: Kind) -> Chain {
    decided(rt, taken(rt, alloc), kind)
}

// A query_sm of this account that waits under a ticket.
pub fn asking(rt: &impl Abort, alloc: Global, ticket: u64, account: &[u8]) -> Held
    ensures { result.waiting.ticket ≡ ticket }
{
    let request = Request::Query {
        id: id(rt),
        account: text(rt, alloc, account),
        source: text(rt, alloc, b"144"),
    };
    Held::begin(ticket, after(rt, 0), request)
}

fn cancel(rt: &impl Abort, alloc: Global, destination: &[u8]) -> Held {
    let request = Request::Cancel {
        id: id(rt),
        account: text(rt, alloc, b"sme1"),
        source: text(rt, alloc, b"144"),
        destination: text(rt, alloc, destination),
    };
    Held::begin(1, after(rt, 0), request)
}

pub fn submit(rt: &impl Abort, alloc: Global) -> Held {
    let since = after(rt, 0);
    let taken = Taken::make(alloc, id(rt), since, message(rt, alloc)).expect(rt, "a message");
    Held::begin(1, since, Request::Submit(taken))
}

// A request that begins to wait under ticket 1.
#[derive(Clone, Copy)]
pub enum Begins {
    Submit,
    // A query_sm of this account.
    Query(&'static [u8]),
    // A cancel_sm with this destination.
    Cancel(&'static [u8]),
}

pub fn held(rt: &impl Abort, alloc: Global, begins: Begins) -> Held {
    match begins {
        Begins::Submit => submit(rt, alloc),
        Begins::Query(account) => asking(rt, alloc, 1, account),
        Begins::Cancel(destination) => cancel(rt, alloc, destination),
    }
}

// What is known of the message.
#[derive(Clone, Copy)]
pub enum Known {
    Nothing,
    Taken,
    Tried,
    Deleted,
    ToldDeleted,
    ToldDelivered,
}

// Its chain: as it was taken, with a first attempt, deleted before any, the same and the receipt on it told, or delivered, and that told.
pub fn chain(rt: &impl Abort, alloc: Global, known: Known) -> Option<Chain> {
    match known {
        Known::Nothing => None,
        Known::Taken => Some(taken(rt, alloc)),
        Known::Tried => Some(behind(rt, alloc, Kind::Attempt(1))),
        Known::Deleted => {
            let fate = Kind::Fate(Final::Deleted, ErrorCode::of(0));
            Some(behind(rt, alloc, fate))
        }
        Known::ToldDeleted => {
            let fate = Kind::Fate(Final::Deleted, ErrorCode::of(0));
            Some(decided(rt, behind(rt, alloc, fate), Kind::Told))
        }
        Known::ToldDelivered => {
            let fate = Kind::Fate(Final::Delivered, ErrorCode::of(0));
            let delivered = decided(rt, behind(rt, alloc, Kind::Attempt(1)), fate);
            Some(decided(rt, delivered, Kind::Told))
        }
    }
}

// A vote for its chain, at the ballot of round 1 of node 1.
pub fn vote_for(rt: &impl Abort, alloc: Global, known: Known) -> Option<Vote> {
    let ballot = Ballot::of_number(262161).expect(rt, "a ballot");
    match chain(rt, alloc, known) {
        Some(chain) => Some(Vote { ballot, chain }),
        None => None,
    }
}

// The name of an answer, and the place of its chain.
pub fn said(answer: Option<&Answer>) -> (&'static str, u8) {
    match answer {
        None => ("waits", 0),
        Some(Answer::Accepted) => ("accepted", 0),
        Some(Answer::Shown(chain)) => ("shown", chain.place()),
        Some(Answer::Removed(chain)) => ("removed", chain.place()),
        Some(Answer::Kept(chain)) => ("kept", chain.place()),
        Some(Answer::NotOwner) => ("not owner", 0),
        Some(Answer::NotMatched(chain)) => ("not matched", chain.place()),
        Some(Answer::Unknown) => ("unknown", 0),
        Some(Answer::TooLate) => ("too late", 0),
    }
}

// A node tells of a vote for this chain.
pub fn tell(rt: &impl Abort, alloc: Global, held: &mut Held, from: u8, known: Known) {
    let told = vote_for(rt, alloc, known);
    let heard = held.hear(node(rt, from), told.as_ref());
    drop(told);
    heard.expect(rt, "memory");
}
