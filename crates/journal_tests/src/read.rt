//! What a reader finds in entries that no nodes leave.

use crate::reader::{Looks, Reader, Wrong};
use crate::replies::{accepted, removed, shown, unknown};
use crate::same::assert_same;
use delivery::Outcome;
use fate_chain::{Author, Chain, Decree, ErrorCode, Final, Kind};
use lines_of_tests::{TAKEN, account, first_id, node, request};
use mc_types::{Incarnation, Moment, MsgId, NodeNo, Slot};
use node_core::Outputs;
use node_threads::{Done, Entry};
use pdu_tables::Status;
use std::alloc::Global;
use std::process::Abort;
use std::sync::Arc;
use waiting_requests::Reply;
use world::Step;

fn first(rt: &impl Abort) -> NodeNo {
    node(1).expect(rt, "a node")
}

fn id(rt: &impl Abort) -> MsgId {
    first_id().expect(rt, "an id")
}

/// A chain with one more decree, of node 1 in its first incarnation.
fn extended(rt: &impl Abort, chain: &Chain, kind: Kind) -> Chain {
    let author = Author {
        node: first(rt),
        incarnation: Incarnation::of(1),
    };
    let moment = Moment::least();
    match chain.extended(Decree {
        author,
        moment,
        kind,
    }) {
        Ok(chain) => chain,
        Err(_) => panic!(rt; "it may come next"),
    }
}

/// The chain of the first message, which is taken.
fn taken(rt: &impl Abort, alloc: Global) -> Chain {
    match Chain::read(alloc, TAKEN) {
        Ok(chain) => chain,
        Err(_) => panic!(rt; "a chain"),
    }
}

fn deleted(rt: &impl Abort, alloc: Global) -> Chain {
    let fate = Kind::Fate(Final::Deleted, ErrorCode::of(0));
    extended(rt, &taken(rt, alloc), fate)
}

fn attempted(rt: &impl Abort, alloc: Global) -> Chain {
    extended(rt, &taken(rt, alloc), Kind::Attempt(1))
}

fn delivered(rt: &impl Abort, alloc: Global) -> Chain {
    let fate = Kind::Fate(Final::Delivered, ErrorCode::of(0));
    extended(rt, &attempted(rt, alloc), fate)
}

/// The chain on which its receipt is written.
fn told(rt: &impl Abort, alloc: Global) -> Chain {
    extended(rt, &delivered(rt, alloc), Kind::Told)
}

/// The entry of a step that gave this out.
fn entry(rt: &impl Abort, alloc: Global, step: Step, outputs: Outputs) -> Entry {
    let done = Done {
        step,
        packet: None,
        outputs,
    };
    Entry {
        done: Arc::new(alloc, done).expect(rt, "memory"),
        unfinished: None,
    }
}

/// What is read one after the other.
#[derive(Drop)]
struct Read {
    alloc: Global,
    reader: Reader,
}

impl Read {
    fn new(alloc: Global) -> Read {
        Read {
            alloc,
            reader: Reader::new(alloc),
        }
    }

    fn read(&mut self, rt: &impl Abort, step: Step, outputs: Outputs) {
        let entry = entry(rt, self.alloc, step, outputs);
        self.reader.read(rt, &entry);
    }

    /// The attempt is granted.
    fn grant(&mut self, rt: &impl Abort) {
        let step = Step::Grant {
            node: first(rt),
            id: id(rt),
        };
        let outputs = Outputs::granting(self.alloc, attempted(rt, self.alloc));
        self.read(rt, step, outputs);
    }

    /// It is answered ESME_ROK.
    fn deliver(&mut self, rt: &impl Abort) {
        let step = Step::Answered {
            node: first(rt),
            slot: Slot {
                id: id(rt),
                place: 1,
            },
            outcome: Outcome::Delivered,
        };
        self.read(rt, step, Outputs::nothing(self.alloc));
    }

    fn start_anew(&mut self, rt: &impl Abort) {
        let step = Step::Restart { node: first(rt) };
        self.read(rt, step, Outputs::nothing(self.alloc));
    }

    /// A packet comes by which a node gives this out.
    fn come(&mut self, rt: &impl Abort, outputs: Outputs) {
        let step = Step::Deliver {
            node: first(rt),
            number: 1,
        };
        self.read(rt, step, outputs);
    }

    fn receive(&mut self, rt: &impl Abort, chain: Chain) {
        let outputs = Outputs::of(self.alloc, None, Some(chain));
        self.come(rt, outputs.expect(rt, "memory"));
    }

    /// A request comes under the ticket 1, or is refused with this status.
    fn ask(&mut self, rt: &impl Abort, asked: &str, refused: Option<Status>) {
        let step = Step::Request {
            node: first(rt),
            account: account(self.alloc).expect(rt, "an account"),
            request: request(self.alloc, asked).expect(rt, "a request"),
        };
        let ticket = if refused.is_some() { None } else { Some(1) };
        let mut outputs = Outputs::nothing(self.alloc);
        outputs.ticket = ticket;
        outputs.refused = refused;
        self.read(rt, step, outputs);
    }

    fn reply(&mut self, rt: &impl Abort, reply: Reply) {
        let mut outputs = Outputs::nothing(self.alloc);
        outputs.replies.push(reply).expect(rt, "memory");
        self.come(rt, outputs);
    }

    fn accept(&mut self, rt: &impl Abort) {
        self.reply(rt, accepted(rt, self.alloc, taken(rt, self.alloc)));
    }

    fn miss(&mut self, rt: &impl Abort) {
        self.reply(rt, unknown(rt, self.alloc, id(rt)));
    }

    fn show(&mut self, rt: &impl Abort, chain: Chain) {
        self.reply(rt, shown(rt, self.alloc, chain));
    }

    fn remove(&mut self, rt: &impl Abort, chain: Chain) {
        self.reply(rt, removed(rt, self.alloc, chain));
    }

    /// It found this alone.
    fn found(&self, rt: &impl Abort, wrong: Option<Wrong>) {
        assert_same(rt, &self.reader.wrong.first().copied(), &wrong);
        let count = if wrong.is_some() { 1 } else { 0 };
        assert_same(rt, &self.reader.wrong.len(), &count);
    }
}

/// A message is accepted, asked of, delivered and asked of again; its node starts anew then.
#[test]
fn nothing_is_wrong_with_a_delivery(rt: HostRuntime) {
    let mut read = Read::new(rt.alloc());
    read.ask(&rt, "submit_with_receipt", None);
    read.accept(&rt);
    read.ask(&rt, "query", None);
    read.show(&rt, taken(&rt, rt.alloc()));
    read.grant(&rt);
    read.deliver(&rt);
    read.start_anew(&rt);
    read.receive(&rt, told(&rt, rt.alloc()));
    read.ask(&rt, "query", None);
    read.show(&rt, delivered(&rt, rt.alloc()));
    read.found(&rt, None);
    let looks = Looks {
        fates: 2,
        cancels: 0,
        grants: 1,
        deliveries: 1,
        queries: 1,
        accepted: 2,
    };
    assert_same(&rt, &read.reader.looks, &looks);
}

/// A message is deleted, and a query that waited under a ticket of an earlier life of the node is no matter.
#[test]
fn nothing_is_wrong_with_a_cancel(rt: HostRuntime) {
    let mut read = Read::new(rt.alloc());
    read.ask(&rt, "query", None);
    read.start_anew(&rt);
    read.ask(&rt, "cancel", None);
    read.remove(&rt, deleted(&rt, rt.alloc()));
    read.show(&rt, taken(&rt, rt.alloc()));
    read.found(&rt, None);
    let looks = Looks {
        fates: 1,
        cancels: 1,
        grants: 0,
        deliveries: 0,
        queries: 0,
        accepted: 0,
    };
    assert_same(&rt, &read.reader.looks, &looks);
}

#[test]
fn two_fates_are_found(rt: HostRuntime) {
    let mut read = Read::new(rt.alloc());
    read.grant(&rt);
    read.deliver(&rt);
    read.receive(&rt, told(&rt, rt.alloc()));
    read.remove(&rt, deleted(&rt, rt.alloc()));
    read.found(&rt, Some(Wrong::TwoFates(id(&rt))));
}

#[test]
fn two_receipts_are_found(rt: HostRuntime) {
    let mut read = Read::new(rt.alloc());
    read.grant(&rt);
    read.deliver(&rt);
    read.receive(&rt, told(&rt, rt.alloc()));
    read.start_anew(&rt);
    read.receive(&rt, told(&rt, rt.alloc()));
    read.found(&rt, Some(Wrong::TwoReceipts(id(&rt))));
}

#[test]
fn a_grant_behind_a_cancel_is_found(rt: HostRuntime) {
    let mut read = Read::new(rt.alloc());
    read.remove(&rt, deleted(&rt, rt.alloc()));
    read.grant(&rt);
    read.found(&rt, Some(Wrong::GrantBehindAFate(id(&rt))));
}

#[test]
fn a_delivery_without_a_grant_is_found(rt: HostRuntime) {
    let mut read = Read::new(rt.alloc());
    read.deliver(&rt);
    read.receive(&rt, told(&rt, rt.alloc()));
    read.found(&rt, Some(Wrong::NoDelivery(id(&rt))));
}

#[test]
fn a_delivery_that_was_not_answered_is_found(rt: HostRuntime) {
    let mut read = Read::new(rt.alloc());
    read.grant(&rt);
    read.receive(&rt, told(&rt, rt.alloc()));
    read.found(&rt, Some(Wrong::NoDelivery(id(&rt))));
}

#[test]
fn an_answer_in_another_life_is_found(rt: HostRuntime) {
    let mut read = Read::new(rt.alloc());
    read.grant(&rt);
    read.start_anew(&rt);
    read.deliver(&rt);
    read.receive(&rt, told(&rt, rt.alloc()));
    read.found(&rt, Some(Wrong::NoDelivery(id(&rt))));
}

#[test]
fn a_query_that_is_not_told_a_fate_is_found(rt: HostRuntime) {
    let mut read = Read::new(rt.alloc());
    read.remove(&rt, deleted(&rt, rt.alloc()));
    read.ask(&rt, "query", None);
    read.show(&rt, taken(&rt, rt.alloc()));
    read.found(&rt, Some(Wrong::OtherFate(id(&rt))));
}

#[test]
fn an_unknown_message_that_was_accepted_is_found(rt: HostRuntime) {
    let mut read = Read::new(rt.alloc());
    read.accept(&rt);
    read.ask(&rt, "query", None);
    read.miss(&rt);
    read.found(&rt, Some(Wrong::NoSuchMessage(id(&rt))));
}

#[test]
fn a_refusal_of_a_message_that_was_accepted_is_found(rt: HostRuntime) {
    let mut read = Read::new(rt.alloc());
    read.accept(&rt);
    read.ask(&rt, "cancel", Some(Status::InvalidMessageId));
    read.found(&rt, Some(Wrong::NoSuchMessage(id(&rt))));
}
