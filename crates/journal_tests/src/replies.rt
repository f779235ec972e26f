//! Replies to requests that waited under ticket 1 at a node which is alone.

use fate_chain::{Chain, Content, Submission};
use lines_of_tests::{account, node};
use mc_types::{Moment, MsgId};
use pdu_codec::{Address, SystemId, Text, Tlvs};
use std::alloc::Global;
use std::process::Abort;
use waiting_requests::{Held, Queue, Reply, Request, Taken};

const TICKET: u64 = 1;

fn text<const LIMIT: usize>(rt: &impl Abort, alloc: Global, octets: &[u8]) -> Text<LIMIT> {
    let text = Text::make(alloc, octets).expect(rt, "memory");
    text.expect(rt, "a text")
}

fn address(rt: &impl Abort, alloc: Global, digits: &[u8]) -> Address {
    Address {
        ton: 1,
        npi: 1,
        digits: text(rt, alloc, digits),
    }
}

fn sme1(rt: &impl Abort, alloc: Global) -> SystemId {
    account(alloc).expect(rt, "an account")
}

/// A message that waits to be taken, with so many seconds to live.
fn message(rt: &impl Abort, alloc: Global) -> Submission {
    Submission {
        submitter: sme1(rt, alloc),
        target: sme1(rt, alloc),
        service_type: text(rt, alloc, b""),
        source: address(rt, alloc, b"144"),
        destination: address(rt, alloc, b"155"),
        esm_class: 0,
        protocol_id: 0,
        priority_flag: 0,
        registered_delivery: 1,
        data_coding: 0,
        schedule: Moment::least(),
        expiry: Moment::least().later(1),
        content: Content::of(Vec::new(alloc), Tlvs::empty(alloc)),
    }
}

/// Node 1, which is alone, tells a request that it knows nothing.
fn tell_nothing(rt: &impl Abort, held: &mut Held) {
    let first = node(1).expect(rt, "a node");
    held.hear(first, None).expect(rt, "memory");
}

/// The reply to the only request that waits, by a chain.
fn reply_by(rt: &impl Abort, alloc: Global, held: Held, chain: Chain) -> Reply {
    let held = Box::new(alloc, held).expect(rt, "memory");
    let mut queue = Queue::make(alloc).expect(rt, "memory");
    queue.push(held);
    let replies = queue.replies(1, &chain);
    drop(queue);
    drop(chain);
    let mut replies = replies.expect(rt, "memory");
    let reply = replies.pop();
    drop(replies);
    reply.expect(rt, "a reply")
}

/// That the message of a chain is taken.
pub fn accepted(rt: &impl Abort, alloc: Global, chain: Chain) -> Reply {
    let since = Moment::least();
    let taken = Taken::make(alloc, chain.id(), since, message(rt, alloc)).expect(rt, "a message");
    let held = Held::begin(TICKET, since, Request::Submit(taken));
    reply_by(rt, alloc, held, chain)
}

/// The state by a chain.
pub fn shown(rt: &impl Abort, alloc: Global, chain: Chain) -> Reply {
    let held = query(rt, alloc, chain.id());
    reply_by(rt, alloc, held, chain)
}

/// That there is no message of this id.
pub fn unknown(rt: &impl Abort, alloc: Global, id: MsgId) -> Reply {
    let held = query(rt, alloc, id);
    let reply = held.reply_now(1, None).expect(rt, "memory");
    drop(held);
    reply.expect(rt, "a reply")
}

/// That the message is deleted, by a chain.
pub fn removed(rt: &impl Abort, alloc: Global, chain: Chain) -> Reply {
    let request = Request::Cancel {
        id: chain.id(),
        account: sme1(rt, alloc),
        source: text(rt, alloc, b"144"),
        destination: text(rt, alloc, b""),
    };
    let mut held = Held::begin(TICKET, Moment::least(), request);
    tell_nothing(rt, &mut held);
    reply_by(rt, alloc, held, chain)
}

/// A query_sm of the message of this id, of which node 1 knew nothing.
fn query(rt: &impl Abort, alloc: Global, id: MsgId) -> Held {
    let request = Request::Query {
        id,
        account: sme1(rt, alloc),
        source: text(rt, alloc, b"144"),
    };
    let mut held = Held::begin(TICKET, Moment::least(), request);
    tell_nothing(rt, &mut held);
    held
}
