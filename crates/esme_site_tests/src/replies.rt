//! Replies to requests that waited at a node which is alone.

use crate::octets::ATTEMPTED;
use crate::values::{at, chain, sme1};
use fate_chain::{Chain, Content, Submission};
use pdu_codec::{Address, Text, Tlvs};
use std::alloc::Global;
use std::process::Abort;
use waiting_requests::{Held, Queue, Reply, Request, Taken};

fn text<const LIMIT: usize>(rt: &impl Abort, alloc: Global, octets: &[u8]) -> Text<LIMIT> {
    let text = Text::make(alloc, octets).expect(rt, "memory");
    text.expect(rt, "a text")
}

fn address(rt: &impl Abort, alloc: Global, digits: &[u8]) -> Address {
    Address {
        ton: 1,
        npi: 1,
        digits: text(rt, alloc, digits),
    }
}

/// The message of the submit_sm.
fn message(rt: &impl Abort, alloc: Global) -> Submission {
    let octets = b"Hi".to_vec(alloc).expect(rt, "memory");
    Submission {
        submitter: sme1(rt, alloc),
        target: sme1(rt, alloc),
        service_type: text(rt, alloc, b""),
        source: address(rt, alloc, b"144"),
        destination: address(rt, alloc, b"155"),
        esm_class: 0,
        protocol_id: 0,
        priority_flag: 0,
        registered_delivery: 1,
        data_coding: 0,
        schedule: at(rt, 0),
        expiry: at(rt, 259200),
        content: Content::of(octets, Tlvs::empty(alloc)),
    }
}

/// The reply to the only request that waits, once the message has been tried.
fn reply_to(rt: &impl Abort, alloc: Global, held: Held, tried: Chain) -> Reply {
    let held = Box::new(alloc, held).expect(rt, "memory");
    let mut queue = Queue::make(alloc).expect(rt, "memory");
    queue.push(held);
    let replies = queue.replies(1, &tried);
    drop(queue);
    drop(tried);
    let mut replies = replies.expect(rt, "memory");
    let reply = replies.pop();
    drop(replies);
    reply.expect(rt, "a reply")
}

/// That the message is taken of the request of a ticket.
pub fn accepted(rt: &impl Abort, alloc: Global, ticket: u64) -> Reply {
    let tried = chain(rt, alloc, ATTEMPTED);
    let since = at(rt, 0);
    let taken = Taken::make(alloc, tried.id(), since, message(rt, alloc)).expect(rt, "a message");
    let held = Held::begin(ticket, since, Request::Submit(taken));
    reply_to(rt, alloc, held, tried)
}
