//! What is done with all that wait, one after another.

ghost use Rattle.std.specs.Prelude.{◌≡◌, ◌==◌, ◌++◌, None, Some, filter, map, not, option_map, IfOk, IsSome, IsTrue, OnErr, OnOk};
ghost use Rattle.std.specs.Box.{box_value};
ghost use Rattle.std.specs.List.{list_any, position};
ghost use Rattle.std.specs.Option.{option_copied, option_to_list};
ghost use Rattle.std.specs.Vec.{vec_capacity};
ghost use Rattle.mc_model.specs.message.Chain.{taken_in};
ghost use Rattle.mc_model.specs.message.Submission.{Submission as SubmissionValue};
ghost use Rattle.node_model.specs.Answers.{replies_to, still_waits};
ghost use Rattle.node_model.specs.Packets.{settled_for};
ghost use Rattle.node_model.specs.Requests.{Ascend, held_at, is_untold, ticket_of, with_held};
ghost use Rattle.node_model.specs.Rules.{shown_to};
ghost use Rattle.node_model.specs.Starts.{cancels};
ghost use Rattle.node_model.specs.Ticks.{is_late, late_reply};
ghost use Rattle.synod_acceptor.specs.Packets.{packet_of};
ghost use Rattle.synod_acceptor.specs.Votes.{told_vote};
ghost use Rattle.waiting_requests.specs.Questions.{question_by};
ghost use Rattle.waiting_requests.specs.Queues.{boxed_in, is_answered, timely};
ghost use Rattle.waiting_requests.specs.Numbers.{least_of, lesser_from};
ghost use Rattle.waiting_requests.specs.Replying.{reply_given};
ghost use Rattle.waiting_requests.specs.Submits.{first_begun};
ghost use Rattle.waiting_requests.specs.Waiting.{held_of};

use crate::answer::Reply;
use crate::held::Held;
use crate::taken::Taken;
use fate_chain::{Chain, Submission};
use mc_types::{Incarnation, Moment, MsgId, NodeNo};
use std::alloc::{AllocError, Global};
use synod_acceptor::{Packet, Vote};

/// The request of a ticket.
pub(crate) fn find(held: &[Box<Held>], ticket: u64) -> Option<&Held>
    ensures { option_map held_of (option_copied result) ≡ held_at (boxed_in held.now) ticket }
{
    for one in held {
        if one.ticket() == ticket {
            return Some(one);
        }
    }
    None
}

/// Where the request of a ticket stands.
fn place_of(held: &[Box<Held>], ticket: u64) -> Option<usize>
    ensures { result ≡ position (λ b. ticket_of (held_of (box_value b)) == ticket) held.now }
{
    held.iter().position(|one| one.ticket() == ticket)
}

/// Puts a request in the place of the one of its ticket, if there is one.
fn replace_at(held: &mut [Box<Held>], new: Box<Held>)
    requires { Ascend (boxed_in held.old) }
    ensures { boxed_in held.new ≡ with_held (boxed_in held.old) (held_of (box_value new)) }
{
    if let Some(place) = place_of(held, new.ticket()) {
        held[place] = new;
    }
}

/// Puts a request in the place of the one of its ticket, if there is one; room stays as it is.
pub(crate) fn replace(held: &mut Vec<Box<Held>>, new: Box<Held>)
    requires { Ascend (boxed_in held.old.items) }
    ensures held { boxed_in held.new.items ≡ with_held (boxed_in held.old.items) (held_of (box_value new)) }
    ensures capacity { vec_capacity held.new ≡ vec_capacity held.old }
{
    replace_at(held, new);
}

/// The replies to those that have an answer once this chain is known, by which they may be settled.
pub(crate) fn replies(
    alloc: Global,
    held: &[Box<Held>],
    nodes: u8,
    chain: &Chain,
) -> Result<Vec<Reply>, AllocError>
    ensures replies { IfOk result (λ replies. map reply_given replies.items ≡ replies_to nodes (Some chain.now.decrees) chain.now.id
        (map (settled_for nodes chain.now.id chain.now.decrees) (boxed_in held.now))) }
    ensures memory { OnErr result (IsTrue (list_any (is_answered nodes chain.now.id chain.now.decrees) (boxed_in held.now))) }
{
    let mut replies = Vec::new(alloc);
    for one in held {
        put(&mut replies, one.reply(nodes, chain)?)?;
    }
    Ok(replies)
}

/// Puts a reply after the others, if there is one.
fn put(replies: &mut Vec<Reply>, reply: Option<Reply>) -> Result<(), AllocError>
    ensures memory { OnErr result (IsSome reply) }
    ensures replies { OnOk result (replies.new.items ≡ replies.old.items ++ option_to_list reply) }
{
    if let Some(reply) = reply {
        replies.push(reply)?;
    }
    Ok(())
}

/// The least id from this number on, of those that they are about which did not wait too long.
pub(crate) fn next_id(held: &[Box<Held>], clock: Moment, from: u64) -> Option<MsgId>
    ensures { result ≡ least_of from (timely clock (boxed_in held.now)) None }
{
    let mut least = None;
    for one in held {
        if !one.is_late(clock) {
            least = lesser_from(from, one.id(), least);
        }
    }
    least
}

/// An id, if it is this number at least and less than the other, if there is one; else the other.
fn lesser_from(from: u64, id: MsgId, least: Option<MsgId>) -> Option<MsgId>
    ensures { result ≡ lesser_from from id least }
{
    if id.number() < from {
        return least;
    }
    match least {
        Some(other) if other.number() <= id.number() => least,
        _ => Some(id),
    }
}

/// The replies to those that waited too long.
pub(crate) fn late(
    alloc: Global,
    held: &[Box<Held>],
    clock: Moment,
) -> Result<Vec<Reply>, AllocError>
    ensures replies { IfOk result (λ replies. map reply_given replies.items ≡ map late_reply (filter (is_late clock) (boxed_in held.now))) }
    ensures memory { OnErr result (IsTrue (list_any (is_late clock) (boxed_in held.now))) }
{
    let mut replies = Vec::new(alloc);
    for one in held {
        if one.is_late(clock) {
            replies.push(one.late_reply())?;
        }
    }
    Ok(replies)
}

/// The questions of those that did not wait too long and to which no majority told.
pub(crate) fn questions(
    alloc: Global,
    held: &[Box<Held>],
    clock: Moment,
    node: NodeNo,
    incarnation: Incarnation,
    nodes: u8,
) -> Result<Vec<Packet>, AllocError>
    ensures packets { IfOk result (λ packets. map packet_of packets.items
        ≡ map (question_by node incarnation) (filter (is_untold nodes) (timely clock (boxed_in held.now)))) }
    ensures memory { OnErr result (IsTrue (list_any (is_untold nodes) (timely clock (boxed_in held.now)))) }
{
    let mut packets = Vec::new(alloc);
    for one in held {
        if !one.is_late(clock) && one.is_untold(nodes) {
            packets.push(one.question(node, incarnation))?;
        }
    }
    Ok(packets)
}

/// The message of the first submit_sm of an id that did not wait too long.
pub(crate) fn first_taken(held: &[Box<Held>], clock: Moment, id: MsgId) -> Option<&Taken>
    ensures { option_copied result ≡ first_begun id (timely clock (boxed_in held.now)) }
{
    for one in held {
        if !one.is_late(clock)
            && let Some(taken) = one.taken(id)
        {
            return Some(taken);
        }
    }
    None
}

/// The highest of a vote and of those that were told to the requests of an id that did not wait too long.
pub(crate) fn shown<'a>(
    held: &'a [Box<Held>],
    clock: Moment,
    id: MsgId,
    told: Option<&'a Vote>,
) -> Option<&'a Vote>
    ensures { told_vote (option_copied result) ≡ shown_to id (timely clock (boxed_in held.now)) (told_vote (option_copied told.entry)) }
{
    let mut top = told;
    for one in held {
        if !one.is_late(clock) {
            top = one.shown(id, top);
        }
    }
    top
}

/// Whether one of them that did not wait too long is a settled cancel_sm of the message of an id, and matches it.
pub(crate) fn cancels(held: &[Box<Held>], clock: Moment, id: MsgId, message: &Submission) -> bool
    ensures { result ≡ list_any (cancels id message.now) (timely clock (boxed_in held.now)) }
{
    for one in held {
        if !one.is_late(clock) && one.cancels(id, message) {
            return true;
        }
    }
    false
}

/// Whether one of them is a cancel_sm that is settled once this chain is known, of the message of this chain, and matches it.
pub(crate) fn cancels_then(held: &[Box<Held>], nodes: u8, chain: &Chain) -> bool
    ensures { (message : SubmissionValue) → taken_in chain.now.decrees ≡ Some message →
        result ≡ list_any (cancels chain.now.id message) (map (settled_for nodes chain.now.id chain.now.decrees) (boxed_in held.now)) }
{
    for one in held {
        if one.cancels_then(nodes, chain) {
            return true;
        }
    }
    false
}

/// Settles those that are to be settled once this chain is known.
fn settle_each(held: &mut [Box<Held>], nodes: u8, chain: &Chain)
    ensures { boxed_in held.new ≡ map (settled_for nodes chain.now.id chain.now.decrees) (boxed_in held.old) }
{
    for one in held.iter_mut() {
        one.settle_for(nodes, chain);
    }
}

/// Settles those that are to be settled once this chain is known; room stays as it is.
pub(crate) fn settle(held: &mut Vec<Box<Held>>, nodes: u8, chain: &Chain)
    ensures held { boxed_in held.new.items ≡ map (settled_for nodes chain.now.id chain.now.decrees) (boxed_in held.old.items) }
    ensures capacity { vec_capacity held.new ≡ vec_capacity held.old }
{
    settle_each(held, nodes, chain);
}

/// Keeps those that still wait once this chain is known.
pub(crate) fn keep_waiting(held: &mut Vec<Box<Held>>, nodes: u8, chain: &Chain)
    ensures held { boxed_in held.new.items ≡ filter (still_waits nodes (Some chain.now.decrees) chain.now.id) (boxed_in held.old.items) }
    ensures capacity { vec_capacity held.new ≡ vec_capacity held.old }
{
    held.retain(|one| one.still_waits(nodes, chain));
}

/// Keeps those that did not wait too long.
pub(crate) fn keep_timely(held: &mut Vec<Box<Held>>, clock: Moment)
    ensures held { boxed_in held.new.items ≡ filter (λ h. not (is_late clock h)) (boxed_in held.old.items) }
    ensures capacity { vec_capacity held.new ≡ vec_capacity held.old }
{
    held.retain(|one| !one.is_late(clock));
}

/// Keeps those of other tickets.
pub(crate) fn keep_others(held: &mut Vec<Box<Held>>, ticket: u64)
    ensures held { boxed_in held.new.items ≡ filter (λ h. not (ticket_of h == ticket)) (boxed_in held.old.items) }
    ensures capacity { vec_capacity held.new ≡ vec_capacity held.old }
{
    held.retain(|one| one.ticket() != ticket);
}
