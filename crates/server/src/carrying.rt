//! The packets of a node.

use crate::shift::{Shift, ring};
use crate::trouble::Trouble;
use mc_types::{Moment, MsgId};
use node_workers::{Begins, Packet, Seat, Slip, Step};
use pdu_codec::SystemId;
use serve_nodes::{Ending, Wake};
use stable_store::GroupStore;
use std::rt::Clock;
use std::sync::Wait;
use std::sync::atomic::Ordering;
use waiting_requests::Answer;

/// Hands in the packets that are told of, until the life of the node ends. One in whose step the node's store failed is handed in again in the next life.
pub(crate) fn carry_on<S: GroupStore, L: Begins, R: Wait + Eprint + Clock>(
    shift: &Shift<'_, S, L, R>,
) {
    let Some(mut seat) = shift.seat() else {
        shift.shared.house.end_by(shift.rt, Ending::Threads);
        return;
    };
    hand_in(shift, &mut seat, shift.shared.house.newest());
    for wake in shift.station.woken.iter(shift.rt) {
        match wake {
            Wake::End => break,
            Wake::Sent(newest) => hand_in(shift, &mut seat, newest),
        }
    }
    shift.give_back(seat);
}

/// Hands in all packets up to this number that the node was not handed, as far as none is refused.
fn hand_in<S: GroupStore, L: Begins, R: Wait + Eprint + Clock>(
    shift: &Shift<'_, S, L, R>,
    seat: &mut Seat<L>,
    newest: u64,
) {
    if let Err(trouble) = carry_to(shift, seat, newest) {
        shift.meet(trouble);
    }
}

/// Hands in all packets up to this number that the node was not handed, and those that were sent meanwhile: many at once, so that what waits for a save waits
/// for one.
fn carry_to<S: GroupStore, L: Begins, R: Wait + Eprint + Clock>(
    shift: &Shift<'_, S, L, R>,
    seat: &mut Seat<L>,
    newest: u64,
) -> Result<(), Trouble> {
    for _ in shift.rt.forever() {
        let next = shift.station.next.load(Ordering::SeqCst);
        let last = newest.max(shift.shared.house.newest());
        if next > last || shift.is_over() || !carry(shift, seat, next, last)? {
            break;
        }
    }
    Ok(())
}

/// Hands in packets from the first of these numbers on up to the last: what they give out goes out; whether any came.
fn carry<S: GroupStore, L: Begins, R: Wait + Eprint + Clock>(
    shift: &Shift<'_, S, L, R>,
    seat: &mut Seat<L>,
    first: u64,
    last: u64,
) -> Result<bool, Trouble> {
    let before = seat.slips().len();
    let came = shift
        .shared
        .cluster
        .carry(shift.rt, seat, shift.node(), first, last);
    let told = tell_each(shift, seat, before);
    let behind = first.saturating_add(came?);
    told?;
    shift.station.next.store(behind, Ordering::SeqCst);
    for number in first..behind {
        shift.shared.house.pass(shift.station, number);
    }
    Ok(behind > first)
}

/// What the steps gave out whose slips stand behind so many others goes out, each for itself. An `Err` is what the first of them met that met any.
fn tell_each<S: GroupStore, L: Begins, R: Wait + Eprint + Clock>(
    shift: &Shift<'_, S, L, R>,
    seat: &Seat<L>,
    before: usize,
) -> Result<(), Trouble> {
    let mut told = Ok(());
    for slip in seat.slips().iter().skip(before) {
        told = told.and(tell(shift, slip));
    }
    told
}

/// What the step of a packet gave out goes out.
fn tell<S: GroupStore, L: Begins, R: Wait + Eprint + Clock>(
    shift: &Shift<'_, S, L, R>,
    slip: &Slip,
) -> Result<(), Trouble> {
    ring(shift.rt, &shift.shared.house, slip);
    let outputs = slip.outputs();
    let chosen = chosen_by(slip);
    if outputs.replies.is_empty() && outputs.receipts.is_empty() && chosen.is_none() {
        return Ok(());
    }
    let mut guard = shift.station.site.lock(shift.rt);
    let site = &mut *guard;
    if let Some(Packet::Voted { vote, .. }) = slip.packet() {
        site.backlog.note(&vote.chain);
    }
    site.tell(shift.rt, outputs)?;
    let due = due_by(slip, site.clock());
    let heard = match chosen {
        Some(id) => shift.hear_of(site, id),
        None => Ok(()),
    };
    drop(guard);
    if let Some(target) = due {
        shift
            .shared
            .house
            .call(shift.rt, shift.node(), target, number_of(slip));
    }
    heard
}

/// The number of the packet that came by a step, 0 if none did.
fn number_of(slip: &Slip) -> u64 {
    match slip.step() {
        Step::Deliver { number, .. } => *number,
        _ => 0,
    }
}

/// The message of which an attempt may have been chosen by a step: that of the vote that came.
fn chosen_by(slip: &Slip) -> Option<MsgId> {
    match slip.packet() {
        Some(Packet::Voted { vote, .. }) => Some(vote.slot().id),
        _ => None,
    }
}

/// For which account a message became due by a step, at this moment: the vote that came has its submit_sm answered, and its schedule is not later.
fn due_by(slip: &Slip, clock: Moment) -> Option<&SystemId> {
    let Some(Packet::Voted { vote, .. }) = slip.packet() else {
        return None;
    };
    let submission = vote.chain.submission();
    let is_due = submission.schedule.seconds() <= clock.seconds();
    let mut replies = slip.outputs().replies.iter();
    let is_accepted = replies.any(|reply| matches!(reply.answer(), Answer::Accepted));
    (is_due && is_accepted).then_some(&submission.target)
}
