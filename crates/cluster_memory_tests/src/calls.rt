//! The calls of a cluster, each made again if there was no memory for it.

use crate::openings::{TRIES, one_place, only_node};
use crate::same::assert_same;
use delivery::Outcome;
use desk::Request;
use lines_of_tests::{Answer, account, first_id, request, told_in};
use mc_types::Moment;
use node_core::{Life, Permit};
use node_threads::{Action, Begins, Cluster, Reach, Refusal, Seat};
use stable_store::ListStore;
use std::alloc::Global;
use std::process::Abort;
use std::sync::Wait;

fn assert_memory(rt: &impl Abort, refusal: Refusal) {
    assert_same(rt, &refusal, &Refusal::Memory);
}

/// The same, but for a submit_sm without a route: there was no memory for the account to which its message goes.
fn routed(request: Request) -> Option<Request> {
    match request {
        Request::Submit(message, None) => {
            drop(message);
            None
        }
        other => Some(other),
    }
}

/// A request of sme1, by its word; none if there was no memory.
fn asking(rt: &impl Abort, alloc: Global, word: &str) -> Option<Action> {
    let request = routed(request(alloc, word)?)?;
    match account(alloc) {
        Some(account) => Some(Action::Request {
            node: only_node(rt),
            account,
            request,
        }),
        None => {
            drop(request);
            None
        }
    }
}

/// A tick at which sme1 is up; none if there was no memory.
fn ticking(rt: &impl Abort, alloc: Global) -> Option<Action> {
    let mut up = one_place(rt, alloc);
    up.push(account(alloc)?).expect(rt, "room");
    Some(Action::Tick {
        node: only_node(rt),
        moment: Moment::least(),
        reach: Reach::of_all(up),
    })
}

/// What the outputs of a step tell; none if there was no memory.
fn acted<L: Begins, R: Wait + Abort>(
    rt: &R,
    cluster: &Cluster<ListStore, L>,
    seat: &mut Seat<L>,
    action: Action,
) -> Option<Answer> {
    match cluster.act(rt, seat, action) {
        Ok(slip) => {
            let told = told_in(slip.outputs());
            drop(slip);
            Some(told)
        }
        Err(refusal) => {
            assert_memory(rt, refusal);
            None
        }
    }
}

/// Hands in a request by its word: what the outputs tell.
pub fn asked<L: Begins, R: Wait + Abort>(
    rt: &R,
    alloc: Global,
    cluster: &Cluster<ListStore, L>,
    seat: &mut Seat<L>,
    word: &str,
) -> Answer {
    for _ in 0..TRIES {
        if let Some(action) = asking(rt, alloc, word)
            && let Some(told) = acted(rt, cluster, seat, action)
        {
            return told;
        }
    }
    panic!(rt; "memory");
}

/// Hands in a tick at which sme1 is up: what the outputs tell.
pub fn ticked<L: Begins, R: Wait + Abort>(
    rt: &R,
    alloc: Global,
    cluster: &Cluster<ListStore, L>,
    seat: &mut Seat<L>,
) -> Answer {
    for _ in 0..TRIES {
        if let Some(action) = ticking(rt, alloc)
            && let Some(told) = acted(rt, cluster, seat, action)
        {
            return told;
        }
    }
    panic!(rt; "memory");
}

/// Whether there is a packet with this number, which comes then; or why it is refused else.
fn tried_packet<L: Begins, R: Wait + Abort>(
    rt: &R,
    cluster: &Cluster<ListStore, L>,
    seat: &mut Seat<L>,
    number: u64,
) -> Result<bool, Refusal> {
    let node = only_node(rt);
    match cluster.act(rt, seat, Action::Deliver { number, node }) {
        Ok(slip) => {
            drop(slip);
            Ok(true)
        }
        Err(Refusal::NoSuchPacket) => Ok(false),
        Err(refusal) => Err(refusal),
    }
}

fn came<L: Begins, R: Wait + Abort>(
    rt: &R,
    cluster: &Cluster<ListStore, L>,
    seat: &mut Seat<L>,
    number: u64,
) -> bool {
    for _ in 0..TRIES {
        match tried_packet(rt, cluster, seat, number) {
            Ok(came) => return came,
            Err(refusal) => assert_memory(rt, refusal),
        }
    }
    panic!(rt; "memory");
}

/// Hands in the packets from this number on, until there is none; the number of the first that is missing.
pub fn settled<L: Begins, R: Wait + Abort>(
    rt: &R,
    cluster: &Cluster<ListStore, L>,
    seat: &mut Seat<L>,
    from: u64,
) -> u64 {
    let mut number = from;
    for _ in 0..100u32 {
        if !came(rt, cluster, seat, number) {
            break;
        }
        number = number.checked_add(1).expect(rt, "a number");
    }
    number
}

/// The permit of the first attempt; none if there was no memory.
fn tried_grant<'l, L: Begins, R: Wait + Abort>(
    rt: &R,
    cluster: &Cluster<ListStore, L>,
    seat: &mut Seat<L>,
    life: &'l Life,
) -> Option<Permit<'l>> {
    let id = first_id().expect(rt, "an id");
    match cluster.grant(rt, seat, life, id) {
        Ok((slip, permit)) => {
            drop(slip);
            Some(permit)
        }
        Err(refusal) => {
            assert_memory(rt, refusal);
            None
        }
    }
}

/// The permit of the first attempt.
pub fn granted<'l, L: Begins, R: Wait + Abort>(
    rt: &R,
    cluster: &Cluster<ListStore, L>,
    seat: &mut Seat<L>,
    life: &'l Life,
) -> Permit<'l> {
    for _ in 0..TRIES {
        if let Some(permit) = tried_grant(rt, cluster, seat, life) {
            return permit;
        }
    }
    panic!(rt; "memory");
}

/// The permit that comes back for want of memory.
fn handed_back<'l>(rt: &impl Abort, refusal: Refusal, back: Option<Permit<'l>>) -> Permit<'l> {
    assert_memory(rt, refusal);
    match back {
        Some(permit) => permit,
        None => panic!(rt; "a permit comes back"),
    }
}

/// Hands in that the attempt of a permit was delivered: the permit comes back if there was no memory.
fn tried_conclusion<'l, L: Begins, R: Wait + Abort>(
    rt: &R,
    cluster: &Cluster<ListStore, L>,
    seat: &mut Seat<L>,
    permit: Permit<'l>,
) -> Option<Permit<'l>> {
    match cluster.answered(rt, seat, permit, Outcome::Delivered) {
        Ok(slip) => {
            drop(slip);
            None
        }
        Err((refusal, back)) => Some(handed_back(rt, refusal, back)),
    }
}

/// Hands in that the attempt of a permit was delivered.
pub fn concluded<L: Begins, R: Wait + Abort>(
    rt: &R,
    cluster: &Cluster<ListStore, L>,
    seat: &mut Seat<L>,
    permit: Permit<'_>,
) {
    let Some(back) = tried_conclusion(rt, cluster, seat, permit) else {
        return;
    };
    if let Some(again) = tried_conclusion(rt, cluster, seat, back) {
        again.abandon();
        panic!(rt; "memory");
    }
}

/// The next life of the node, which starts anew; its life comes back if there was no memory.
fn tried_restart<L: Begins, R: Wait + Abort>(
    rt: &R,
    cluster: &Cluster<ListStore, L>,
    seat: &mut Seat<L>,
    life: Life,
) -> Result<Life, Life> {
    match cluster.restart(rt, seat, life) {
        Ok((slip, next)) => {
            drop(slip);
            Ok(next)
        }
        Err((refusal, back)) => {
            assert_memory(rt, refusal);
            Err(back)
        }
    }
}

/// The next life of the node, which starts anew.
pub fn restarted<L: Begins, R: Wait + Abort>(
    rt: &R,
    cluster: &Cluster<ListStore, L>,
    seat: &mut Seat<L>,
    life: Life,
) -> Life {
    let back = match tried_restart(rt, cluster, seat, life) {
        Ok(next) => return next,
        Err(back) => back,
    };
    match tried_restart(rt, cluster, seat, back) {
        Ok(next) => next,
        Err(_) => panic!(rt; "memory"),
    }
}
