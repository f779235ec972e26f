//! A message of one node, from its submit_sm to its delivery, and a start anew.

ghost use Rattle.std.specs.Prelude.{◌≡◌};
ghost use Rattle.journal_parts.specs.Members.{IsBeginning};
ghost use Rattle.journal_parts.specs.Numbers.{none_sent};

use crate::same::assert_same;
use crate::tables::{PARTS, first, opened, settled};
use delivery::Outcome;
use lines_of_tests::{account, first_id, request};
use mc_types::Moment;
use node_core::{Life, Node};
use node_threads::{Action, Begins, Cluster, Reach, Seat};
use stable_store::ListStore;
use std::alloc::Global;
use std::marker::Brand;
use std::process::Abort;
use std::sync::Wait;
use std::sync::ledger::Blank;

/// Hands in the submit_sm of a message.
pub fn submitted<L: Begins, R: Wait + Abort>(
    rt: &R,
    alloc: Global,
    cluster: &Cluster<ListStore, L>,
    seat: &mut Seat<L>,
) {
    let submit = Action::Request {
        node: first(rt),
        account: account(alloc).expect(rt, "an account"),
        request: request(alloc, "submit_with_receipt").expect(rt, "a request"),
    };
    drop(cluster.act(rt, seat, submit).expect(rt, "a slip"));
}

/// Hands in a tick at which sme1 is up.
pub fn attempted<L: Begins, R: Wait + Abort>(
    rt: &R,
    alloc: Global,
    cluster: &Cluster<ListStore, L>,
    seat: &mut Seat<L>,
) {
    let mut up = Vec::new(alloc);
    up.push(account(alloc).expect(rt, "an account"))
        .expect(rt, "memory");
    let tick = Action::Tick {
        node: first(rt),
        moment: Moment::least(),
        reach: Reach::of_all(up),
    };
    drop(cluster.act(rt, seat, tick).expect(rt, "a slip"));
}

/// Has the attempt granted, and delivered.
pub fn delivered<L: Begins, R: Wait + Abort>(
    rt: &R,
    cluster: &Cluster<ListStore, L>,
    seat: &mut Seat<L>,
    life: &Life,
) {
    let id = first_id().expect(rt, "an id");
    let Ok((slip, permit)) = cluster.grant(rt, seat, life, id) else {
        panic!(rt; "it is granted");
    };
    drop(slip);
    match cluster.answered(rt, seat, permit, Outcome::Delivered) {
        Ok(slip) => drop(slip),
        Err((_, permit)) => {
            if let Some(permit) = permit {
                permit.abandon();
            }
            panic!(rt; "it is answered");
        }
    }
}

/// The numbers of the first packets that are missing behind the submit_sm, the attempt and its delivery, and how many slips there are once the node started
/// anew.
fn lived<L: Begins, R: Wait + Abort>(
    rt: &R,
    alloc: Global,
    blank: Blank,
    node: Node<ListStore>,
    life: Life,
) -> [u64; 4]
    requires name { blank.name ≡ L.name }
    requires parts { blank.parts ≡ L.parts }
    requires all { blank.parts ≡ 1000000 }
    requires numbers { L.numbers ≡ none_sent }
    requires begins { IsBeginning L.cluster L.kept node }
    requires alone { L.cluster.nodes ≡ 1 }
{
    let mut nodes = Vec::new(alloc);
    nodes.push(node).expect(rt, "memory");
    let cluster = Cluster::<ListStore, L>::start(alloc, blank, nodes).expect(rt, "a cluster");
    let mut seat = cluster.seat(rt).expect(rt, "a seat");
    submitted(rt, alloc, &cluster, &mut seat);
    let taken = settled(rt, &cluster, &mut seat, 1);
    attempted(rt, alloc, &cluster, &mut seat);
    let chosen = settled(rt, &cluster, &mut seat, taken);
    delivered(rt, &cluster, &mut seat, &life);
    let reported = settled(rt, &cluster, &mut seat, chosen);
    match cluster.restart(rt, &mut seat, life) {
        Ok(started) => drop(started),
        Err(failed) => drop(failed),
    }
    [taken, chosen, reported, seat.slips().len() as u64]
}

/// Each round of a node alone sends a Prepare, a Promise, a Propose and a Voted, and each packet is one step. The delivery takes two: of the fate, and of the Told
/// behind it.
#[test]
fn a_message_is_delivered_and_its_node_starts_anew(rt: HostRuntime) {
    let alloc = rt.alloc();
    let (node, life) = opened(&rt, alloc);
    let numbers = lived::<Brand, HostRuntime>(&rt, alloc, Blank::new(PARTS), node, life);
    assert_same(&rt, &numbers, &[5, 9, 17, 21]);
}
