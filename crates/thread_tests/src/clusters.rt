//! What tests do with a cluster of three nodes.

use lines_of_tests::{account, node, request};
use mc_types::{Moment, NodeNo};
use node_threads::{Action, Begins, Cluster, Journal, Reach, Refusal, Seat, Slip};
use stable_store::ListStore;
use std::alloc::Global;
use std::process::Abort;
use std::sync::Wait;

/// The node with this number.
pub fn numbered(rt: &impl Abort, number: u64) -> NodeNo {
    node(number).expect(rt, "a node")
}

/// Hands in a request of sme1 to a node.
pub fn asked<L: Begins, R: Wait + Abort>(
    rt: &R,
    alloc: Global,
    cluster: &Cluster<ListStore, L>,
    seat: &mut Seat<L>,
    asked: (u64, &str),
) -> Slip {
    let (node, word) = asked;
    let request = Action::Request {
        node: numbered(rt, node),
        account: account(alloc).expect(rt, "an account"),
        request: request(alloc, word).expect(rt, "a request"),
    };
    cluster.act(rt, seat, request).expect(rt, "a slip")
}

/// Hands in a tick to a node, at which sme1 is up.
pub fn ticked<L: Begins, R: Wait + Abort>(
    rt: &R,
    alloc: Global,
    cluster: &Cluster<ListStore, L>,
    seat: &mut Seat<L>,
    node: u64,
) -> Slip {
    let mut up = Vec::new(alloc);
    up.push(account(alloc).expect(rt, "an account"))
        .expect(rt, "memory");
    let tick = Action::Tick {
        node: numbered(rt, node),
        moment: Moment::least(),
        reach: Reach::of_all(up),
    };
    cluster.act(rt, seat, tick).expect(rt, "a slip")
}

/// Whether there is a packet with this number, which comes to each of these nodes then.
fn came<L: Begins, R: Wait + Abort>(
    rt: &R,
    cluster: &Cluster<ListStore, L>,
    seat: &mut Seat<L>,
    nodes: &[u64],
    number: u64,
) -> bool {
    for node in nodes {
        let node = numbered(rt, *node);
        match cluster.act(rt, seat, Action::Deliver { number, node }) {
            Ok(slip) => drop(slip),
            Err(refusal) => {
                if refusal != Refusal::NoSuchPacket {
                    panic!(rt; "no other refusal");
                }
                return false;
            }
        }
    }
    true
}

/// Hands in the packets from this number on to each of these nodes, until there is none; the number of the first that is missing.
pub fn settled_at<L: Begins, R: Wait + Abort>(
    rt: &R,
    cluster: &Cluster<ListStore, L>,
    seat: &mut Seat<L>,
    nodes: &[u64],
    from: u64,
) -> u64 {
    let mut number = from;
    for _ in 0..100u32 {
        if !came(rt, cluster, seat, nodes, number) {
            break;
        }
        number = number.checked_add(1).expect(rt, "a number");
    }
    number
}

/// The journal of a cluster, as it closes with these seats.
pub fn closed<L: Begins>(
    rt: &impl Abort,
    cluster: Cluster<ListStore, L>,
    seats: Vec<Seat<L>>,
) -> Journal<ListStore> {
    match cluster.close(seats) {
        Ok(journal) => journal,
        Err(_) => panic!(rt; "no seat is missing"),
    }
}

/// The journal of a cluster, as it closes with two seats.
pub fn closed_by_two<L: Begins>(
    rt: &impl Abort,
    alloc: Global,
    cluster: Cluster<ListStore, L>,
    one: Seat<L>,
    other: Seat<L>,
) -> Journal<ListStore> {
    let mut seats = Vec::new(alloc);
    seats.push(one).expect(rt, "memory");
    seats.push(other).expect(rt, "memory");
    closed(rt, cluster, seats)
}
