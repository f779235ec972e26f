//! What is handed in at a cluster.

use lines_of_tests::{account, node, request};
use mc_types::{Moment, NodeNo};
use node_threads::{Action, Begins, Cluster, Reach, Refusal, Seat, Slip};
use stable_store::{GroupStore, StableStore};
use std::alloc::Global;
use std::process::Abort;
use std::sync::Wait;

/// More packets than are ever sent.
const MOST: u64 = 100;

/// The node with this number.
pub fn numbered(rt: &impl Abort, number: u64) -> NodeNo {
    node(number).expect(rt, "a node")
}

/// Hands in a request of sme1 to a node, by its word.
pub fn asked<S: StableStore, L: Begins, R: Wait + Abort>(
    rt: &R,
    alloc: Global,
    cluster: &Cluster<S, L>,
    seat: &mut Seat<L>,
    (node, word): (u64, &str),
) -> Slip {
    let request = Action::Request {
        node: numbered(rt, node),
        account: account(alloc).expect(rt, "an account"),
        request: request(alloc, word).expect(rt, "a request"),
    };
    cluster.act(rt, seat, request).expect(rt, "a slip")
}

/// Hands in a tick to node 1, at which nobody is up, or sme1 is.
pub fn ticked<S: StableStore, L: Begins, R: Wait + Abort>(
    rt: &R,
    alloc: Global,
    cluster: &Cluster<S, L>,
    seat: &mut Seat<L>,
    is_up: bool,
) -> Result<Slip, Refusal> {
    let mut up = Vec::new(alloc);
    if is_up {
        let account = account(alloc).expect(rt, "an account");
        up.push(account).expect(rt, "memory");
    }
    let tick = Action::Tick {
        node: numbered(rt, 1),
        moment: Moment::least(),
        reach: Reach::of_all(up),
    };
    cluster.act(rt, seat, tick)
}

/// The packet of this number comes to each of these nodes, or to none: why it is refused at one of them.
fn come<S: StableStore, L: Begins, R: Wait + Abort>(
    rt: &R,
    cluster: &Cluster<S, L>,
    seat: &mut Seat<L>,
    nodes: &[u64],
    number: u64,
) -> Option<Refusal> {
    for node in nodes {
        let node = numbered(rt, *node);
        if let Err(refusal) = cluster.act(rt, seat, Action::Deliver { number, node }) {
            return Some(refusal);
        }
    }
    None
}

/// Hands in the packets from this number on to each of these nodes, until one is refused: its number, and why.
pub fn settled<S: StableStore, L: Begins, R: Wait + Abort>(
    rt: &R,
    cluster: &Cluster<S, L>,
    seat: &mut Seat<L>,
    nodes: &[u64],
    from: u64,
) -> (u64, Refusal) {
    for number in from..MOST {
        if let Some(refusal) = come(rt, cluster, seat, nodes, number) {
            return (number, refusal);
        }
    }
    panic!(rt; "too many packets");
}

/// Hands in the packets from this number on to node 1, as many at once as may be, until they are refused or none is left: the number of the first that is left, and
/// that of the refusal.
pub fn carried<S: GroupStore, L: Begins, R: Wait + Abort>(
    rt: &R,
    cluster: &Cluster<S, L>,
    seat: &mut Seat<L>,
    from: u64,
) -> (u64, Option<u8>) {
    let mut next = from;
    for _ in 0..MOST {
        match cluster.carry(rt, seat, numbered(rt, 1), next, u64::MAX) {
            Ok(0) => return (next, None),
            Ok(count) => next = next.saturating_add(count),
            Err(refusal) => return (next, Some(refusal.number())),
        }
    }
    panic!(rt; "too many packets");
}
