//! The node of the tests, and what is handed in to it.

ghost use Rattle.std.specs.Prelude.{◌≡◌, None};
ghost use Rattle.mc_model.specs.message.Ids.{IsNode};
ghost use Rattle.node_core.specs.Setups.{IsSetup};
ghost use Rattle.node_threads.specs.Defaults.{from_one};

use mc_types::NodeNo;
use node_core::{Life, Node, Setup, open_node};
use node_threads::{Action, Begins, Cluster, Defaults, Refusal, Seat};
use stable_store::ListStore;
use std::alloc::Global;
use std::process::Abort;
use std::sync::Wait;

/// How many parts a ledger of slips has.
pub const PARTS: u64 = 1_000_000;

/// For how many seconds a message is valid that does not say it.
const VALIDITY: u32 = 172800;

/// What the nodes go by: each incarnation begins with the serial 1.
pub fn defaults(rt: &impl Abort) -> Defaults
    ensures { result ≡ from_one 172800 }
{
    Defaults::make(1, VALIDITY).expect(rt, "defaults")
}

/// The one node.
pub fn first(rt: &impl Abort) -> NodeNo {
    lines_of_tests::node(1).expect(rt, "a node")
}

/// It opens alone over a new store.
pub fn opened(rt: &impl Abort, alloc: Global) -> (Node<ListStore>, Life)
    ensures node { IsNode result.0.kept.setup.node }
    ensures setup { IsSetup result.0.kept.setup }
    ensures alone { result.0.kept.setup.nodes ≡ 1 }
    ensures finished { result.0.unfinished ≡ None }
{
    let setup = Setup::make(first(rt), 1, 1, 172800).expect(rt, "a setup");
    match open_node(alloc, ListStore::make(alloc), setup) {
        Ok((node, life)) => {
            node.bounds();
            (node, life)
        }
        Err(_) => panic!(rt; "it opens"),
    }
}

/// Hands in the packets from this number on, until there is none; the number of the first that is missing.
pub fn settled<L: Begins, R: Wait + Abort>(
    rt: &R,
    cluster: &Cluster<ListStore, L>,
    seat: &mut Seat<L>,
    from: u64,
) -> u64 {
    let mut number = from;
    for _ in 0..100u32 {
        let node = first(rt);
        match cluster.act(rt, seat, Action::Deliver { number, node }) {
            Ok(slip) => {
                drop(slip);
                number = number.checked_add(1).expect(rt, "a number");
            }
            Err(refusal) => {
                if refusal != Refusal::NoSuchPacket {
                    panic!(rt; "no other refusal");
                }
                break;
            }
        }
    }
    number
}
