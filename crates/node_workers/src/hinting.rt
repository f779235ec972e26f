//! Hints of what may be granted at a node.

ghost use Rattle.std.specs.Prelude.{◌≡◌, IfErr};
ghost use Rattle.node_threads.specs.Refusal.TheVariants.{NoSuchNode};

use mc_types::NodeNo;
use node_threads::{Begins, Cluster, Refusal};
use stable_store::StableStore;
use std::sync::Wait;
use worker_parts::Hints;

/// Puts the ids of the messages whose attempt may be granted at a node into the hints, the lowest first, until there is no room for one or none is left. Each
/// is asked for by itself under the node's lock; it takes no memory. NoSuchNode exactly if there is no such node.
///
/// Who hands in a step at a node hints behind it. One who has not done so has lost nothing: what may be granted is found as well behind a later step.
pub fn hint<S: StableStore, L: Begins, R: Wait>(
    cluster: &Cluster<S, L>,
    rt: &R,
    node: NodeNo,
    hints: &Hints,
) -> Result<(), Refusal>
    ensures { IfErr result (λ refusal. refusal ≡ NoSuchNode) }
{
    let mut after = None;
    while let Some(id) = cluster.grantable_after(rt, node, after)? {
        if !hints.put(rt, id) {
            break;
        }
        after = Some(id);
    }
    Ok(())
}
