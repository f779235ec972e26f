//! What may be granted at a node, as hints for those who deliver.

ghost use Rattle.std.specs.Prelude.{◌≡◌, ◌≤◌, IfErr, IfOk, IfSome};
ghost use Rattle.journal_parts.specs.Granting.{number_behind};
ghost use Rattle.journal_parts.specs.declared.refusal.Refusal.TheVariants.{NoSuchNode};

use crate::cluster::Cluster;
use journal_parts::{Begins, Refusal};
use mc_types::{MsgId, NodeNo};
use stable_store::StableStore;
use std::sync::Wait;

impl<S: StableStore, L: Begins> Cluster<S, L> {
    /// The lowest id above this one, or of all ids, of the messages whose attempt a node would grant, as it is once its lock is taken: asked again and again
    /// with the id that it gave, it tells all of them. It is a hint, on which nothing rests. NoSuchNode exactly if there is no such node. It takes no memory.
    pub fn grantable_after<R: Wait>(
        &self,
        rt: &R,
        node: NodeNo,
        after: Option<MsgId>,
    ) -> Result<Option<MsgId>, Refusal>
        ensures above { IfOk result (λ found. IfSome found (λ id. number_behind after ≤ id)) }
        ensures faults { IfErr result (λ refusal. refusal ≡ NoSuchNode) }
    {
        let Ok(lock) = self.member(node) else {
            return Err(Refusal::NoSuchNode);
        };
        let guard = lock.lock(rt);
        let member = &*guard;
        if member.node() != node {
            return Err(Refusal::NoSuchNode);
        }
        Ok(member.grantable_after(after))
    }
}
