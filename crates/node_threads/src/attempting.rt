//! An attempt that may be granted at a node.

ghost use Rattle.std.specs.Prelude.{◌≡◌, ◌⊎◌, ◌↔◌, false, IfErr, IfOk, IfSome, IsSome, None, Some, option_map};
ghost use Rattle.mc_model.specs.message.Chain.{taken_in};
ghost use Rattle.mc_model.specs.message.Submission.{Submission};
ghost use Rattle.mc_model.specs.synod.Packet.{slot_of};
ghost use Rattle.fate_chain.specs.Content.{is_long};
ghost use Rattle.node_core.specs.Input.TheVariants as inputs;
ghost use Rattle.node_core.specs.Nodes.{fault_in};
ghost use Rattle.journal_parts.specs.declared.refusal.Refusal.TheVariants.{Memory, NoSuchNode};

use crate::cluster::Cluster;
use fate_chain::Chain;
use journal_parts::{Begins, Member, Refusal};
use mc_types::{MsgId, NodeNo, Slot};
use pdu_codec::SystemId;
use stable_store::StableStore;
use std::alloc::AllocError;
use std::sync::Wait;

/// An attempt that may be granted: its slot, the account that the message goes to, and whether its text is too long for a short_message.
#[derive(Drop)]
pub struct Attempt {
    pub slot: Slot,
    pub account: SystemId,
    pub long: bool,
}

/// The attempt in which a chain ends. An `Err` is want of memory.
fn attempt_in(chain: &Chain) -> Result<Attempt, AllocError>
    ensures slot { IfOk result (λ attempt. attempt.slot ≡ slot_of chain.now.id chain.now.decrees) }
    ensures account { IfOk result (λ attempt. option_map (λ (taken : Submission). taken.target) (taken_in chain.now.decrees) ≡ Some attempt.account) }
    ensures long { IfOk result (λ attempt. option_map (λ (taken : Submission). is_long taken.text) (taken_in chain.now.decrees) ≡ Some attempt.long) }
{
    Ok(Attempt {
        slot: Slot {
            id: chain.id(),
            place: chain.place(),
        },
        account: chain.submission().target.copy()?,
        long: chain.submission().content.is_long(),
    })
}

/// The attempt of a message that a node would grant; none exactly if it would grant none, or is astray. An `Err` is want of memory.
fn attempt_of<S: StableStore, L: Begins>(
    member: &Member<S, L>,
    id: MsgId,
) -> Result<Option<Attempt>, AllocError>
    ensures granted { IfOk result (λ found. IsSome found ↔ (member.now.post.astray ≡ false) × (fault_in member.now.post.node (inputs.Grant id) ≡ None)) }
    ensures id { IfOk result (λ found. IfSome found (λ attempt. attempt.slot.id ≡ id)) }
{
    match member.attempt(id) {
        Some(chain) => Ok(Some(attempt_in(chain)?)),
        None => Ok(None),
    }
}

impl<S: StableStore, L: Begins> Cluster<S, L> {
    /// The attempt of a message that a node would grant, as it is once its lock is taken; none if it would grant none. It is a hint, on which nothing rests.
    /// NoSuchNode exactly if there is no such node; else an `Err` is want of memory.
    pub fn attempt<R: Wait>(
        &self,
        rt: &R,
        node: NodeNo,
        id: MsgId,
    ) -> Result<Option<Attempt>, Refusal>
        ensures id { IfOk result (λ found. IfSome found (λ attempt. attempt.slot.id ≡ id)) }
        ensures faults { IfErr result (λ refusal. (refusal ≡ NoSuchNode) ⊎ (refusal ≡ Memory)) }
    {
        let Ok(lock) = self.member(node) else {
            return Err(Refusal::NoSuchNode);
        };
        let guard = lock.lock(rt);
        let member = &*guard;
        if member.node() != node {
            return Err(Refusal::NoSuchNode);
        }
        Ok(attempt_of(member, id)?)
    }
}
