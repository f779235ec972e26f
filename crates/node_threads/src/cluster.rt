//! A cluster of nodes in threads.

ghost use Rattle.std.specs.Prelude.{◌≡◌, ◌≤◌, ◌∷◌, ◌++◌, [], IfErr, IfOk, IfSome, OnErr, length, ◌⊎◌, ◌<◌, IsErrOf, IsSome};
ghost use Rattle.std.specs.Vec.{vec_capacity, vec_len};
ghost use Rattle.journal_parts.specs.Step.TheVariants as steps;
ghost use Rattle.journal_parts.specs.Entries.{number_by};
ghost use Rattle.journal_parts.specs.Numbers.{none_sent};
ghost use Rattle.journal_parts.specs.declared.refusal.Refusal.TheVariants.{Broken, Damaged, Device, Full, Memory};
ghost use Rattle.journal_parts.specs.declared.refusal.Refusal.TheVariants.{NoSeat, NoSuchNode, NoSuchPacket, NotGranted, Spent, StrangeLife};
ghost use Rattle.node_threads.specs.Actions.{AllBegin, step_of};
ghost use Rattle.node_threads.specs.Refusing.{HandsBack, IsNoGrant};

use crate::action::Action;
use crate::permitting::{Answer, admitted, conclude, granted, node_of, started};
use crate::taking::take;
use delivery::Outcome;
use journal_parts::{Begins, Member, Post, Refusal, Register, Seat, Slip, Step};
use mc_types::{MsgId, NodeNo};
use node_core::{Life, Node, Permit};
use stable_store::StableStore;
use std::alloc::{AllocError, Global};
use std::collections::VecDeque;
use std::sync::ledger::Blank;
use std::sync::{Mutex, Wait};

/// One to nine nodes of a cluster, each under a lock of its own, and the journal of their steps under another. A node's lock is taken first, and the journal's
/// for a moment then; none is held while another node works.
#[derive(Drop)]
pub struct Cluster<S: StableStore, L: Begins> {
    pub(crate) alloc: Global,
    // Node n stands at the place n - 1.
    pub(crate) locks: Vec<Mutex<Member<S, L>>>,
    pub(crate) register: Mutex<Register<L>>,
    pub(crate) rooms: Rooms<S, L>,
    pub(crate) ghost count: { vec_len locks ≡ L.cluster.nodes },
    pub(crate) ghost members_room: { vec_len locks ≤ vec_capacity rooms.members },
    pub(crate) ghost posts_room: { vec_len locks ≤ vec_capacity rooms.posts },
}

/// Room for the nodes once they are out of their locks, since `close` takes no memory.
#[derive(Drop)]
pub(crate) struct Rooms<S: StableStore, L: Begins> {
    pub(crate) members: Vec<Member<S, L>>,
    pub(crate) posts: Vec<Post<S>>,
    pub(crate) ghost no_member: { members.items ≡ [] },
    pub(crate) ghost no_post: { posts.items ≡ [] },
}

impl<S: StableStore + Drop, L: Begins> Cluster<S, L> {
    /// The nodes of a cluster where its journal begins, node 1 first, and a ledger of slips with 1,000,000 parts, one for each seat. An `Err` is want of
    /// memory.
    pub fn start(
        alloc: Global,
        blank: Blank,
        nodes: Vec<Node<S>>,
    ) -> Result<Cluster<S, L>, AllocError>
        requires name { blank.name ≡ L.name }
        requires parts { (blank.parts ≡ L.parts) × (blank.parts ≡ 1000000) }
        requires numbers { L.numbers ≡ none_sent }
        requires begin { AllBegin L.cluster L.kept nodes.items }
        requires count { length nodes.items ≡ L.cluster.nodes }
    {
        let rooms = Rooms {
            members: Vec::with_capacity(alloc, nodes.len())?,
            posts: Vec::with_capacity(alloc, nodes.len())?,
        };
        Ok(Cluster {
            alloc,
            locks: locks_of(alloc, nodes)?,
            register: Mutex::new(Register::open(alloc, blank)?),
            rooms,
        })
    }
}

impl<S: StableStore, L: Begins> Cluster<S, L> {
    /// A seat with no slip. NoSeat exactly if none of its 1,000,000 is left.
    pub fn seat<R: Wait>(&self, rt: &R) -> Result<Seat<L>, Refusal>
        ensures seat { IfOk result (λ seat. seat.slips ≡ []) }
        ensures none { IfErr result (λ refusal. refusal ≡ NoSeat) }
    {
        self.register
            .lock(rt)
            .seat(self.alloc)
            .ok_or(Refusal::NoSeat)
    }

    /// Hands in a packet, a request or a tick to its node: the slip of the step, of which the seat keeps a copy. Of several refusals NoSuchNode is told first,
    /// and then the one with the lowest number, but Memory last: Full, Broken, NoSuchPacket, Device. NoSuchPacket and Device come at a packet alone. A refusal
    /// adds no slip.
    pub fn act<R: Wait>(&self, rt: &R, seat: &mut Seat<L>, action: Action) -> Result<Slip, Refusal>
        ensures step { IfOk result (λ slip. slip.entry.done.step ≡ step_of action) }
        ensures slips { IfOk result (λ slip. seat.new.slips ≡ seat.old.slips ++ slip ∷ []) }
        ensures err { OnErr result (seat.new.slips ≡ seat.old.slips) }
        ensures absent { IsErrOf result NoSuchPacket → IsSome (number_by (step_of action)) }
        ensures device { IsErrOf result Device → IsSome (number_by (step_of action)) }
        ensures faults { IfErr result (λ refusal. (refusal ≡ NoSuchNode) ⊎ (refusal ≡ Full) ⊎ (refusal ≡ Broken) ⊎ (refusal ≡ NoSuchPacket)
            ⊎ (refusal ≡ Device) ⊎ (refusal ≡ Memory)) }
    {
        let node = action.node();
        let mut guard = self.member(node)?.lock(rt);
        let member = &mut *guard;
        if member.node() != node {
            return Err(Refusal::NoSuchNode);
        }
        take(rt, member, &self.register, seat, action.into_step())
    }

    /// Grants the attempt in which the known chain of a message ends, in a life of its node: the slip of the step, of which the seat keeps a copy, and the
    /// permit. Of several refusals StrangeLife is told first, and then the one with the lowest number, but Memory last: Full, Broken, Grant. A refusal adds no
    /// slip.
    pub fn grant<'l, R: Wait>(
        &self,
        rt: &R,
        seat: &mut Seat<L>,
        life: &'l Life,
        id: MsgId,
    ) -> Result<(Slip, Permit<'l>), Refusal>
        ensures step { IfOk result (λ granted. granted.0.entry.done.step ≡ steps.Grant life.now.node id) }
        ensures slips { IfOk result (λ granted. seat.new.slips ≡ seat.old.slips ++ granted.0 ∷ []) }
        ensures life { IfOk result (λ granted. granted.1.life ≡ life.now) }
        ensures err { OnErr result (seat.new.slips ≡ seat.old.slips) }
        ensures faults { IfErr result (λ refusal. (refusal ≡ NoSuchNode) ⊎ (refusal ≡ StrangeLife) ⊎ (refusal ≡ Full) ⊎ (refusal ≡ Broken) ⊎ IsNoGrant refusal
            ⊎ (refusal ≡ Memory)) }
    {
        let node = life.node();
        let mut guard = self.member(node)?.lock(rt);
        let member = &mut *guard;
        if !member.is_life(life) {
            return Err(Refusal::StrangeLife);
        }
        let claim = admitted(rt, member, &self.register, &Step::Grant { node, id })?;
        match granted(member, seat, life, id) {
            Ok((permit, copies)) => match self
                .register
                .lock(rt)
                .enter(member, seat, claim, copies)
            {
                Some(slip) => Ok((slip, permit)),
                None => {
                    permit.abandon();
                    Err(Refusal::Full)
                }
            },
            Err(refusal) => {
                self.register.lock(rt).give_back(claim);
                Err(refusal)
            }
        }
    }

    /// Closes the attempt of a permit with what came of it, which spends the permit: the slip of the step, of which the seat keeps a copy. Of several refusals
    /// StrangeLife is told first, and then the one with the lowest number, but Memory last: Full, Broken, NotGranted. Memory, and Full before the step, hand
    /// the permit back; a refusal adds no slip.
    pub fn answered<'l, R: Wait>(
        &self,
        rt: &R,
        seat: &mut Seat<L>,
        permit: Permit<'l>,
        outcome: Outcome,
    ) -> Result<Slip, (Refusal, Option<Permit<'l>>)>
        ensures step { IfOk result (λ slip. slip.entry.done.step ≡ steps.Answered permit.entry.life.node permit.entry.slot outcome) }
        ensures slips { IfOk result (λ slip. seat.new.slips ≡ seat.old.slips ++ slip ∷ []) }
        ensures err { OnErr result (seat.new.slips ≡ seat.old.slips) }
        ensures permit { IfErr result (λ failed. HandsBack permit.entry failed.0 failed.1) }
        ensures faults { IfErr result (λ failed. (failed.0 ≡ NoSuchNode) ⊎ (failed.0 ≡ StrangeLife) ⊎ (failed.0 ≡ Full) ⊎ (failed.0 ≡ Broken)
            ⊎ (failed.0 ≡ NotGranted) ⊎ (failed.0 ≡ Memory)) }
    {
        match self.member(node_of(&permit)) {
            Ok(lock) => {
                let mut guard = lock.lock(rt);
                let member = &mut *guard;
                let answer = Answer { permit, outcome };
                conclude(rt, member, &self.register, seat, answer)
            }
            Err(refusal) => {
                permit.abandon();
                Err((refusal, None))
            }
        }
    }

    /// Starts a node anew, in its next incarnation, with its stable records and nothing else: the slip of the step, of which the seat keeps a copy, and the new
    /// life, which is a later one of the same node. Of several refusals StrangeLife is told first, and then the one with the lowest number, but Memory last:
    /// Full, Device, Spent, Damaged. A refusal hands back the life of the node, and adds no slip: it is the one that was handed in, but for Damaged, if the
    /// store gave an incarnation that was used, and Full behind the step.
    pub fn restart<R: Wait>(
        &self,
        rt: &R,
        seat: &mut Seat<L>,
        life: Life,
    ) -> Result<(Slip, Life), (Refusal, Life)>
        ensures step { IfOk result (λ started. started.0.entry.done.step ≡ steps.Restart life.node) }
        ensures slips { IfOk result (λ started. seat.new.slips ≡ seat.old.slips ++ started.0 ∷ []) }
        ensures err { OnErr result (seat.new.slips ≡ seat.old.slips) }
        ensures node { IfOk result (λ started. started.1.node ≡ life.node) }
        ensures later { IfOk result (λ started. life.incarnation < started.1.incarnation) }
        ensures back { IfErr result (λ failed. failed.1.node ≡ life.node) }
        ensures same { IfErr result (λ failed. (failed.0 ≡ Full) ⊎ (failed.0 ≡ Damaged) ⊎ (failed.1 ≡ life)) }
        ensures faults { IfErr result (λ failed. (failed.0 ≡ NoSuchNode) ⊎ (failed.0 ≡ StrangeLife) ⊎ (failed.0 ≡ Full) ⊎ (failed.0 ≡ Device)
            ⊎ (failed.0 ≡ Spent) ⊎ (failed.0 ≡ Damaged) ⊎ (failed.0 ≡ Memory)) }
    {
        let Ok(lock) = self.member(life.node()) else {
            return Err((Refusal::NoSuchNode, life));
        };
        let mut guard = lock.lock(rt);
        let member = &mut *guard;
        if !member.is_life(&life) {
            return Err((Refusal::StrangeLife, life));
        }
        let claim = match self.register.lock(rt).admit_anew() {
            Ok(claim) => claim,
            Err(refusal) => return Err((refusal, life)),
        };
        match started(member, seat, life) {
            Ok((life, copies)) => match self.register.lock(rt).enter(member, seat, claim, copies) {
                Some(slip) => Ok((slip, life)),
                None => Err((Refusal::Full, life)),
            },
            Err(failed) => {
                self.register.lock(rt).give_back(claim);
                Err(failed)
            }
        }
    }

    /// The node with this number, under its lock. NoSuchNode exactly if there is none.
    pub(crate) fn member(&self, node: NodeNo) -> Result<&Mutex<Member<S, L>>, Refusal>
        ensures { IfErr result (λ refusal. refusal ≡ NoSuchNode) }
    {
        self.locks
            .get(node.number() as usize - 1)
            .ok_or(Refusal::NoSuchNode)
    }
}

/// Each node under a lock of its own, where the journal begins.
fn locks_of<S: StableStore + Drop, L: Begins>(
    alloc: Global,
    nodes: Vec<Node<S>>,
) -> Result<Vec<Mutex<Member<S, L>>>, AllocError>
    requires { AllBegin L.cluster L.kept nodes.items }
    ensures { IfOk result (λ locks. vec_len locks ≡ length nodes.items) }
{
    let mut locks = Vec::with_capacity(alloc, nodes.len())?;
    let mut nodes = VecDeque::from_vec(nodes);
    while let Some(node) = nodes.pop_front() {
        locks.push(Mutex::new(Member::begin(alloc, node)))?;
    }
    Ok(locks)
}
