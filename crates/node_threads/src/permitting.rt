//! Steps that stand on a life of their node, under its lock.

ghost use Rattle.std.specs.Prelude.{◌≡◌, ◌⊎◌, ◌||◌, ◌<◌, ◌≤◌, ◌∷◌, ◌++◌, [], None, IfErr, IfOk, IfSome, IsErrOf, OnErr, OnOk, false, true};
ghost use Rattle.node_core.specs.Nodes.{IsLifeOf};
ghost use Rattle.node_core.specs.Permits.{IsAnswered, is_life_of};
ghost use Rattle.journal_parts.specs.Entries.{IsSound, number_by};
ghost use Rattle.journal_parts.specs.Faults.{fault_at};
ghost use Rattle.journal_parts.specs.Members.{IsAct, IsNewest, packet_halted};
ghost use Rattle.journal_parts.specs.Refusals.{IsRefusedAs};
ghost use Rattle.journal_parts.specs.declared.refusal.Refusal.TheVariants.{Broken, Damaged, Device, Full, Memory, NotGranted, Spent, StrangeLife};
ghost use Rattle.node_threads.specs.Refusing.{HandsBack, IsNoGrant};
ghost use Rattle.journal_parts.specs.Step.TheVariants as steps;

use delivery::Outcome;
use journal_parts::{
    Begins, Claim, EntryCopies, Member, Ready, Refusal, Register, Seat, Silent, Slip, Step,
};
use mc_types::{MsgId, NodeNo, Slot};
use node_core::{Life, Permit};
use stable_store::StableStore;
use std::sync::{Mutex, Wait};

/// Claims room for the entry of a step by which no packet comes. Full, or else Broken, which comes only if the node takes no step.
pub(crate) fn admitted<S: StableStore, L: Begins, R: Wait>(
    rt: &R,
    member: &Member<S, L>,
    register: &Mutex<Register<L>>,
    step: &Step,
) -> Result<Claim<L>, Refusal>
    requires act { IsAct step.now }
    requires unasked { number_by step.now ≡ None }
    ensures works { OnOk result (member.now.post.node.broken ≡ false) }
    ensures astray { OnOk result (member.now.post.astray ≡ false) }
    ensures broken { IsErrOf result Broken → (member.now.post.astray || member.now.post.node.broken) ≡ true }
    ensures faults { IfErr result (λ refusal. (refusal ≡ Full) ⊎ (refusal ≡ Broken)) }
{
    let (claim, _packet) = register.lock(rt).admit(step, member.is_broken())?;
    Ok(claim)
}

/// Grants an attempt at a node that is not Broken, in a life of its incarnation: the permit, and the entry for those that share it. There is room for its slip
/// then. Grant exactly as `Node::prepare_step` says; else an `Err` is want of memory.
pub(crate) fn granted<'l, S: StableStore, L: Begins>(
    member: &mut Member<S, L>,
    seat: &mut Seat<L>,
    life: &'l Life,
    id: MsgId,
) -> Result<(Permit<'l>, EntryCopies), Refusal>
    requires works { member.old.post.node.broken ≡ false }
    requires sound { member.old.post.astray ≡ false }
    requires life { is_life_of member.old.post.node life.now ≡ true }
    ensures step { IfOk result (λ granted. granted.1.done.step ≡ steps.Grant member.old.post.node.kept.setup.node id) }
    ensures finished { IfOk result (λ granted. granted.1.unfinished ≡ None) }
    ensures own { IfOk result (λ granted. member.new.own ≡ member.old.own ++ granted.1 ∷ []) }
    ensures life { IfOk result (λ granted. granted.0.life ≡ life.now) }
    ensures room { OnOk result (1 ≤ seat.new.room) }
    ensures slips { seat.new.slips ≡ seat.old.slips }
    ensures refused { IfErr result (IsRefusedAs (fault_at member.old.post.node (steps.Grant member.old.post.node.kept.setup.node id))) }
    ensures faults { IfErr result (λ refusal. IsNoGrant refusal ⊎ (refusal ≡ Memory)) }
{
    let step = Step::Grant {
        node: member.node(),
        id,
    };
    let ready = member.prepare(step, None)?;
    seat.make_room()?;
    Ok(member.commit_grant(life, ready))
}

/// The node of a permit.
pub(crate) fn node_of(permit: &Permit<'_>) -> NodeNo
    ensures { result ≡ permit.now.life.node }
{
    permit.life().node()
}

/// What came of the attempt of a permit.
pub(crate) struct Answer<'l> {
    pub(crate) permit: Permit<'l>,
    pub(crate) outcome: Outcome,
}

/// Closes the attempt of a permit under the lock of its node, and enters the step in the journal. An `Err` adds no slip, and leaves no claim on the journal.
/// Memory, and Full before the step, hand the permit back.
pub(crate) fn conclude<'l, S: StableStore, L: Begins, R: Wait>(
    rt: &R,
    member: &mut Member<S, L>,
    register: &Mutex<Register<L>>,
    seat: &mut Seat<L>,
    answer: Answer<'l>,
) -> Result<Slip, (Refusal, Option<Permit<'l>>)>
    ensures step { IfOk result (λ slip. slip.entry.done.step ≡ steps.Answered answer.entry.permit.life.node answer.entry.permit.slot answer.entry.outcome) }
    ensures slips { IfOk result (λ slip. seat.new.slips ≡ seat.old.slips ++ slip ∷ []) }
    ensures err { OnErr result (seat.new.slips ≡ seat.old.slips) }
    ensures permit { IfErr result (λ failed. HandsBack answer.entry.permit failed.0 failed.1) }
    ensures faults { IfErr result (λ failed. (failed.0 ≡ StrangeLife) ⊎ (failed.0 ≡ Full) ⊎ (failed.0 ≡ Broken) ⊎ (failed.0 ≡ NotGranted)
        ⊎ (failed.0 ≡ Memory)) }
{
    let Answer { permit, outcome } = answer;
    if is_of(member, &permit) {
        conclude_own(rt, member, register, seat, Answer { permit, outcome })
    } else {
        permit.abandon();
        Err((Refusal::StrangeLife, None))
    }
}

/// The same, if the permit is of this node and incarnation.
fn conclude_own<'l, S: StableStore, L: Begins, R: Wait>(
    rt: &R,
    member: &mut Member<S, L>,
    register: &Mutex<Register<L>>,
    seat: &mut Seat<L>,
    answer: Answer<'l>,
) -> Result<Slip, (Refusal, Option<Permit<'l>>)>
    requires { is_life_of member.old.post.node answer.permit.life ≡ true }
    ensures step { IfOk result (λ slip. slip.entry.done.step ≡ steps.Answered answer.entry.permit.life.node answer.entry.permit.slot answer.entry.outcome) }
    ensures slips { IfOk result (λ slip. seat.new.slips ≡ seat.old.slips ++ slip ∷ []) }
    ensures err { OnErr result (seat.new.slips ≡ seat.old.slips) }
    ensures permit { IfErr result (λ failed. HandsBack answer.entry.permit failed.0 failed.1) }
    ensures faults { IfErr result (λ failed. (failed.0 ≡ Full) ⊎ (failed.0 ≡ Broken) ⊎ (failed.0 ≡ NotGranted) ⊎ (failed.0 ≡ Memory)) }
{
    match answer_admitted(rt, member, register, &answer) {
        Ok(claim) => match concluded(member, seat, answer) {
            Ok(copies) => entered(&mut register.lock(rt), member, seat, claim, copies),
            Err(failed) => Err(given_back(rt, register, claim, failed)),
        },
        Err(refusal) => Err(handed_back(refusal, answer)),
    }
}

/// Claims room for the entry of a conclusion. Full, or else Broken.
fn answer_admitted<S: StableStore, L: Begins, R: Wait>(
    rt: &R,
    member: &Member<S, L>,
    register: &Mutex<Register<L>>,
    answer: &Answer<'_>,
) -> Result<Claim<L>, Refusal>
    ensures works { OnOk result (member.now.post.node.broken ≡ false) }
    ensures astray { OnOk result (member.now.post.astray ≡ false) }
    ensures faults { IfErr result (λ refusal. (refusal ≡ Full) ⊎ (refusal ≡ Broken)) }
{
    let step = Step::Answered {
        node: member.node(),
        slot: answer.permit.slot(),
        outcome: answer.outcome,
    };
    admitted(rt, member, register, &step)
}

/// Gives the claim of a conclusion back that failed.
fn given_back<'l, L: Begins, R: Wait>(
    rt: &R,
    register: &Mutex<Register<L>>,
    claim: Claim<L>,
    failed: (Refusal, Option<Permit<'l>>),
) -> (Refusal, Option<Permit<'l>>)
    ensures refusal { result.0 ≡ failed.entry.0 }
    ensures permit { result.1 ≡ failed.entry.1 }
{
    register.lock(rt).give_back(claim);
    failed
}

/// Enters a conclusion in the journal, whose lock is held. An `Err` is Full, and hands no permit back.
fn entered<'l, S: StableStore, L: Begins>(
    register: &mut Register<L>,
    member: &Member<S, L>,
    seat: &mut Seat<L>,
    claim: Claim<L>,
    copies: EntryCopies,
) -> Result<Slip, (Refusal, Option<Permit<'l>>)>
    requires newest { IsNewest copies member.now.own }
    requires finished { copies.unfinished ≡ None }
    requires room { 1 ≤ seat.old.room }
    ensures entry { IfOk result (λ slip. slip.entry ≡ copies) }
    ensures slips { IfOk result (λ slip. seat.new.slips ≡ seat.old.slips ++ slip ∷ []) }
    ensures err { OnErr result (seat.new.slips ≡ seat.old.slips) }
    ensures full { IfErr result (λ failed. failed.0 ≡ Full) }
    ensures spent { IfErr result (λ failed. failed.1 ≡ None) }
{
    match register.enter(member, seat, claim, copies) {
        Some(slip) => Ok(slip),
        None => Err((Refusal::Full, None)),
    }
}

/// What is left of a permit after a refusal: Memory and Full hand it back.
fn handed_back<'l>(refusal: Refusal, answer: Answer<'l>) -> (Refusal, Option<Permit<'l>>)
    ensures refusal { result.0 ≡ refusal }
    ensures permit { HandsBack answer.entry.permit result.0 result.1 }
{
    let Answer { permit, outcome: _ } = answer;
    match refusal {
        Refusal::Memory | Refusal::Full => (refusal, Some(permit)),
        _ => {
            permit.abandon();
            (refusal, None)
        }
    }
}

/// Whether a permit is of this node, in its incarnation.
fn is_of<S: StableStore, L: Begins>(member: &Member<S, L>, permit: &Permit<'_>) -> bool
    ensures { result ≡ is_life_of member.now.post.node permit.now.life }
{
    member.is_life(permit.life())
}

/// Closes the attempt of a permit of this node and incarnation, which is not Broken, with what came of it: the entry for those that share it. There is room for
/// its slip then. NotGranted exactly as `Node::prepare_step` says; else Memory, which alone hands the permit back.
fn concluded<'l, S: StableStore, L: Begins>(
    member: &mut Member<S, L>,
    seat: &mut Seat<L>,
    answer: Answer<'l>,
) -> Result<EntryCopies, (Refusal, Option<Permit<'l>>)>
    requires works { member.old.post.node.broken ≡ false }
    requires sound { member.old.post.astray ≡ false }
    requires life { is_life_of member.old.post.node answer.permit.life ≡ true }
    ensures step { IfOk result (λ copies. copies.done.step
        ≡ steps.Answered member.old.post.node.kept.setup.node answer.entry.permit.slot answer.entry.outcome) }
    ensures finished { IfOk result (λ copies. copies.unfinished ≡ None) }
    ensures own { IfOk result (λ copies. member.new.own ≡ member.old.own ++ copies ∷ []) }
    ensures room { OnOk result (1 ≤ seat.new.room) }
    ensures slips { seat.new.slips ≡ seat.old.slips }
    ensures permit { IfErr result (λ failed. HandsBack answer.entry.permit failed.0 failed.1) }
    ensures faults { IfErr result (λ failed. (failed.0 ≡ NotGranted) ⊎ (failed.0 ≡ Memory)) }
{
    let Answer { permit, outcome } = answer;
    match answer_prepared(member, seat, permit.slot(), outcome) {
        Ok(ready) => Ok(member.commit_answered(permit, ready)),
        Err(Refusal::Memory) => Err((Refusal::Memory, Some(permit))),
        Err(refusal) => {
            permit.abandon();
            Err((refusal, None))
        }
    }
}

/// Prepares what came of the attempt in a slot, and makes room for its slip. NotGranted exactly as `Node::prepare_step` says; else an `Err` is want of memory.
fn answer_prepared<S: StableStore, L: Begins>(
    member: &mut Member<S, L>,
    seat: &mut Seat<L>,
    slot: Slot,
    outcome: Outcome,
) -> Result<Ready, Refusal>
    ensures was { IfOk result (λ ready. ready.was ≡ member.new.post.node.kept) }
    ensures step { IfOk result (λ ready. ready.done.step ≡ steps.Answered member.old.post.node.kept.setup.node slot outcome) }
    ensures answered { IfOk result (λ ready. IsAnswered slot ready.input) }
    ensures post { member.new.post ≡ member.old.post }
    ensures own { member.new.own ≡ member.old.own }
    ensures entries { OnOk result (1 ≤ member.new.room) }
    ensures room { OnOk result (1 ≤ seat.new.room) }
    ensures slips { seat.new.slips ≡ seat.old.slips }
    ensures refused { IfErr result (IsRefusedAs (fault_at member.old.post.node (steps.Answered member.old.post.node.kept.setup.node slot outcome))) }
{
    let step = Step::Answered {
        node: member.node(),
        slot,
        outcome,
    };
    let ready = member.prepare(step, None)?;
    seat.make_room()?;
    Ok(ready)
}

/// Starts a node anew, in a life of its incarnation: the new life, which is a later one, and the entry for those that share it. There is room for its slip
/// then. An `Err` is Device, Spent, Damaged or Memory; Damaged comes also if it is astray. Each hands back the life of the node, which is the one that was
/// handed in but for Damaged.
pub(crate) fn started<S: StableStore, L: Begins>(
    member: &mut Member<S, L>,
    seat: &mut Seat<L>,
    life: Life,
) -> Result<(Life, EntryCopies), (Refusal, Life)>
    requires life { IsLifeOf member.old.post.node life }
    ensures step { IfOk result (λ started. started.1.done.step ≡ steps.Restart member.old.post.node.kept.setup.node) }
    ensures sound { IfOk result (λ started. IsSound started.1) }
    ensures own { IfOk result (λ started. member.new.own ≡ member.old.own ++ started.1 ∷ []) }
    ensures room { OnOk result (1 ≤ seat.new.room) }
    ensures slips { seat.new.slips ≡ seat.old.slips }
    ensures node { IfOk result (λ started. started.0.node ≡ life.node) }
    ensures later { IfOk result (λ started. life.incarnation < started.0.incarnation) }
    ensures back { IfErr result (λ failed. failed.1.node ≡ life.node) }
    ensures same { IfErr result (λ failed. (failed.0 ≡ Damaged) ⊎ (failed.1 ≡ life)) }
    ensures faults { IfErr result (λ failed. (failed.0 ≡ Device) ⊎ (failed.0 ≡ Damaged) ⊎ (failed.0 ≡ Spent) ⊎ (failed.0 ≡ Memory)) }
{
    if member.is_astray() {
        return Err((Refusal::Damaged, life));
    }
    match prepared(member, seat) {
        Ok(anew) => member.start_anew(life, anew),
        Err(refusal) => Err((refusal, life)),
    }
}

/// Prepares a start anew, and makes room for its slip. An `Err` is Memory.
fn prepared<S: StableStore, L: Begins>(
    member: &mut Member<S, L>,
    seat: &mut Seat<L>,
) -> Result<Silent, Refusal>
    ensures step { IfOk result (λ anew. anew.step ≡ steps.Restart member.old.post.node.kept.setup.node) }
    ensures packet { IfOk result (λ anew. anew.packet ≡ packet_halted member.old.post.halted) }
    ensures post { member.new.post ≡ member.old.post }
    ensures own { member.new.own ≡ member.old.own }
    ensures entries { OnOk result (1 ≤ member.new.room) }
    ensures room { OnOk result (1 ≤ seat.new.room) }
    ensures slips { seat.new.slips ≡ seat.old.slips }
    ensures memory { IfErr result (λ refusal. refusal ≡ Memory) }
{
    let anew = member.prepare_anew()?;
    seat.make_room()?;
    Ok(anew)
}
