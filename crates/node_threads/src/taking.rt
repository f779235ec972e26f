//! Steps that are taken under the lock of their node.

ghost use Rattle.std.specs.Prelude.{◌≡◌, ◌⊎◌, ◌||◌, ◌≤◌, ◌∷◌, ◌++◌, [], None, IfErr, IfOk, IsErrOf, IsSome, OnErr, OnOk, false, true};
ghost use Rattle.journal_parts.specs.Entries.{number_by};
ghost use Rattle.journal_parts.specs.Faults.{IsCopied, fault_at};
ghost use Rattle.journal_parts.specs.Members.{CanBeTaken, IsAct};
ghost use Rattle.journal_parts.specs.Refusals.{IsRefusedAs};
ghost use Rattle.journal_parts.specs.declared.refusal.Refusal.TheVariants.{Broken, Device, Full, Memory, NoSuchPacket};
ghost use Rattle.journal_parts.specs.Step.TheVariants as steps;
ghost use Rattle.journal_parts.specs.Taking.{node_at};

use journal_parts::{Begins, EntryCopies, Member, Packet, Refusal, Register, Seat, Slip, Step};
use mc_types::NodeNo;
use stable_store::StableStore;
use std::sync::{Mutex, Wait};

/// Takes a step of a node whose lock is held, and enters it in the journal. The journal's lock is held twice, but not while the step is prepared and saved. An
/// `Err` adds no slip, and leaves no claim on the journal. Of several refusals the one with the lowest number is told first, but Memory last: Full,
/// Broken, NoSuchPacket, Device. NoSuchPacket and Device come at the step of a packet alone.
pub(crate) fn take<S: StableStore, L: Begins, R: Wait>(
    rt: &R,
    member: &mut Member<S, L>,
    register: &Mutex<Register<L>>,
    seat: &mut Seat<L>,
    step: Step,
) -> Result<Slip, Refusal>
    requires node { node_at step ≡ member.old.post.node.kept.setup.node }
    requires act { IsAct step }
    ensures step { IfOk result (λ slip. slip.entry.done.step ≡ step) }
    ensures slips { IfOk result (λ slip. seat.new.slips ≡ seat.old.slips ++ slip ∷ []) }
    ensures own { IfOk result (λ slip. member.new.own ≡ member.old.own ++ slip.entry ∷ []) }
    ensures err { OnErr result (seat.new.slips ≡ seat.old.slips) }
    ensures setup { member.new.post.node.kept.setup ≡ member.old.post.node.kept.setup }
    ensures works { OnOk result ((member.old.post.astray || member.old.post.node.broken) ≡ false) }
    ensures broken { IsErrOf result Broken → (member.old.post.astray || member.old.post.node.broken) ≡ true }
    ensures absent { IsErrOf result NoSuchPacket → IsSome (number_by step) }
    ensures device { IsErrOf result Device → IsSome (number_by step) }
    ensures faults { IsCopied step → IfErr result (λ refusal.
        (refusal ≡ Full) ⊎ (refusal ≡ Broken) ⊎ (refusal ≡ NoSuchPacket) ⊎ (refusal ≡ Device) ⊎ (refusal ≡ Memory)) }
{
    let (claim, packet) = register.lock(rt).admit(&step, member.is_broken())?;
    match committed(member, seat, step, packet) {
        Ok(copies) => register
            .lock(rt)
            .enter(member, seat, claim, copies)
            .ok_or(Refusal::Full),
        Err(refusal) => {
            register.lock(rt).give_back(claim);
            Err(refusal)
        }
    }
}

/// Takes a step of a node that works: the entry for those that share it. There is room for its slip then. An `Err` is Device, at the step of a packet alone,
/// Memory, or as the step is refused; then the node has no other entry.
fn committed<S: StableStore, L: Begins>(
    member: &mut Member<S, L>,
    seat: &mut Seat<L>,
    step: Step,
    packet: Option<Packet>,
) -> Result<EntryCopies, Refusal>
    requires node { node_at step ≡ member.old.post.node.kept.setup.node }
    requires taken { CanBeTaken step packet }
    requires works { member.old.post.node.broken ≡ false }
    requires sound { member.old.post.astray ≡ false }
    ensures step { IfOk result (λ copies. copies.done.step ≡ step) }
    ensures finished { IfOk result (λ copies. copies.unfinished ≡ None) }
    ensures own { IfOk result (λ copies. member.new.own ≡ member.old.own ++ copies ∷ []) }
    ensures err { OnErr result (member.new.own ≡ member.old.own) }
    ensures setup { member.new.post.node.kept.setup ≡ member.old.post.node.kept.setup }
    ensures room { OnOk result (1 ≤ seat.new.room) }
    ensures slips { seat.new.slips ≡ seat.old.slips }
    ensures device { IsErrOf result Device → IsSome (number_by step) }
    ensures faults { IfErr result (λ refusal. (refusal ≡ Device) ⊎ (refusal ≡ Memory) ⊎ IsRefusedAs (fault_at member.old.post.node step) refusal) }
{
    match step {
        Step::Deliver { number, node } if may_be_quiet(&packet) => {
            delivered(member, seat, number, node, packet)
        }
        step => stepped(member, seat, step, packet),
    }
}

/// Whether nodes take some packets of this kind quietly. It is a hint, on which nothing rests.
fn may_be_quiet(packet: &Option<Packet>) -> bool {
    matches!(
        packet,
        Some(Packet::Promise { .. } | Packet::Voted { .. } | Packet::Tell { .. })
    )
}

/// The same of the step of a packet, which the node may take quietly.
fn delivered<S: StableStore, L: Begins>(
    member: &mut Member<S, L>,
    seat: &mut Seat<L>,
    number: u64,
    node: NodeNo,
    packet: Option<Packet>,
) -> Result<EntryCopies, Refusal>
    requires node { node ≡ member.old.post.node.kept.setup.node }
    requires taken { CanBeTaken (steps.Deliver number node) packet }
    requires works { member.old.post.node.broken ≡ false }
    requires sound { member.old.post.astray ≡ false }
    ensures step { IfOk result (λ copies. copies.done.step ≡ steps.Deliver number node) }
    ensures finished { IfOk result (λ copies. copies.unfinished ≡ None) }
    ensures own { IfOk result (λ copies. member.new.own ≡ member.old.own ++ copies ∷ []) }
    ensures err { OnErr result (member.new.own ≡ member.old.own) }
    ensures setup { member.new.post.node.kept.setup ≡ member.old.post.node.kept.setup }
    ensures room { OnOk result (1 ≤ seat.new.room) }
    ensures slips { seat.new.slips ≡ seat.old.slips }
    ensures faults { IfErr result (λ refusal. (refusal ≡ Device) ⊎ (refusal ≡ Memory)
        ⊎ IsRefusedAs (fault_at member.old.post.node (steps.Deliver number node)) refusal) }
{
    let silent = member.prepare_silent(Step::Deliver { number, node }, packet)?;
    seat.make_room()?;
    match member.take_quietly(silent) {
        Ok(copies) => Ok(copies),
        Err(silent) => {
            let packet = silent.into_packet()?;
            stepped(member, seat, Step::Deliver { number, node }, packet)
        }
    }
}

/// The same of any step, by what it leads to.
fn stepped<S: StableStore, L: Begins>(
    member: &mut Member<S, L>,
    seat: &mut Seat<L>,
    step: Step,
    packet: Option<Packet>,
) -> Result<EntryCopies, Refusal>
    requires node { node_at step ≡ member.old.post.node.kept.setup.node }
    requires taken { CanBeTaken step packet }
    requires works { member.old.post.node.broken ≡ false }
    requires sound { member.old.post.astray ≡ false }
    ensures step { IfOk result (λ copies. copies.done.step ≡ step) }
    ensures finished { IfOk result (λ copies. copies.unfinished ≡ None) }
    ensures own { IfOk result (λ copies. member.new.own ≡ member.old.own ++ copies ∷ []) }
    ensures err { OnErr result (member.new.own ≡ member.old.own) }
    ensures setup { member.new.post.node.kept.setup ≡ member.old.post.node.kept.setup }
    ensures room { OnOk result (1 ≤ seat.new.room) }
    ensures slips { seat.new.slips ≡ seat.old.slips }
    ensures device { IsErrOf result Device → IsSome (number_by step) }
    ensures faults { IfErr result (λ refusal. (refusal ≡ Device) ⊎ (refusal ≡ Memory) ⊎ IsRefusedAs (fault_at member.old.post.node step) refusal) }
{
    let ready = member.prepare(step, packet)?;
    seat.make_room()?;
    member.commit(ready)
}
