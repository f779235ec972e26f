//! Several packets that are handed in to a node at once.

ghost use Rattle.std.specs.Prelude.{◌≡◌, ◌⊎◌, ◌<◌, ◌≤◌, ◌+◌, ◌++◌, ℕ, IfErr, IfOk, List, OnErr, OnOk, false, length, true};
ghost use Rattle.node_core.specs.Grouping.{HasJoined};
ghost use Rattle.journal_parts.specs.declared.refusal.Refusal.TheVariants.{Broken, Device, Full, Memory, NoSuchNode, NoSuchPacket};
ghost use Rattle.journal_parts.specs.Gathering.{AllDeliver, AreNumbered};
ghost use Rattle.journal_parts.specs.Batches.{IsOneMore};
ghost use Rattle.node_threads.specs.Carrying.{AreSplit, Carries, HasCome, HaveCome, IsRefusedSo};

use crate::cluster::Cluster;
use crate::taking::take;
use journal_parts::{Begins, Claims, Member, ReadyGroup, Refusal, Register, Seat, Step};
use mc_types::NodeNo;
use node_core::{JoinFault, StepGroup};
use stable_store::GroupStore;
use std::alloc::Global;
use std::sync::{Mutex, Wait};
use synod_acceptor::Packet;

/// Packets whose steps were joined, with their numbers; and the numbers of those whose steps save nothing: each of them is taken by itself.
#[derive(Drop)]
struct Gathering {
    group: StepGroup,
    numbers: Vec<u64>,
    apart: Vec<u64>,
    ghost count: { length numbers.items ≡ length group.packets },
}

/// Where packets are handed in.
#[derive(Drop)]
struct Door<'a, R, L: Begins> {
    rt: &'a R,
    alloc: Global,
    register: &'a Mutex<Register<L>>,
    node: NodeNo,
}

impl<S: GroupStore, L: Begins> Cluster<S, L> {
    /// Hands in packets to a node, from the first of these numbers on up to the last, as far as each is there, 64 at most and no two of one message by which the
    /// node may save something: how many these are. First come those by which it saves nothing, by ascending number, and then the others, all of whose changes
    /// are saved by one save. The seat has the slips of their steps. Refusals are those of `act` at a packet. One leaves the slips of what came before.
    pub fn carry<R: Wait>(
        &self,
        rt: &R,
        seat: &mut Seat<L>,
        node: NodeNo,
        first: u64,
        last: u64,
    ) -> Result<u64, Refusal>
        ensures carries { Carries node seat.old.slips seat.new.slips }
        ensures all { IfOk result (λ count. (number : ℕ) → first ≤ number → number < first + count → HasCome node number seat.old.slips seat.new.slips) }
        ensures faults { IfErr result (λ refusal. (refusal ≡ NoSuchNode) ⊎ IsRefusedSo refusal) }
    {
        let mut guard = self.member(node)?.lock(rt);
        let member = &mut *guard;
        if member.node() != node {
            return Err(Refusal::NoSuchNode);
        }
        let batch = self.register.lock(rt).batch(self.alloc, first, last)?;
        let door = Door {
            rt,
            alloc: self.alloc,
            register: &self.register,
            node,
        };
        take_each(&door, member, seat, batch.others.as_slice())?;
        take_saving(&door, member, seat, batch.saving.as_slice())?;
        Ok(batch.len())
    }
}

/// Takes the steps of packets, one behind the other, each with a save of its own.
fn take_each<S: GroupStore, L: Begins, R: Wait>(
    door: &Door<'_, R, L>,
    member: &mut Member<S, L>,
    seat: &mut Seat<L>,
    numbers: &[u64],
) -> Result<(), Refusal>
    requires node { door.now.node ≡ member.old.post.node.kept.setup.node }
    ensures carries { Carries door.now.node seat.old.slips seat.new.slips }
    ensures all { OnOk result (HaveCome door.now.node numbers.now seat.old.slips seat.new.slips) }
    ensures setup { member.new.post.node.kept.setup ≡ member.old.post.node.kept.setup }
    ensures faults { IfErr result IsRefusedSo }
{
    for number in numbers {
        let step = Step::Deliver {
            number: *number,
            node: door.node,
        };
        drop(take(door.rt, member, door.register, seat, step)?);
    }
    Ok(())
}

/// Takes the steps of packets by which something may be saved: those of several by one save.
fn take_saving<S: GroupStore, L: Begins, R: Wait>(
    door: &Door<'_, R, L>,
    member: &mut Member<S, L>,
    seat: &mut Seat<L>,
    numbers: &[u64],
) -> Result<(), Refusal>
    requires node { door.now.node ≡ member.old.post.node.kept.setup.node }
    ensures carries { Carries door.now.node seat.old.slips seat.new.slips }
    ensures all { OnOk result (HaveCome door.now.node numbers.now seat.old.slips seat.new.slips) }
    ensures faults { IfErr result IsRefusedSo }
{
    if numbers.len() < 2 {
        return take_each(door, member, seat, numbers);
    }
    let mut claims = Claims::none();
    match prepared(door, member, seat, &mut claims, numbers) {
        Ok((ready, apart)) => {
            take_all(door, member, seat, claims, ready)?;
            take_each(door, member, seat, apart.as_slice())
        }
        Err(refusal) => {
            door.register.lock(door.rt).give_back_all(claims);
            Err(refusal)
        }
    }
}

/// Takes the steps that were prepared to be saved together, and enters them in the journal.
fn take_all<S: GroupStore, L: Begins, R: Wait>(
    door: &Door<'_, R, L>,
    member: &mut Member<S, L>,
    seat: &mut Seat<L>,
    claims: Claims<L>,
    ready: ReadyGroup,
) -> Result<(), Refusal>
    requires was { ready.was ≡ member.old.post.node.kept }
    requires steps { AllDeliver door.now.node ready.dones }
    requires sound { member.old.post.astray ≡ false }
    requires room { length ready.dones ≤ member.old.room }
    requires slips { length ready.dones ≤ seat.old.room }
    ensures carries { Carries door.now.node seat.old.slips seat.new.slips }
    ensures all { OnOk result ((numbers : List ℕ) → AreNumbered door.now.node numbers ready.dones →
        HaveCome door.now.node numbers seat.old.slips seat.new.slips) }
    ensures setup { member.new.post.node.kept.setup ≡ member.old.post.node.kept.setup }
    ensures faults { IfErr result IsRefusedSo }
{
    let (copies, fault) = member.commit_all(ready);
    let entered = door
        .register
        .lock(door.rt)
        .enter_each(member, seat, claims, copies);
    match fault {
        Some(refusal) => Err(refusal),
        None if entered => Ok(()),
        None => Err(Refusal::Full),
    }
}

/// Prepares the steps of packets to be saved together, with room for their entries and slips; and the numbers of those whose steps save nothing. The node stays
/// as it is. An `Err` leaves the claims that were made.
fn prepared<S: GroupStore, L: Begins, R: Wait>(
    door: &Door<'_, R, L>,
    member: &mut Member<S, L>,
    seat: &mut Seat<L>,
    claims: &mut Claims<L>,
    numbers: &[u64],
) -> Result<(ReadyGroup, Vec<u64>), Refusal>
    requires node { door.now.node ≡ member.old.post.node.kept.setup.node }
    ensures was { IfOk result (λ prepared. prepared.0.was ≡ member.new.post.node.kept) }
    ensures steps { IfOk result (λ prepared. AllDeliver door.now.node prepared.0.dones) }
    ensures all { IfOk result (λ prepared. (joined : List ℕ) × AreNumbered door.now.node joined prepared.0.dones × AreSplit numbers.now joined prepared.1.items) }
    ensures room { IfOk result (λ prepared. length prepared.0.dones ≤ member.new.room) }
    ensures seated { IfOk result (λ prepared. length prepared.0.dones ≤ seat.new.room) }
    ensures sound { OnOk result (member.new.post.astray ≡ false) }
    ensures post { member.new.post ≡ member.old.post }
    ensures slips { seat.new.slips ≡ seat.old.slips }
    ensures faults { IfErr result IsRefusedSo }
{
    if member.is_broken() {
        return Err(Refusal::Broken);
    }
    let Gathering {
        group,
        numbers,
        apart,
    } = joined(door, member, claims, numbers)?;
    let ready = member.gather(group, numbers.as_slice())?;
    seat.make_room_for(numbers.len())?;
    Ok((ready, apart))
}

/// Joins the steps of packets, and claims room for the entry of each.
fn joined<S: GroupStore, L: Begins, R: Wait>(
    door: &Door<'_, R, L>,
    member: &Member<S, L>,
    claims: &mut Claims<L>,
    numbers: &[u64],
) -> Result<Gathering, Refusal>
    ensures was { IfOk result (λ joined. joined.group.was ≡ member.now.post.node.kept) }
    ensures all { IfOk result (λ joined. AreSplit numbers.now joined.numbers.items joined.apart.items) }
    ensures faults { IfErr result IsRefusedSo }
{
    let mut joined = Gathering {
        group: member.begin_group()?,
        numbers: Vec::new(door.alloc),
        apart: Vec::new(door.alloc),
    };
    for number in numbers {
        join(door, member, claims, &mut joined, *number)?;
    }
    Ok(joined)
}

/// Joins the step of a packet, and claims room for its entry; or its number stands apart, if its step saves nothing.
fn join<S: GroupStore, L: Begins, R: Wait>(
    door: &Door<'_, R, L>,
    member: &Member<S, L>,
    claims: &mut Claims<L>,
    joined: &mut Gathering,
    number: u64,
) -> Result<(), Refusal>
    requires was { joined.old.group.was ≡ member.now.post.node.kept }
    ensures was { joined.new.group.was ≡ joined.old.group.was }
    ensures adds { OnOk result (IsOneMore number joined.old.numbers.items joined.old.apart.items joined.new.numbers.items joined.new.apart.items) }
    ensures faults { IfErr result IsRefusedSo }
{
    joined.numbers.reserve(1)?;
    joined.apart.reserve(1)?;
    let packet = admitted(door, claims, number, member.is_broken())?;
    if has_joined(member, &mut joined.group, packet)? {
        joined.numbers.push_reserved(number);
    } else {
        door.register.lock(door.rt).give_one_back(claims);
        joined.apart.push_reserved(number);
    }
    Ok(())
}

/// The packet of this number, with a claim of room for its entry.
fn admitted<L: Begins, R: Wait>(
    door: &Door<'_, R, L>,
    claims: &mut Claims<L>,
    number: u64,
    broken: bool,
) -> Result<Packet, Refusal>
    ensures faults { IfErr result IsRefusedSo }
{
    let step = Step::Deliver {
        number,
        node: door.node,
    };
    let packet = door
        .register
        .lock(door.rt)
        .admit_beside(claims, &step, broken)?;
    packet.ok_or(Refusal::NoSuchPacket)
}

/// Whether the step of a packet joined a group, since it saves something. An `Err` is want of memory. Whatever it is, else the group stays as it was.
fn has_joined<S: GroupStore, L: Begins>(
    member: &Member<S, L>,
    group: &mut StepGroup,
    packet: Packet,
) -> Result<bool, Refusal>
    requires was { group.old.was ≡ member.now.post.node.kept }
    ensures joined { IfOk result (λ joined. joined ≡ true → HasJoined group.old packet group.new) }
    ensures apart { IfOk result (λ joined. joined ≡ false → group.new ≡ group.old) }
    ensures stays { OnErr result (group.new ≡ group.old) }
    ensures faults { IfErr result (λ refusal. refusal ≡ Memory) }
{
    match member.join(group, packet) {
        Ok(()) => Ok(true),
        Err((JoinFault::Memory, packet)) => {
            drop(packet);
            Err(Refusal::Memory)
        }
        Err((_, packet)) => {
            drop(packet);
            Ok(false)
        }
    }
}
