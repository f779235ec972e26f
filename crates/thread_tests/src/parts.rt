//! What stands under the locks of nodes in threads, each call of it once: the first round of a message, a grant, and a start anew.

ghost use Rattle.std.specs.Prelude.{◌≡◌, false, true};
ghost use Rattle.node_core.specs.Nodes.{IsLifeOf};
ghost use Rattle.node_core.specs.Permits.{is_life_of};
ghost use Rattle.journal_parts.specs.Members.{IsAct, IsBeginning};
ghost use Rattle.world.specs.Taking.{node_at};
ghost use Rattle.journal_parts.specs.Numbers.{none_sent};

use crate::same::assert_same;
use crate::tables::{PARTS, opened};
use delivery::Outcome;
use journal_parts::{Begins, Member, Refusal, Register, Seat, Slip};
use lines_of_tests::{account, first_id, request};
use mc_types::Moment;
use node_core::{Life, Node, Permit};
use stable_store::ListStore;
use std::alloc::Global;
use std::marker::Brand;
use std::process::Abort;
use std::sync::ledger::Blank;
use world::{Reach, Step};

/// Takes a step of a node, and enters it in the journal.
fn taken<L: Begins>(
    rt: &impl Abort,
    member: &mut Member<ListStore, L>,
    register: &mut Register<L>,
    seat: &mut Seat<L>,
    step: Step,
) -> Slip
    requires node { node_at step ≡ member.old.post.node.kept.setup.node }
    requires act { IsAct step }
{
    let (claim, packet) = register
        .admit(&step, member.is_broken())
        .expect(rt, "room for it");
    let ready = member.prepare(step, packet).expect(rt, "a step");
    seat.make_room().expect(rt, "memory");
    let copies = member.commit(ready).expect(rt, "a step");
    register
        .enter(member, seat, claim, copies)
        .expect(rt, "a slip")
}

/// The number of an entry, how many packets had numbers before it, and how many it sent.
fn numbers(slip: &Slip) -> [u64; 3] {
    [
        slip.number(),
        slip.packets_before(),
        slip.outputs().packets.len() as u64,
    ]
}

/// Hands in the submit_sm of a message.
fn submitted<L: Begins>(
    rt: &impl Abort,
    alloc: Global,
    member: &mut Member<ListStore, L>,
    register: &mut Register<L>,
    seat: &mut Seat<L>,
) -> [u64; 3] {
    let step = Step::Request {
        node: member.node(),
        account: account(alloc).expect(rt, "an account"),
        request: request(alloc, "submit_with_receipt").expect(rt, "a request"),
    };
    let slip = taken(rt, member, register, seat, step);
    numbers(&slip)
}

/// Hands in a tick at which sme1 is up.
fn attempted<L: Begins>(
    rt: &impl Abort,
    alloc: Global,
    member: &mut Member<ListStore, L>,
    register: &mut Register<L>,
    seat: &mut Seat<L>,
) -> [u64; 3] {
    let mut up = Vec::new(alloc);
    up.push(account(alloc).expect(rt, "an account"))
        .expect(rt, "memory");
    let step = Step::Tick {
        node: member.node(),
        moment: Moment::least(),
        reach: Reach::of_all(up),
    };
    let slip = taken(rt, member, register, seat, step);
    numbers(&slip)
}

/// Hands in the packet with a number.
fn delivered<L: Begins>(
    rt: &impl Abort,
    member: &mut Member<ListStore, L>,
    register: &mut Register<L>,
    seat: &mut Seat<L>,
    number: u64,
) -> [u64; 3] {
    let node = member.node();
    let slip = taken(rt, member, register, seat, Step::Deliver { number, node });
    numbers(&slip)
}

/// Has the attempt granted in a life of its node.
fn granted<'l, L: Begins>(
    rt: &impl Abort,
    member: &mut Member<ListStore, L>,
    register: &mut Register<L>,
    seat: &mut Seat<L>,
    life: &'l Life,
) -> Permit<'l>
    requires { is_life_of member.old.post.node life.now ≡ true }
    ensures { result.life ≡ life.now }
{
    let step = Step::Grant {
        node: member.node(),
        id: first_id().expect(rt, "an id"),
    };
    let (claim, packet) = register
        .admit(&step, member.is_broken())
        .expect(rt, "room for it");
    let ready = member.prepare(step, packet).expect(rt, "it is granted");
    seat.make_room().expect(rt, "memory");
    let (permit, copies) = member.commit_grant(life, ready);
    if register.enter(member, seat, claim, copies).is_none() {
        permit.abandon();
        panic!(rt; "a slip");
    }
    permit
}

/// Says that the attempt of a permit was delivered.
fn concluded<'l, L: Begins>(
    rt: &impl Abort,
    member: &mut Member<ListStore, L>,
    register: &mut Register<L>,
    seat: &mut Seat<L>,
    permit: Permit<'l>,
) -> [u64; 3] {
    if !member.is_life(permit.life()) {
        permit.abandon();
        panic!(rt; "a life of the node");
    }
    let step = Step::Answered {
        node: member.node(),
        slot: permit.slot(),
        outcome: Outcome::Delivered,
    };
    let (claim, packet) = register
        .admit(&step, member.is_broken())
        .expect(rt, "room for it");
    let ready = member.prepare(step, packet).expect(rt, "it is open");
    seat.make_room().expect(rt, "memory");
    let copies = member.commit_answered(permit, ready);
    let slip = register
        .enter(member, seat, claim, copies)
        .expect(rt, "a slip");
    numbers(&slip)
}

/// Starts the node anew in its life: how many packets had numbers before its entry, and what the new life says.
fn restarted<L: Begins>(
    rt: &impl Abort,
    member: &mut Member<ListStore, L>,
    register: &mut Register<L>,
    seat: &mut Seat<L>,
    life: Life,
) -> u16
    requires { IsLifeOf member.old.post.node life }
{
    if member.is_astray() {
        panic!(rt; "it is not astray");
    }
    let claim = register.admit_anew().expect(rt, "room for it");
    let anew = member.prepare_anew().expect(rt, "memory");
    seat.make_room().expect(rt, "memory");
    let Ok((life, copies)) = member.start_anew(life, anew) else {
        register.give_back(claim);
        panic!(rt; "it starts anew");
    };
    let slip = register
        .enter(member, seat, claim, copies)
        .expect(rt, "a slip");
    assert_same(rt, &slip.unfinished(), &None);
    life.incarnation().number()
}

/// What is refused once the first decree of a message is chosen: a packet that nobody sent, a step of a node that is Broken; a claim that is given back.
fn assert_refused<L: Begins>(
    rt: &impl Abort,
    member: &Member<ListStore, L>,
    register: &mut Register<L>,
) {
    let node = member.node();
    let unsent = Step::Deliver { number: 5, node };
    let sent = Step::Deliver { number: 4, node };
    assert_same(
        rt,
        &refusal(register, &unsent, false),
        &Some(Refusal::NoSuchPacket),
    );
    assert_same(rt, &refusal(register, &sent, true), &Some(Refusal::Broken));
    assert_same(rt, &refusal(register, &sent, false), &None);
    let found = (register.packet(4).is_some(), register.packet(5).is_some());
    assert_same(rt, &found, &(true, false));
}

/// Why a step is not admitted. If it is, its claim is given back.
fn refusal<L: Begins>(register: &mut Register<L>, step: &Step, broken: bool) -> Option<Refusal>
    requires { IsAct step.now }
{
    match register.admit(step, broken) {
        Ok((claim, _packet)) => {
            register.give_back(claim);
            None
        }
        Err(refusal) => Some(refusal),
    }
}

/// The first four packets of a message: the numbers of their entries.
fn chosen<L: Begins>(
    rt: &impl Abort,
    member: &mut Member<ListStore, L>,
    register: &mut Register<L>,
    seat: &mut Seat<L>,
    first: u64,
) -> [[u64; 3]; 4] {
    let second = first.checked_add(1).expect(rt, "a number");
    let third = second.checked_add(1).expect(rt, "a number");
    let fourth = third.checked_add(1).expect(rt, "a number");
    [
        delivered(rt, member, register, seat, first),
        delivered(rt, member, register, seat, second),
        delivered(rt, member, register, seat, third),
        delivered(rt, member, register, seat, fourth),
    ]
}

/// A message is taken, attempted and delivered, and its node starts anew.
fn lived<L: Begins>(rt: &impl Abort, alloc: Global, blank: Blank, node: Node<ListStore>, life: Life)
    requires name { blank.name ≡ L.name }
    requires parts { blank.parts ≡ L.parts }
    requires all { blank.parts ≡ 1000000 }
    requires numbers { L.numbers ≡ none_sent }
    requires begins { IsBeginning L.cluster L.kept node }
{
    let mut register = Register::<L>::open(alloc, blank).expect(rt, "memory");
    let mut seat = register.seat(alloc).expect(rt, "a seat");
    let mut member = Member::<ListStore, L>::begin(alloc, node);
    let taken = submitted(rt, alloc, &mut member, &mut register, &mut seat);
    assert_same(rt, &taken, &[1, 0, 1]);
    let first = chosen(rt, &mut member, &mut register, &mut seat, 1);
    assert_same(rt, &first, &[[2, 1, 1], [3, 2, 1], [4, 3, 1], [5, 4, 0]]);
    assert_refused(rt, &member, &mut register);
    let tried = attempted(rt, alloc, &mut member, &mut register, &mut seat);
    assert_same(rt, &tried, &[6, 4, 1]);
    let second = chosen(rt, &mut member, &mut register, &mut seat, 5);
    assert_same(rt, &second, &[[7, 5, 1], [8, 6, 1], [9, 7, 1], [10, 8, 0]]);
    if !member.is_life(&life) {
        panic!(rt; "its life");
    }
    let permit = granted(rt, &mut member, &mut register, &mut seat, &life);
    let told = concluded(rt, &mut member, &mut register, &mut seat, permit);
    assert_same(rt, &told, &[12, 8, 1]);
    if !member.is_life(&life) {
        panic!(rt; "its life");
    }
    let incarnation = restarted(rt, &mut member, &mut register, &mut seat, life);
    assert_same(rt, &(incarnation, seat.slips().len()), &(2, 13));
}

/// Each round of a node alone sends a Prepare, a Promise, a Propose and a Voted, and each packet is one step.
#[test]
fn each_step_has_its_number(rt: HostRuntime) {
    let alloc = rt.alloc();
    let (node, life) = opened(&rt, alloc);
    lived::<Brand>(&rt, alloc, Blank::new(PARTS), node, life);
}
