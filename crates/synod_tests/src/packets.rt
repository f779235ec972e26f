//! Packets that are the same.

use crate::same::assert_same;
use crate::values::{ballot, node, taken, vote};
use mc_types::{Incarnation, Slot};
use std::alloc::Global;
use std::process::Abort;
use synod_acceptor::{Name, Packet, Report, Vote};

const LOW: u64 = 262161;

const HIGH: u64 = 262162;

// What a packet is.
#[derive(Clone, Copy)]
enum Kind {
    Prepare,
    // Of this slot nothing was voted.
    Promise(u8),
    // A vote is reported, at the ballot of this number.
    Reported(u64),
    Propose,
    Voted,
    // For a promise at the ballot of this number.
    Refused(u64),
    // By the question of this ticket.
    Ask(u64),
    Tell(Option<u64>),
}

// No two of them are the same packet.
const KINDS: &[Kind] = &[
    Kind::Prepare,
    Kind::Promise(0),
    Kind::Promise(1),
    Kind::Reported(LOW),
    Kind::Reported(HIGH),
    Kind::Propose,
    Kind::Voted,
    Kind::Refused(LOW),
    Kind::Refused(HIGH),
    Kind::Ask(1),
    Kind::Ask(2),
    Kind::Tell(None),
    Kind::Tell(Some(LOW)),
    Kind::Tell(Some(HIGH)),
];

// The slot of the first message at a place.
fn slot(rt: &impl Abort, alloc: Global, place: u8) -> Slot {
    let chain = taken(rt, alloc);
    let id = chain.id();
    drop(chain);
    Slot { id, place }
}

fn name(rt: &impl Abort, ticket: u64) -> Name {
    Name {
        node: node(rt, 1),
        incarnation: Incarnation::of(1),
        ticket,
    }
}

fn told(rt: &impl Abort, alloc: Global, number: Option<u64>) -> Option<Vote> {
    match number {
        Some(number) => Some(vote(rt, alloc, number)),
        None => None,
    }
}

fn promise(rt: &impl Abort, report: Report) -> Packet {
    Packet::Promise {
        from: node(rt, 1),
        ballot: ballot(rt, LOW),
        report,
    }
}

fn packet(rt: &impl Abort, alloc: Global, kind: Kind) -> Packet {
    let from = node(rt, 1);
    let low = ballot(rt, LOW);
    match kind {
        Kind::Prepare => Packet::Prepare {
            from,
            slot: slot(rt, alloc, 0),
            ballot: low,
        },
        Kind::Promise(place) => promise(rt, Report::Nothing(slot(rt, alloc, place))),
        Kind::Reported(number) => promise(rt, Report::Held(vote(rt, alloc, number))),
        Kind::Propose => Packet::Propose {
            from,
            vote: vote(rt, alloc, LOW),
        },
        Kind::Voted => Packet::Voted {
            from,
            vote: vote(rt, alloc, LOW),
        },
        Kind::Refused(promised) => Packet::Refused {
            from,
            slot: slot(rt, alloc, 0),
            ballot: low,
            promised: ballot(rt, promised),
        },
        Kind::Ask(ticket) => Packet::Ask {
            from,
            id: slot(rt, alloc, 0).id,
            name: name(rt, ticket),
        },
        Kind::Tell(number) => Packet::Tell {
            from,
            name: name(rt, 1),
            told: told(rt, alloc, number),
        },
    }
}

// That the packet of this number is the one of its kind, and of no other kind.
fn assert_itself_alone(rt: &impl Abort, alloc: Global, number: usize, packet: &Packet) {
    for (place, kind) in KINDS.iter().enumerate() {
        let other = self::packet(rt, alloc, *kind);
        let is = packet.is(&other);
        drop(other);
        assert_same(rt, &(number, place, is), &(number, place, number == place));
    }
}

#[test]
fn each_packet_is_itself_alone(rt: HostRuntime) {
    for (number, kind) in KINDS.iter().enumerate() {
        let packet = packet(&rt, rt.alloc(), *kind);
        assert_itself_alone(&rt, rt.alloc(), number, &packet);
    }
}
