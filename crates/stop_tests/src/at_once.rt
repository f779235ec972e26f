//! Packets that the watched node takes at once.

ghost use Rattle.std.specs.Prelude.{◌≡◌};

use crate::scene::{STOPPED, Scene};
use lines_of_tests::{Answer, NOTHING, put_back};
use node_core::{Node, Outputs, StepFault, StepGroup};
use stable_store::{GroupStore, StableStore};
use std::process::Abort;
use synod_acceptor::Packet;

// Whether a node may save something by a packet.
fn may_save(packet: &Packet) -> bool {
    matches!(packet, Packet::Prepare { .. } | Packet::Propose { .. })
}

// How many packets come next: those in front by which a node may save something, as many as the play takes at once, or else one.
fn next_count(scene: &Scene) -> usize {
    let mut count = 0_usize;
    for packet in scene.packets.iter().take(scene.play.at_once) {
        if !may_save(packet) {
            break;
        }
        count = count.saturating_add(1);
    }
    count.max(1)
}

// The packets that come next; none if no packet waits.
pub fn next_packets(rt: &impl Abort, scene: &mut Scene) -> Vec<Packet> {
    let mut packets = Vec::new(scene.alloc);
    for _ in 0..next_count(scene) {
        let Some(packet) = scene.packets.pop_front() else {
            break;
        };
        packets.push(packet).expect(rt, "memory");
    }
    packets
}

// Puts the step of a packet into a group; the packet comes back if its step saves nothing.
fn left_apart<S: StableStore>(
    rt: &impl Abort,
    watched: &Node<S>,
    group: &mut StepGroup,
    packet: &Packet,
) -> Option<Packet>
    requires { group.old.was ≡ watched.now.kept }
    ensures { group.new.was ≡ group.old.was }
{
    match watched.join(group, packet.copy().expect(rt, "memory")) {
        Ok(()) => None,
        Err((_, packet)) => Some(packet),
    }
}

// The steps of packets in a group, and the packets whose steps save nothing.
fn joined<S: StableStore>(
    rt: &impl Abort,
    scene: &Scene,
    watched: &Node<S>,
    packets: &[Packet],
) -> (StepGroup, Vec<Packet>)
    ensures { result.0.was ≡ watched.now.kept }
{
    let mut group = watched.begin_group().expect(rt, "a group");
    let mut apart = Vec::new(scene.alloc);
    for packet in packets {
        if let Some(packet) = left_apart(rt, watched, &mut group, packet) {
            apart.push(packet).expect(rt, "memory");
        }
    }
    (group, apart)
}

// What the steps of a group give out waits.
pub fn give(rt: &impl Abort, scene: &mut Scene, given: Vec<Outputs>) {
    for outputs in given {
        put_back(outputs, &mut scene.packets).expect(rt, "memory");
    }
}

// What the watched node answers to a group.
fn committed<S: GroupStore>(
    rt: &impl Abort,
    scene: &mut Scene,
    watched: &mut Node<S>,
    group: StepGroup,
) -> Answer
    requires { group.was ≡ watched.old.kept }
{
    match watched.commit_all(group) {
        Ok(given) => {
            give(rt, scene, given);
            NOTHING
        }
        Err(StepFault::Device) => STOPPED,
        Err(_) => panic!(rt; "memory"),
    }
}

// Packets come to the watched node, which works, behind one save: those by which it saves nothing, which did not come yet.
pub fn take_at_once<S: GroupStore>(
    rt: &impl Abort,
    scene: &mut Scene,
    watched: &mut Node<S>,
    packets: &[Packet],
) -> Vec<Packet> {
    let (group, apart) = joined(rt, scene, watched, packets);
    let told = committed(rt, scene, watched, group);
    scene.watch(rt, told);
    apart
}
