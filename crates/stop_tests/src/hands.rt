//! What comes to the node that is watched, and to the others.

use crate::at_once::{next_packets, take_at_once};
use crate::play::line_of;
use crate::scene::Scene;
use lines_of_tests::{numbers, step};
use node_core::{Input, Node};
use stable_store::{GroupStore, StableStore};
use std::process::Abort;
use synod_acceptor::Packet;

// More packets than are ever sent.
const MOST: u32 = 500;

fn take<S: StableStore>(
    rt: &impl Abort,
    scene: &mut Scene,
    watched: &mut Node<S>,
    number: u64,
    input: Input,
) {
    if number == scene.play.watched {
        let told = step(watched, input, &mut scene.packets).told;
        scene.watch(rt, told);
    } else {
        scene.take(rt, number, input);
    }
}

// Packets come to a node, one behind the other.
fn take_each<S: StableStore>(
    rt: &impl Abort,
    scene: &mut Scene,
    watched: &mut Node<S>,
    number: u64,
    packets: &[Packet],
) {
    for packet in packets {
        let copy = packet.copy().expect(rt, "memory");
        take(rt, scene, watched, number, Input::Packet(copy));
    }
}

// Packets come to the watched node: behind one save, if they are several.
fn watched_takes<S: GroupStore>(
    rt: &impl Abort,
    scene: &mut Scene,
    watched: &mut Node<S>,
    packets: &[Packet],
) {
    let number = scene.play.watched;
    if packets.len() < 2 || watched.is_broken() {
        return take_each(rt, scene, watched, number, packets);
    }
    let apart = take_at_once(rt, scene, watched, packets);
    take_each(rt, scene, watched, number, &apart);
    drop(apart);
}

// Packets come to each node.
fn come<S: GroupStore>(
    rt: &impl Abort,
    scene: &mut Scene,
    watched: &mut Node<S>,
    packets: &[Packet],
) {
    for number in 1..=u64::from(scene.play.nodes) {
        if number == scene.play.watched {
            watched_takes(rt, scene, watched, packets);
        } else {
            take_each(rt, scene, watched, number, packets);
        }
    }
}

// Each packet comes, those that are sent meanwhile, too.
fn settle<S: GroupStore>(rt: &impl Abort, scene: &mut Scene, watched: &mut Node<S>) {
    for _ in 0..MOST {
        let packets = next_packets(rt, scene);
        if packets.is_empty() {
            return;
        }
        come(rt, scene, watched, &packets);
        drop(packets);
    }
    panic!(rt; "too many packets");
}

// What a line says comes: `settle`, or an input with its node behind its word.
fn hand<S: GroupStore>(rt: &impl Abort, scene: &mut Scene, watched: &mut Node<S>, line: &str) {
    scene.begin_line();
    let (word, rest) = line.split_once(' ').unwrap_or((line, ""));
    if word == "settle" {
        return settle(rt, scene, watched);
    }
    let (number, rest) = rest.split_once(' ').unwrap_or((rest, ""));
    let [number, ..] = numbers(number).expect(rt, "a node");
    let input = scene.input(rt, word, rest);
    take(rt, scene, watched, number, input);
}

// What these lines say comes, one behind the other.
pub fn hand_all<S: GroupStore>(
    rt: &impl Abort,
    scene: &mut Scene,
    watched: &mut Node<S>,
    lines: &str,
) {
    for line in lines.lines() {
        hand(rt, scene, watched, line);
    }
}

// Hands the rows in that were not played yet, up to the one at which the watched node stops. What that row tells at a node alone is not looked at.
pub fn play_on<S: GroupStore>(rt: &impl Abort, scene: &mut Scene, watched: &mut Node<S>) {
    let play = scene.play;
    for row in play.rows.lines().skip(scene.rows) {
        scene.rows = scene.rows.saturating_add(1);
        hand(rt, scene, watched, line_of(row));
        let has_stopped = scene.halt.is_some();
        if play.nodes > 1 || !has_stopped {
            scene.assert_told(rt, row);
        }
        if has_stopped {
            return;
        }
    }
}
