//! The end of a play whose watched node stopped and has started anew.

use crate::hands::{hand_all, play_on};
use crate::same::assert_same;
use crate::scene::Scene;
use mc_types::MsgId;
use node_core::Node;
use stable_store::GroupStore;
use std::process::Abort;

// Ticks by which an attempt that was open ends, and another one follows; behind each an attempt is asked for.
const ATTEMPTS: &[&str] = &[
    "tick 1 1706659200 sme1\nsettle\ngrant 1",
    "tick 1 1706659200 sme1\nsettle\ngrant 1",
    "tick 1 1706659260 sme1\nsettle\ngrant 1",
];

// What a query_sm of the message says of it: its state, if it is known.
fn state<S: GroupStore>(rt: &impl Abort, scene: &mut Scene, node: &mut Node<S>) -> Option<u64> {
    hand_all(rt, scene, node, "query 1\nsettle");
    let Some(numbers) = scene.said("Shown") else {
        assert!(rt; scene.said("Unknown").is_some());
        return None;
    };
    let [_, state, ..] = numbers;
    Some(state)
}

// Whoever submitted the message, and was not answered, submits it once more.
fn submit_again<S: GroupStore>(rt: &impl Abort, scene: &mut Scene, node: &mut Node<S>) {
    hand_all(rt, scene, node, "submit_with_receipt 1\nsettle");
    let [_, id, ..] = scene.said("Accepted").expect(rt, "it is taken");
    scene.id = MsgId::of_number(id).ok().expect(rt, "an id");
}

// An attempt is asked for, and if it is granted the message is delivered.
fn attempt<S: GroupStore>(rt: &impl Abort, scene: &mut Scene, node: &mut Node<S>, lines: &str) {
    hand_all(rt, scene, node, lines);
    let Some(numbers) = scene.said("Granted") else {
        return;
    };
    let [_, number, ..] = numbers;
    let delivered = if number == 1 {
        "delivered 1 1\nsettle"
    } else {
        "delivered 1 2\nsettle"
    };
    hand_all(rt, scene, node, delivered);
}

// The message is DELIVERED (2) after a stop of its node, which is alone. If it was taken, it is known.
fn bring_to_its_end<S: GroupStore>(rt: &impl Abort, scene: &mut Scene, node: &mut Node<S>) {
    hand_all(rt, scene, node, "tick 1 1706659200");
    if state(rt, scene, node).is_none() {
        assert!(rt; !scene.is_taken);
        submit_again(rt, scene, node);
    }
    for lines in ATTEMPTS {
        attempt(rt, scene, node, lines);
    }
    let end = state(rt, scene, node);
    assert_same(rt, &end, &Some(2));
}

// The play comes to its end, and the node does not stop again.
pub fn end<S: GroupStore>(rt: &impl Abort, scene: &mut Scene, node: &mut Node<S>) {
    scene.halt = None;
    if scene.play.nodes == 1 {
        bring_to_its_end(rt, scene, node);
    } else {
        play_on(rt, scene, node);
    }
    assert!(rt; scene.halt.is_none());
}
