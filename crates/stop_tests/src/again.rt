//! Nodes over lists that open again after a save that failed.

ghost use Rattle.node_core.specs.Nodes.{IsLifeOf};

use crate::at_once::give;
use crate::end::end;
use crate::hands::play_on;
use crate::play::{ALONE, FIVE_AT_ONCE, OF_THREE, Play, TWO_AT_ONCE};
use crate::same::assert_same;
use crate::scene::{Scene, list, opened, set_up};
use node_core::{Found, Life, Node};
use stable_store::{Found as Leaves, GroupStore, StableStore};
use std::alloc::Global;
use std::process::Abort;

// More saves than a node makes.
const MOST: u64 = 100;

// The rows are played by a node that is lent, so it is not known to live this life any more.
fn checked<S: StableStore>(rt: &impl Abort, node: &Node<S>, life: &Life)
    ensures { IsLifeOf node.now life.now }
{
    if !node.is_life(life) {
        panic!(rt; "its life");
    }
}

fn next_life<S: StableStore>(rt: &impl Abort, node: &mut Node<S>, life: Life) -> u16
    requires { IsLifeOf node.old life }
{
    match node.reopen(life) {
        Ok(life) => life.incarnation().number(),
        Err(_) => panic!(rt; "it opens again"),
    }
}

// What a node tells of the save in which it stopped.
fn told<S: StableStore>(node: &Node<S>) -> Option<Found> {
    let stopped = node.stopped()?;
    Some(stopped.found)
}

// The watched node, which stopped, settles what it took at once: how many steps it took.
fn settled<S: StableStore>(rt: &impl Abort, scene: &mut Scene, watched: &mut Node<S>) -> usize {
    let given = watched.settle().expect(rt, "it settles");
    let steps = given.len();
    give(rt, scene, given);
    assert!(rt; !watched.waits());
    steps
}

// How many steps a node took as it settled, and what it tells of the save in which it stopped.
type Told = (usize, Option<Found>);

// The watched node, which stopped, settles and opens again, in its second incarnation, and the play comes to its end.
fn ended<S: GroupStore>(
    rt: &impl Abort,
    scene: &mut Scene,
    watched: &mut Node<S>,
    life: Life,
) -> Told {
    let steps = settled(rt, scene, watched);
    checked(rt, watched, &life);
    let incarnation = next_life(rt, watched, life);
    assert_same(rt, &incarnation, &2);
    let found = told(watched);
    end(rt, scene, watched);
    (steps, found)
}

// The watched node opens over a store and plays; if it stops, it opens again. What it tells, and its store.
fn told_over<S: GroupStore>(rt: &impl Abort, scene: &mut Scene, store: S) -> (Told, S) {
    let setup = set_up(rt, scene.play.watched, scene.play.nodes);
    let (mut watched, life) = opened(rt, scene.alloc, store, setup);
    play_on(rt, scene, &mut watched);
    let told = if scene.halt.is_some() {
        ended(rt, scene, &mut watched, life)
    } else {
        drop(life);
        (0, None)
    };
    (told, watched.into_store())
}

// What a node tells whose save of this number fails, and leaves that; no save if it makes fewer.
fn told_of(rt: &impl Abort, alloc: Global, play: Play, save: u64, leaves: Leaves) -> Told {
    let mut scene = Scene::make(rt, alloc, play);
    let (told, store) = told_over(rt, &mut scene, list(alloc, save, leaves));
    drop(store);
    drop(scene);
    told
}

// That a node opens again after each of its saves, if that fails and leaves this, and tells so.
fn assert_told(rt: &impl Abort, alloc: Global, (play, leaves, steps, found): Row) {
    for save in 1..MOST {
        let told = told_of(rt, alloc, play, save, leaves);
        if told.1.is_none() {
            assert!(rt; save > 1);
            return;
        }
        assert_same(rt, &(save, told), &(save, (steps, Some(found))));
    }
    panic!(rt; "too many saves");
}

// Plays, what a save that fails leaves, how many steps the node takes then as it settles, and what it tells of that save.
type Row = (Play, Leaves, usize, Found);

const ROWS: &[Row] = &[
    (ALONE, Leaves::Before, 0, Found::Before),
    (ALONE, Leaves::After, 0, Found::After),
    (OF_THREE, Leaves::Before, 0, Found::Before),
    (OF_THREE, Leaves::After, 0, Found::After),
    (TWO_AT_ONCE, Leaves::Before, 0, Found::Before),
    (TWO_AT_ONCE, Leaves::After, 1, Found::After),
    (FIVE_AT_ONCE, Leaves::Before, 0, Found::Before),
    (FIVE_AT_ONCE, Leaves::After, 4, Found::After),
];

#[test]
fn a_node_opens_again_after_each_save_that_failed(rt: HostRuntime) {
    let alloc = rt.alloc();
    for row in ROWS {
        assert_told(&rt, alloc, *row);
    }
}
