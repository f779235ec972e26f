//! What the node that is watched does over a store.

use crate::end::end;
use crate::hands::play_on;
use crate::scene::{Halt, Scene, opened, set_up};
use node_core::{Node, Setup, open_node};
use stable_store::GroupStore;
use std::process::Abort;

// What is done with a store.
#[derive(Clone, Copy)]
pub enum Task {
    // The watched node opens over it and plays until it stops, or to the end.
    Play,
    // Its records are loaded.
    Load,
    // Its records are loaded. Then the watched node, which stopped, starts anew over it, and the play comes to its end.
    End,
}

fn setup(rt: &impl Abort, scene: &Scene) -> Setup {
    set_up(rt, scene.play.watched, scene.play.nodes)
}

fn played<S: GroupStore>(rt: &impl Abort, scene: &mut Scene, mut watched: Node<S>) -> S {
    play_on(rt, scene, &mut watched);
    watched.into_store()
}

fn play<S: GroupStore>(rt: &impl Abort, scene: &mut Scene, store: S) -> S {
    let setup = setup(rt, scene);
    match open_node(scene.alloc, store, setup) {
        Ok((watched, _life)) => played(rt, scene, watched),
        Err((_, store)) => {
            scene.halt = Some(Halt::Opening);
            store
        }
    }
}

fn start_anew<S: GroupStore>(rt: &impl Abort, scene: &mut Scene, store: S) -> S {
    let setup = setup(rt, scene);
    let (mut watched, life) = opened(rt, scene.alloc, store, setup);
    scene.incarnation = life.incarnation().number();
    end(rt, scene, &mut watched);
    watched.into_store()
}

// Does a task with a store, which is given back.
pub fn perform<S: GroupStore>(rt: &impl Abort, scene: &mut Scene, mut store: S, task: Task) -> S {
    if let Task::Play = task {
        return play(rt, scene, store);
    }
    scene.records = store.load().expect(rt, "records");
    match task {
        Task::End => start_anew(rt, scene, store),
        _ => store,
    }
}
