//! Plays what comes in a life of nodes.

use crate::cluster::Cluster;
use crate::inputs::input;
use lines_of_tests::node;
use node_core::Setup;
use node_stores::NodeStore;
use stable_store::StableStore;
use std::rt::HostRuntime;

// That of the serve that wrote the stores.
const VALIDITY: u32 = 259_200;

fn setup(number: usize, nodes: usize) -> Option<Setup> {
    let nodes = u8::try_from(nodes).ok()?;
    Setup::make(node(number as u64)?, nodes, 1, VALIDITY).ok()
}

/// The next node opens over the store in a file.
fn open(rt: &HostRuntime, cluster: &mut Cluster<NodeStore>, file: &str, setup: Setup) {
    match NodeStore::open(rt, rt.alloc(), Some(file)) {
        Ok(store) => cluster.add(rt, setup, store),
        Err(fault) => {
            let _ = println!(rt; "{file}: {fault:?}");
        }
    }
}

/// An input comes to a node by a word and the rest of its line, and then each packet that is sent.
fn come<S: StableStore + Drop>(
    rt: &HostRuntime,
    cluster: &mut Cluster<S>,
    number: usize,
    (word, rest): (&str, &str),
) {
    match input(rt.alloc(), word, rest) {
        Some(input) => {
            cluster.take(rt, number, input);
            cluster.settle(rt);
        }
        None => {
            let _ = println!(rt; "not read: {word} {rest}");
        }
    }
}

/// What a line says comes to the node of the number behind its word: a `query` of each of the messages, or another input.
fn play<S: StableStore + Drop>(rt: &HostRuntime, cluster: &mut Cluster<S>, line: &str) {
    let (word, rest) = line.split_once(' ').unwrap_or((line, ""));
    let (number, rest) = rest.split_once(' ').unwrap_or((rest, ""));
    let number = number.parse().unwrap_or(0);
    if word != "query" {
        return come(rt, cluster, number, (word, rest));
    }
    for id in rest.split_whitespace() {
        come(rt, cluster, number, (word, id));
    }
}

/// A life: nodes open over the stores that its first line names, take what comes by the others, and stop.
pub fn live(rt: &HostRuntime, life: &str) {
    let (files, lines) = life.split_once('\n').unwrap_or((life, ""));
    let _ = println!(rt; "{files}");
    let nodes = files.split_whitespace().count();
    let mut cluster = Cluster::none(rt.alloc());
    for (place, file) in files.split_whitespace().enumerate() {
        if let Some(setup) = setup(place.saturating_add(1), nodes) {
            open(rt, &mut cluster, file, setup);
        }
    }
    for line in lines.lines() {
        play(rt, &mut cluster, line);
    }
}
