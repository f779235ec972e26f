//! The worked rows, a line each: what comes to a cluster, and what it tells.

use crate::cluster::Cluster;
use crate::rows::{OF_A_CLUSTER, OF_ONE_NODE};
use crate::same::assert_same;
use lines_of_tests::{Given, NOTHING, OF_THREE_NODES, answer_said, input_of, node, numbers};
use node_core::Setup;
use sql_store::SqlStore;
use sqlite::MemStore;
use stable_store::StableStore;
use std::alloc::Global;
use std::process::Abort;

// Up to four numbers.
fn read(rt: &impl Abort, words: &str) -> [u64; 4] {
    numbers(words).expect(rt, "numbers")
}

// An input comes to the node of which the number stands in front of the rest.
fn take<S: StableStore + Drop>(
    rt: &impl Abort,
    cluster: &mut Cluster<S>,
    alloc: Global,
    kind: &str,
    words: &str,
) -> (u64, Given) {
    let (number, rest) = words.split_once(' ').unwrap_or((words, ""));
    let [node, ..] = read(rt, number);
    let input = input_of(alloc, kind, rest).expect(rt, "an input");
    (node, cluster.take(rt, node, input))
}

fn settle<S: StableStore + Drop>(rt: &impl Abort, cluster: &mut Cluster<S>, words: &str) {
    match read(rt, words) {
        [0, ..] => cluster.settle(rt),
        [one, 0, ..] => cluster.settle_between(rt, &[one]),
        [one, two, ..] => cluster.settle_between(rt, &[one, two]),
    }
}

// What a line does that is no input of a node.
fn run<S: StableStore + Drop>(rt: &impl Abort, cluster: &mut Cluster<S>, word: &str, rest: &str) {
    match word {
        "settle" => settle(rt, cluster, rest),
        "replay" => cluster.replay(rt, read(rt, rest)[0]),
        "deliver" => {
            let [number, node, ..] = read(rt, rest);
            cluster.deliver(rt, number, node);
        }
        _ => {
            let (words, when) = rest.rsplit_once(' ').expect(rt, "before or after");
            let [node, number, ..] = read(rt, words);
            cluster.crash(rt, node, number, when == "after");
        }
    }
}

fn is_of_all(word: &str) -> bool {
    matches!(word, "settle" | "replay" | "deliver" | "crash")
}

// What comes of a line, and at which node.
fn played<S: StableStore + Drop>(
    rt: &impl Abort,
    cluster: &mut Cluster<S>,
    alloc: Global,
    line: &str,
) -> (u64, Given) {
    let (word, rest) = line.split_once(' ').unwrap_or((line, ""));
    if is_of_all(word) {
        run(rt, cluster, word, rest);
        return cluster.told();
    }
    take(rt, cluster, alloc, word, rest)
}

// What comes by a line, and what it says is told.
fn parts(line: &str) -> (&str, Option<&str>) {
    match line.split_once(" => ") {
        Some((comes, said)) => (comes, Some(said)),
        None => (line, None),
    }
}

// A node, and what it tells.
fn wanted<'a>(rt: &impl Abort, said: &'a str) -> (u64, (&'a str, [u64; 4])) {
    let (number, said) = said.split_once(' ').expect(rt, "a node, and what it tells");
    let [node, ..] = read(rt, number);
    (node, answer_said(said).expect(rt, "an answer"))
}

// That a line of a row told what it says, or nothing if it says nothing.
fn assert_told(
    rt: &impl Abort,
    row: (&str, &str),
    said: Option<&str>,
    (node, given): (u64, Given),
) {
    match said {
        Some(said) => {
            let wanted = wanted(rt, said);
            assert_same(rt, &(row, (node, given.answer)), &(row, wanted));
        }
        None => assert_same(rt, &(row, given.told), &(row, NOTHING)),
    }
}

// That a line of a row tells what stands behind its arrow, or nothing if there is none.
fn assert_line<S: StableStore + Drop>(
    rt: &impl Abort,
    cluster: &mut Cluster<S>,
    alloc: Global,
    row: (&str, &str),
) {
    let (comes, said) = parts(row.1);
    let given = played(rt, cluster, alloc, comes);
    assert_told(rt, row, said, given);
}

type OnDisk = Cluster<SqlStore<MemStore>>;

// The nodes that a row begins with, over new stores.
fn begun(rt: &impl Abort, alloc: Global, words: &str) -> OnDisk {
    let [count, serial, ..] = read(rt, words);
    let nodes = u8::try_from(count).expect(rt, "a count");
    let serial = u32::try_from(serial.max(1)).expect(rt, "a serial");
    let mut cluster = Cluster::none(alloc);
    for number in 1..=count {
        let number = node(number).expect(rt, "a node");
        let setup = Setup::make(number, nodes, serial, 259200).expect(rt, "a setup");
        let store = SqlStore::in_memory(alloc).expect(rt, "a store");
        cluster.add(rt, setup, store);
    }
    cluster
}

// A node starts anew over the connection of its store, whether it was up or down.
fn restart(rt: &impl Abort, cluster: &mut OnDisk, alloc: Global, words: &str) {
    let [node, ..] = read(rt, words);
    let conn = cluster.take_store(rt, node).into_connection();
    let Ok(store) = SqlStore::adopt(alloc, conn) else {
        panic!(rt; "a store");
    };
    cluster.start(rt, node, store);
}

// That each line of a row tells what it says.
fn assert_lines(rt: &impl Abort, cluster: &mut OnDisk, alloc: Global, (name, lines): (&str, &str)) {
    for line in lines.lines() {
        match line.strip_prefix("restart ") {
            Some(words) => restart(rt, cluster, alloc, words),
            None => assert_line(rt, cluster, alloc, (name, line)),
        }
    }
}

// That each row, which begins with its name, tells what it says over nodes with new stores.
fn assert_rows(rt: &impl Abort, alloc: Global, rows: &str) {
    for row in rows.split("\n\n") {
        let (name, lines) = row.split_once('\n').expect(rt, "a name, and lines");
        let (first, lines) = lines.split_once('\n').expect(rt, "nodes, and lines");
        let words = first.strip_prefix("nodes ").expect(rt, "nodes");
        let mut cluster = begun(rt, alloc, words);
        assert_lines(rt, &mut cluster, alloc, (name, lines));
        drop(cluster);
    }
}

#[test]
fn rows_of_one_node(rt: HostRuntime) {
    assert_rows(&rt, rt.alloc(), OF_ONE_NODE);
}

#[test]
fn rows_of_a_cluster(rt: HostRuntime) {
    let alloc = rt.alloc();
    assert_rows(&rt, alloc, OF_THREE_NODES);
    assert_rows(&rt, alloc, OF_A_CLUSTER);
}
