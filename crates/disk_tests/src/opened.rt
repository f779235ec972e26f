//! A node over a store that is opened by a path, or in memory.

use crate::on_disk::{set_up, walked};
use crate::same::assert_same;
use node_stores::NodeStore;
use stable_store::StoreFault;
use std::alloc::Global;
use std::fs;
use std::process::Abort;
use std::rt::HostRuntime;

const PATH: &str = "disk_tests_node.db";

const LOG: &str = "disk_tests_node.db-wal";

const STORED: &str = "\
a submit is stored
submit_with_receipt => Waits 1
back => Accepted 1 1000100001";

// What an earlier run left is removed.
fn remove(rt: &HostRuntime) {
    let _ = fs::remove_file(rt, PATH);
    let _ = fs::remove_file(rt, LOG);
}

// A node alone over a store that was opened answers as the rows of a part say, and ends.
fn walk(rt: &impl Abort, alloc: Global, opened: Result<NodeStore, StoreFault>, part: &str) {
    let store = opened.expect(rt, "a store");
    let setup = set_up(rt, 1, 1, 259200);
    drop(walked(rt, alloc, store, setup, part));
}

// The file is found again, with the vote in its slot, the ballot that was promised there, and the incarnation that has begun.
#[test]
fn a_node_over_a_path_goes_on(rt: HostRuntime) {
    let after = "\
the message is there in the second incarnation
ask 1 => Told 262161
prepare 1 262161 => Refused 262161
query => Waits 1
back => Shown 1 1
submit_with_receipt => Waits 2
back => Accepted 2 1000200001";
    let alloc = rt.alloc();
    remove(&rt);
    walk(&rt, alloc, NodeStore::open(&rt, alloc, Some(PATH)), STORED);
    walk(&rt, alloc, NodeStore::open(&rt, alloc, Some(PATH)), after);
    remove(&rt);
}

#[test]
fn a_node_in_memory_begins_anew(rt: HostRuntime) {
    let after = "\
no message is there in the first incarnation
query => Waits 1
back => Unknown 1
submit_with_receipt => Waits 2
back => Accepted 2 1000100001";
    let alloc = rt.alloc();
    walk(&rt, alloc, NodeStore::open(&rt, alloc, None), STORED);
    walk(&rt, alloc, NodeStore::open(&rt, alloc, None), after);
}

#[test]
fn a_path_that_is_not_there_is_told(rt: HostRuntime) {
    let opened = NodeStore::open(&rt, rt.alloc(), Some("no_such_folder/node.db"));
    let fault = opened.err();
    assert_same(&rt, &fault, &Some(StoreFault::Device));
}

// A store says which incarnations its records name, and what has begun over it, beside whose it is; new ones name none.
#[test]
fn a_store_tells_what_its_records_name(rt: HostRuntime) {
    let alloc = rt.alloc();
    let store = NodeStore::open(&rt, alloc, None).expect(&rt, "a store");
    let (store, new) = store.looked(alloc).expect(&rt, "a look");
    let setup = set_up(&rt, 1, 1, 259200);
    let store = walked(&rt, alloc, store, setup, STORED);
    let (store, used) = store.looked(alloc).expect(&rt, "a look");
    drop(store);
    let seen = (new.begun, new.named, new.whose.is_some());
    assert_same(&rt, &seen, &(0, [0; 9], false));
    let seen = (used.begun, used.named, used.whose.is_some());
    assert_same(&rt, &seen, &(1, [1, 0, 0, 0, 0, 0, 0, 0, 0], false));
}
