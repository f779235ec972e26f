//! Sessions after which the server ends.

use crate::clients::{BOUND, Client, ONE_BOUND, REFUSED, TAKEN, TAKEN_ANEW, has};
use crate::same::assert_same;
use crate::served::{Case, served};
use server::Ending;
use stable_store::{FailingStore, Found, ListStore};
use std::alloc::Global;
use std::process::Abort;

fn joined(rt: &impl Abort, alloc: Global, parts: &[&[u8]]) -> Vec<u8> {
    parts.concat(alloc).expect(rt, "memory")
}

#[test]
fn serve_once(rt: HostRuntime) {
    let alloc = rt.alloc();
    let case = Case::of(Client::Plain);
    let (heard, ended) = served(&rt, alloc, ListStore::make(alloc), case);
    let wanted = joined(&rt, alloc, &[BOUND, TAKEN]);
    assert_same(&rt, &heard.first(), &Some(&wanted));
    assert_same(&rt, &ended.ending, &Ending::Asked);
}

/// The first save of the node fails, so it starts anew: what waited is refused, and the session goes on with its second incarnation.
#[test]
fn a_node_whose_store_fails_starts_anew(rt: HostRuntime) {
    let alloc = rt.alloc();
    let store = FailingStore::make(ListStore::make(alloc), 1, Found::Before);
    let case = Case::of(Client::Stubborn);
    let (heard, ended) = served(&rt, alloc, store, case);
    let wanted = joined(&rt, alloc, &[BOUND, REFUSED, TAKEN_ANEW]);
    assert_same(&rt, &heard.first(), &Some(&wanted));
    assert_same(&rt, &ended.ending, &Ending::Asked);
}

/// The server tells that it serves, and of the session that is bound, while a connection beside says nothing; that holds up neither the answers nor the end.
#[test]
fn a_server_tells_of_itself(rt: HostRuntime) {
    let alloc = rt.alloc();
    let case = Case::of(Client::Asking);
    let (heard, ended) = served(&rt, alloc, ListStore::make(alloc), case);
    let (Some(ready), Some(metrics)) = (heard.first(), heard.last()) else {
        panic!(&rt; "two answers");
    };
    assert_same(&rt, &ready.starts_with(b"HTTP/1.1 200 OK\r\n"), &true);
    assert_same(&rt, &has(metrics, b"\ntomveul_serving 1\n"), &true);
    assert_same(&rt, &has(metrics, ONE_BOUND), &true);
    assert_same(&rt, &ended.ending, &Ending::Asked);
}
