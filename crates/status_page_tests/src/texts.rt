//! The texts in which a server tells of itself.

use crate::same::assert_same;
use crate::statuses::of_two_nodes;
use serde_json::Value;
use status_page::{json_text, metrics_text, page_text};
use std::alloc::Global;
use std::process::Abort;
use std::str;

/// These octets have this text in them, once.
fn assert_has(rt: &impl Abort, octets: &[u8], piece: &str) {
    let text = str::from_utf8(octets).expect(rt, "UTF-8");
    assert_same(rt, &(piece, text.matches(piece).count()), &(piece, 1));
}

#[test]
fn metrics_are_in_the_text_format_of_prometheus(rt: HostRuntime) {
    let status = of_two_nodes(&rt, rt.alloc());
    let text = metrics_text(rt.alloc(), &status).expect(&rt, "memory");
    assert_has(
        &rt,
        &text,
        "# HELP tomveul_seconds Seconds since the server began\n# TYPE tomveul_seconds gauge\ntomveul_seconds 7\n",
    );
    assert_has(
        &rt,
        &text,
        "# TYPE tomveul_node_submits_total counter\ntomveul_node_submits_total{node=\"1\"} 5\n\
         tomveul_node_submits_total{node=\"2\"} 18446744073709551615\n",
    );
    drop(status);
}

/// The number of this name in an object.
fn number_in(rt: &impl Abort, object: &Value, name: &str) -> u64 {
    object
        .get(name)
        .and_then(Value::as_u64)
        .expect(rt, "a number")
}

fn parsed(rt: &impl Abort, alloc: Global, octets: &[u8]) -> Value {
    Value::from_str(alloc, str::from_utf8(octets).expect(rt, "UTF-8")).expect(rt, "JSON")
}

#[test]
fn a_reader_of_json_finds_the_numbers(rt: HostRuntime) {
    let status = of_two_nodes(&rt, rt.alloc());
    let text = json_text(rt.alloc(), &status).expect(&rt, "memory");
    let value = parsed(&rt, rt.alloc(), &text);
    assert_same(&rt, &number_in(&rt, &value, "serving"), &1);
    assert_same(&rt, &number_in(&rt, &value, "seconds"), &7);
    let nodes = value.get("nodes").expect(&rt, "nodes");
    let second = nodes.get(1usize).expect(&rt, "node 2");
    assert_same(&rt, &number_in(&rt, second, "node"), &2);
    assert_same(&rt, &number_in(&rt, second, "submits"), &u64::MAX);
    assert_same(&rt, &number_in(&rt, second, "sessions_receiver"), &3);
    assert_same(&rt, &nodes.get(2usize).is_some(), &false);
    drop(value);
    drop(status);
}

#[test]
fn the_page_has_a_row_for_each_count(rt: HostRuntime) {
    let status = of_two_nodes(&rt, rt.alloc());
    let text = page_text(rt.alloc(), &status).expect(&rt, "memory");
    assert_has(
        &rt,
        &text,
        "<tr><th align=\"left\">Sessions that are bound as receiver</th>\
         <td align=\"right\">0</td><td align=\"right\">3</td></tr>\n",
    );
    assert_has(&rt, &text, "<meta http-equiv=\"refresh\" content=\"5\">");
    drop(status);
}
