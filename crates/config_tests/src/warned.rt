//! What is warned of in configurations, and with which line.

use crate::same::assert_same;
use config::read_config;
use config_warnings::warnings;
use std::alloc::Global;
use std::process::Abort;
use toml::Value;

// A configuration of which nothing warns. What stands behind it begins with line 13.
const GOOD: &str = "system_id = \"C\"\n[[node]]\nnumber = 1\nlisten = \"127.0.0.1:2775\"\n\
    [[account]]\nsystem_id = \"sme1\"\npassword = \"pw1\"\ntransmit = true\nreceive = true\n\
    [[route]]\nprefix = \"\"\naccount = \"sme1\"\n";

// The lines that warn of a configuration.
fn warned(rt: &impl Abort, alloc: Global, text: &str) -> String {
    let octets = text.as_bytes();
    let config = read_config(alloc, octets).expect(rt, "a configuration");
    let members = toml::table_from_slice(alloc, octets).expect(rt, "TOML");
    let document = Value::Table(members);
    let lines = warnings(alloc, octets, &document, &config).expect(rt, "memory");
    drop(config);
    drop(document);
    lines
}

// What stands before the good configuration, what behind it, and the lines that warn.
type Row = (&'static str, &'static str, &'static str);

fn assert_warned(rt: &impl Abort, alloc: Global, rows: &[Row]) {
    for (number, (before, behind, wanted)) in rows.iter().enumerate() {
        let text = format!(in alloc; "{before}{GOOD}{behind}").expect(rt, "memory");
        let lines = warned(rt, alloc, text.as_str());
        assert_same(rt, &(number, lines.as_str()), &(number, *wanted));
    }
}

const NAMES: &[Row] = &[
    ("", "", ""),
    ("colour = 1\n", "", "warning: line 1: colour is not known\n"),
    (
        "",
        "[[rout]]\nprefix = \"2\"\n",
        "warning: line 13: [[rout]] is not known\n",
    ),
    (
        "",
        "[limits]\nsessions = 5\n",
        "warning: line 13: [limits] is not known\n",
    ),
    (
        "",
        "# acount\nacount = 1\n",
        "warning: line 14: route.acount (route 1) is not known\n",
    ),
    (
        "",
        "[own]\nidle_seconds = 5\nidel_seconds = 5\n",
        "warning: line 15: own.idel_seconds is not known\n",
    ),
    (
        "",
        "own.stop_after = 5\n",
        "warning: line 13: route.own (route 1) is not known\n",
    ),
    (
        "",
        "[own]\n\"two words\" = 1\n",
        "warning: line 14: own.\"two words\" is not known\n",
    ),
    (
        "",
        "colours = [\n  \"red\",\n]\n",
        "warning: route.colours (route 1) is not known\n",
    ),
    (
        "",
        "colour = 1\n[[route]]\nprefix = \"2\"\naccount = \"sme1\"\ncolour = 2\n",
        "warning: line 13: route.colour (route 1) is not known\n\
         warning: line 17: route.colour (route 2) is not known\n",
    ),
    (
        "",
        "[[account]]\nsystem_id = \"a\"\npassword = \"\"\ntransmit = true\nreceive = true\nrecieve = true\n\
         [[node]]\nnumber = 2\nlisten = \"127.0.0.1:2776\"\nport = 1\n",
        "warning: line 22: node.port (node 2) is not known\n\
         warning: line 18: account.recieve (account 2) is not known\n",
    ),
];

#[test]
fn names_that_mean_nothing_are_told(rt: HostRuntime) {
    assert_warned(&rt, rt.alloc(), NAMES);
}

const PARTS: &[Row] = &[
    (
        "",
        "[[node]]\nnumber = 2\nlisten = \"127.0.0.1:2775\"\n",
        "warning: nodes 1 and 2 listen on one port\n",
    ),
    (
        "",
        "[[node]]\nnumber = 2\nlisten = \"0.0.0.0:2775\"\n",
        "warning: nodes 1 and 2 listen on one port\n",
    ),
    (
        "",
        "[[node]]\nnumber = 2\nlisten = \"127.0.0.2:2775\"\n[[node]]\nnumber = 3\nlisten = \"127.0.0.1:0\"\n\
         [[node]]\nnumber = 4\nlisten = \"127.0.0.1:0\"\n",
        "",
    ),
    (
        "",
        "[[node]]\nnumber = 3\nlisten = \"127.0.0.1:2777\"\nstore = \"2.db\"\n\
         [[node]]\nnumber = 2\nlisten = \"127.0.0.1:2776\"\nstore = \"2.db\"\n",
        "warning: node 1 keeps its records in memory, and others theirs in files\n\
         warning: nodes 2 and 3 have one store\n",
    ),
    (
        "",
        "[[account]]\nsystem_id = \"tx\"\npassword = \"\"\ntransmit = true\nreceive = false\n\
         [[route]]\nprefix = \"9\"\naccount = \"tx\"\n",
        "warning: route 2 leads to tx, which may not receive: its messages are never delivered\n",
    ),
];

#[test]
fn parts_that_do_not_go_together_are_told(rt: HostRuntime) {
    assert_warned(&rt, rt.alloc(), PARTS);
}

#[test]
fn what_is_not_there_is_told(rt: HostRuntime) {
    let text = "system_id = \"C\"\n[[node]]\nnumber = 1\nlisten = \"127.0.0.1:2775\"\n";
    let lines = warned(&rt, rt.alloc(), text);
    let wanted = "warning: there is no account: nobody may bind\n\
        warning: there is no route: each submit_sm is answered 0x0b\n";
    assert_same(&rt, &lines.as_str(), &wanted);
}
