//! Texts that are no configuration, and the lines that tell why.

use crate::same::assert_same;
use config::{ConfigFault, Key, Place, read_config};
use std::alloc::Global;
use std::process::Abort;

const NODE: &str = "[[node]]\nnumber = 1\nlisten = \"127.0.0.1:2775\"\n";

const SME1: &str =
    "[[account]]\nsystem_id = \"sme1\"\npassword = \"pw1\"\ntransmit = true\nreceive = true\n";

const ROUTE: &str = "[[route]]\nprefix = \"2\"\naccount = \"sme1\"\n";

const LOST: &str = "[[route]]\nprefix = \"2\"\naccount = \"sme2\"\n";

const CUT: &str = "[[route]]\naccount = \"sme1\"\n";

// The fault of a text; none of a configuration.
fn fault_of(alloc: Global, text: &[u8]) -> Option<ConfigFault> {
    read_config(alloc, text).err()
}

// The fault of the lines of these parts behind a name and a node.
fn fault_with(rt: &impl Abort, alloc: Global, more: &[&str]) -> Option<ConfigFault> {
    let mut text = String::from_str(alloc, "system_id = \"CENTRE\"\n").expect(rt, "memory");
    text.push_str(NODE).expect(rt, "memory");
    for part in more {
        text.push_str(part).expect(rt, "memory");
    }
    let fault = fault_of(alloc, text.as_bytes());
    drop(text);
    fault
}

// A text, and its fault.
type Row = (&'static [u8], ConfigFault);

fn assert_faults(rt: &impl Abort, alloc: Global, rows: &[Row]) {
    for (number, (text, wanted)) in rows.iter().enumerate() {
        let fault = fault_of(alloc, text);
        assert_same(rt, &(number, fault), &(number, Some(*wanted)));
    }
}

// What stands behind a name and a node, and the fault of that.
type RowBehind = (&'static [&'static str], ConfigFault);

fn assert_faults_with(rt: &impl Abort, alloc: Global, rows: &[RowBehind]) {
    for (number, (more, wanted)) in rows.iter().enumerate() {
        let fault = fault_with(rt, alloc, more);
        assert_same(rt, &(number, fault), &(number, Some(*wanted)));
    }
}

const NO_TOML: &[Row] = &[
    (b"system_id = ", ConfigFault::NotToml),
    (b"a = 1\na = 2\n", ConfigFault::NotToml),
    (b"a = \"\xff\"\n", ConfigFault::NotToml),
];

#[test]
fn what_is_no_toml(rt: HostRuntime) {
    assert_faults(&rt, rt.alloc(), NO_TOML);
}

const MISSING: &[Row] = &[
    (
        b"",
        ConfigFault::Missing(Place {
            key: Key::SystemId,
            row: 0,
        }),
    ),
    (
        b"system_id = \"C\"\n",
        ConfigFault::Missing(Place {
            key: Key::Node,
            row: 0,
        }),
    ),
    (
        b"system_id = \"C\"\nnode = []\n",
        ConfigFault::Missing(Place {
            key: Key::Node,
            row: 0,
        }),
    ),
    (
        b"system_id = \"C\"\n[[node]]\nlisten = \"1.2.3.4:5\"\n",
        ConfigFault::Missing(Place {
            key: Key::NodeNumber,
            row: 0,
        }),
    ),
    (
        b"system_id = \"C\"\n[[node]]\nnumber = 1\n",
        ConfigFault::Missing(Place {
            key: Key::NodeListen,
            row: 0,
        }),
    ),
];

const MISSING_BEHIND: &[RowBehind] = &[
    (
        &["[[account]]\nsystem_id = \"a\"\ntransmit = true\nreceive = true\n"],
        ConfigFault::Missing(Place {
            key: Key::AccountPassword,
            row: 0,
        }),
    ),
    (
        &["[[route]]\nprefix = \"2\"\n"],
        ConfigFault::Missing(Place {
            key: Key::RouteAccount,
            row: 0,
        }),
    ),
    (
        &[SME1, ROUTE, "[[route]]\nprefix = \"3\"\n"],
        ConfigFault::Missing(Place {
            key: Key::RouteAccount,
            row: 1,
        }),
    ),
];

#[test]
fn what_is_missing(rt: HostRuntime) {
    assert_faults(&rt, rt.alloc(), MISSING);
    assert_faults_with(&rt, rt.alloc(), MISSING_BEHIND);
}

const BAD: &[Row] = &[
    (
        b"system_id = 1\n[[node]]\nnumber = 1\nlisten = \"1.2.3.4:5\"\n",
        ConfigFault::BadValue(Place {
            key: Key::SystemId,
            row: 0,
        }),
    ),
    (
        b"system_id = \"\"\n[[node]]\nnumber = 1\nlisten = \"1.2.3.4:5\"\n",
        ConfigFault::BadValue(Place {
            key: Key::SystemId,
            row: 0,
        }),
    ),
    (
        b"system_id = \"0123456789abcdef\"\n[[node]]\nnumber = 1\nlisten = \"1.2.3.4:5\"\n",
        ConfigFault::BadValue(Place {
            key: Key::SystemId,
            row: 0,
        }),
    ),
    (
        b"system_id = \"C\"\ndefault_validity = 0\n[[node]]\nnumber = 1\nlisten = \"1.2.3.4:5\"\n",
        ConfigFault::BadValue(Place {
            key: Key::DefaultValidity,
            row: 0,
        }),
    ),
    (
        b"system_id = \"C\"\nfirst_serial = 100000\n[[node]]\nnumber = 1\nlisten = \"1.2.3.4:5\"\n",
        ConfigFault::BadValue(Place {
            key: Key::FirstSerial,
            row: 0,
        }),
    ),
    (
        b"system_id = \"C\"\nstop_after = -1\n[[node]]\nnumber = 1\nlisten = \"1.2.3.4:5\"\n",
        ConfigFault::BadValue(Place {
            key: Key::StopAfter,
            row: 0,
        }),
    ),
    (
        b"system_id = \"C\"\nnode = 1\n",
        ConfigFault::BadValue(Place {
            key: Key::Node,
            row: 0,
        }),
    ),
    (
        b"system_id = \"C\"\n[[node]]\nnumber = 2\nlisten = \"1.2.3.4:5\"\n",
        ConfigFault::BadValue(Place {
            key: Key::NodeNumber,
            row: 0,
        }),
    ),
    (
        b"system_id = \"C\"\n[[node]]\nnumber = 1\nlisten = \"1.2.3.4:05\"\n",
        ConfigFault::BadValue(Place {
            key: Key::NodeListen,
            row: 0,
        }),
    ),
    (
        b"system_id = \"C\"\n[[node]]\nnumber = 1\nlisten = \"1.2.3.256:5\"\n",
        ConfigFault::BadValue(Place {
            key: Key::NodeListen,
            row: 0,
        }),
    ),
    (
        b"system_id = \"C\"\n[[node]]\nnumber = 1\nlisten = \"localhost:5\"\n",
        ConfigFault::BadValue(Place {
            key: Key::NodeListen,
            row: 0,
        }),
    ),
];

const BAD_BEHIND: &[RowBehind] = &[
    (
        &["store = 1\n"],
        ConfigFault::BadValue(Place {
            key: Key::NodeStore,
            row: 0,
        }),
    ),
    (
        &[
            "[[account]]\nsystem_id = \"a\"\npassword = \"123456789\"\ntransmit = true\nreceive = true\n",
        ],
        ConfigFault::BadValue(Place {
            key: Key::AccountPassword,
            row: 0,
        }),
    ),
    (
        &[
            "[[account]]\nsystem_id = \"a\"\npassword = \"\\u0000\"\ntransmit = true\nreceive = true\n",
        ],
        ConfigFault::BadValue(Place {
            key: Key::AccountPassword,
            row: 0,
        }),
    ),
    (
        &["[[account]]\nsystem_id = \"a\"\npassword = \"\"\ntransmit = 1\nreceive = true\n"],
        ConfigFault::BadValue(Place {
            key: Key::AccountTransmit,
            row: 0,
        }),
    ),
    (
        &[ROUTE],
        ConfigFault::BadValue(Place {
            key: Key::RouteAccount,
            row: 0,
        }),
    ),
    (
        &[SME1, ROUTE, LOST],
        ConfigFault::BadValue(Place {
            key: Key::RouteAccount,
            row: 1,
        }),
    ),
];

#[test]
fn bad_values(rt: HostRuntime) {
    assert_faults(&rt, rt.alloc(), BAD);
    assert_faults_with(&rt, rt.alloc(), BAD_BEHIND);
}

// The fault of a name and of nodes of the numbers below this.
fn fault_of_nodes(rt: &impl Abort, alloc: Global, end: u64) -> Option<ConfigFault> {
    let mut text = String::from_str(alloc, "system_id = \"C\"\n").expect(rt, "memory");
    for number in 1..end {
        let node = write!(
            text,
            "[[node]]\nnumber = {number}\nlisten = \"1.2.3.4:5\"\n"
        );
        node.expect(rt, "memory");
    }
    let fault = fault_of(alloc, text.as_bytes());
    drop(text);
    fault
}

#[test]
fn a_tenth_node(rt: HostRuntime) {
    let faults = (
        fault_of_nodes(&rt, rt.alloc(), 10),
        fault_of_nodes(&rt, rt.alloc(), 11),
    );
    let tenth = ConfigFault::BadValue(Place {
        key: Key::Node,
        row: 0,
    });
    assert_same(&rt, &faults, &(None, Some(tenth)));
}

const TWICE: &[RowBehind] = &[
    (
        &[NODE],
        ConfigFault::Repeated(Place {
            key: Key::NodeNumber,
            row: 1,
        }),
    ),
    (
        &[SME1, SME1],
        ConfigFault::Repeated(Place {
            key: Key::AccountSystemId,
            row: 1,
        }),
    ),
    (
        &[SME1, ROUTE, ROUTE],
        ConfigFault::Repeated(Place {
            key: Key::RoutePrefix,
            row: 1,
        }),
    ),
];

#[test]
fn what_is_given_twice(rt: HostRuntime) {
    assert_faults_with(&rt, rt.alloc(), TWICE);
}

// An account is given twice, and a route leads to none; of another route the prefix is not there; behind it there is no TOML.
const OF_TWO: &[RowBehind] = &[
    (
        &[SME1, SME1, LOST],
        ConfigFault::BadValue(Place {
            key: Key::RouteAccount,
            row: 0,
        }),
    ),
    (
        &[SME1, SME1, LOST, CUT],
        ConfigFault::Missing(Place {
            key: Key::RoutePrefix,
            row: 1,
        }),
    ),
    (&[SME1, SME1, LOST, CUT, "route\n"], ConfigFault::NotToml),
];

#[test]
fn the_lower_of_two_is_told(rt: HostRuntime) {
    assert_faults_with(&rt, rt.alloc(), OF_TWO);
}

// Faults, and the lines that tell of them.
const TOLD: &[(ConfigFault, &str)] = &[
    (ConfigFault::NotToml, "no TOML"),
    (
        ConfigFault::Missing(Place {
            key: Key::AccountPassword,
            row: 1,
        }),
        "missing: account.password (account 2)",
    ),
    (
        ConfigFault::BadValue(Place {
            key: Key::NodeListen,
            row: 0,
        }),
        "bad value: node.listen (node 1)",
    ),
    (
        ConfigFault::Repeated(Place {
            key: Key::RoutePrefix,
            row: 39,
        }),
        "given twice: route.prefix (route 40)",
    ),
    (
        ConfigFault::Missing(Place {
            key: Key::SystemId,
            row: 0,
        }),
        "missing: system_id",
    ),
    (ConfigFault::Memory, "there was not enough memory"),
];

// That this line tells of the fault.
fn assert_line(rt: &impl Abort, alloc: Global, fault: ConfigFault, wanted: &str) {
    let line = format!(in alloc; "{fault}").expect(rt, "memory");
    assert_same(rt, &line.as_str(), &wanted);
}

#[test]
fn faults_are_told_in_a_line(rt: HostRuntime) {
    for (fault, line) in TOLD {
        assert_line(&rt, rt.alloc(), *fault, line);
    }
}
