//! What lines say.

use crate::same::assert_same;
use mc_types::{NodeNo, NodeSet};
use script_lines::{Line, MOST_OCTETS, read_line};
use std::alloc::Global;
use std::process::Abort;

/// What a line says; none if it says nothing that may be.
pub fn said(rt: &impl Abort, alloc: Global, line: &[u8]) -> Option<Line> {
    read_line(alloc, line).expect(rt, "memory")
}

/// A line each, and what it says, as `{:?}` writes it.
const GOOD: &str = " => Skipped
#nodes => Skipped
nodes 1 => Nodes { count: 1, serial: 1 }
nodes 9 99999 => Nodes { count: 9, serial: 99999 }
restart 7 => Restart { node: NodeNo { number: 7 } }
pdu 2 99 aBCd09 => Octets { node: NodeNo { number: 2 }, session: 99, octets: [171, 205, 9] }
tick 1 946684800 => Tick { node: NodeNo { number: 1 }, moment: Moment { seconds: 946684800 } }
tick 9 4102444799 => Tick { node: NodeNo { number: 9 }, moment: Moment { seconds: 4102444799 } }
grant 3 1000100001 => Grant { node: NodeNo { number: 3 }, id: MsgId { number: 1000100001 } }
deliver 12 3 => Deliver { number: 12, node: NodeNo { number: 3 } }
crash 3 0 before => Crash { node: NodeNo { number: 3 }, number: 0, after: false }
crash 2 18446744073709551615 after => Crash { node: NodeNo { number: 2 }, number: 18446744073709551615, after: true }
replay 0 => Replay { count: 0 }";

/// That a line says what the row tells.
fn assert_said(rt: &impl Abort, alloc: Global, row: &str) {
    let (text, wanted) = row.split_once(" => ").expect(rt, "a line and what it says");
    let line = said(rt, alloc, text.as_bytes()).expect(rt, "a good line");
    let told = format!(in alloc; "{line:?}").expect(rt, "memory");
    assert_same(rt, &(text, told.as_str()), &(text, wanted));
}

#[test]
fn good_lines_are_read(rt: HostRuntime) {
    for row in GOOD.lines() {
        assert_said(&rt, rt.alloc(), row);
    }
}

/// That a line says this.
fn assert_line(rt: &impl Abort, alloc: Global, text: &[u8], wanted: Line) {
    assert_same(rt, &said(rt, alloc, text), &Some(wanted));
}

#[test]
fn a_node_that_is_settled_twice_counts_once(rt: HostRuntime) {
    let alloc = rt.alloc();
    let mut nodes = NodeSet::empty();
    assert_line(&rt, alloc, b"settle", Line::Settle { nodes });
    nodes.add(NodeNo::of(2));
    nodes.add(NodeNo::of(9));
    assert_line(&rt, alloc, b"settle 9 2 9", Line::Settle { nodes });
}

/// Lines, each with the highest node that it names, or 0.
const NAMED: &[(&str, usize)] = &[
    ("nodes 3", 3),
    ("pdu 3 1 00", 3),
    ("deliver 9 3", 3),
    ("crash 3 9 after", 3),
    ("tick 3 946684800", 3),
    ("grant 3 1000100001", 3),
    ("settle 3 1", 3),
    ("restart 3", 3),
    ("settle", 0),
    ("replay 9", 0),
];

/// That the nodes of a line are among those up to the highest, and not among fewer.
fn assert_named(rt: &impl Abort, alloc: Global, text: &str, highest: usize) {
    let line = said(rt, alloc, text.as_bytes()).expect(rt, "a good line");
    let (within, fewer) = (
        line.names_within(highest),
        highest > 0 && line.names_within(highest - 1),
    );
    drop(line);
    assert_same(rt, &(text, within, fewer), &(text, true, false));
}

#[test]
fn the_nodes_of_a_line_are_among_the_first(rt: HostRuntime) {
    for (text, highest) in NAMED {
        assert_named(&rt, rt.alloc(), text, *highest);
    }
}

/// Lines that say nothing, with a bar between two of them.
const BAD: &str =
    " |nodes|nodes 0|nodes 10|nodes 01|nodes 1 |nodes  1|nodes 1 0|nodes 1 100000|nodes 1 +1|nodes 1 2 3|\
nodes 1 18446744073709551617|\
pdu 1 0 00|pdu 1 100 00|pdu 1 1 0|pdu 1 1 |pdu 1 1|pdu 1 1 0g|pdu 1 01 00|pdu 1 1 00 00|pdu 0 1 00|pdu 10 1 00|\
tick|tick 1|tick 1 |tick 10 946684800|tick 0 946684800|tick 1 946684799|tick 1 4102444800|tick 1 0946684800|tick 1 +946684800|\
tick 1 946684800 |tick 1 946684800 1|tick 946684800|\
grant 1 100010001|grant 0 1000100001|grant 1000100001|\
settle  1|settle 1 |settle 0|settle 1 10|settle1|settle\r|Settle|\
restart|restart 0|restart 1 |restart 1 1|\
replay|replay 01|replay 18446744073709551616|drop";

/// Such lines that begin as those of packets.
const BAD_OF_PACKETS: &str =
    "deliver|deliver 1|deliver 1 0|deliver 1 10|deliver 01 1|deliver -1 1|deliver 18446744073709551616 1|\
deliver 1 1 1|deliver 1 1 |deliver 1  1|\
crash 1 1|crash 1 1 |crash 1 1 during|crash 1 1 Before|crash 1 1 before |crash 1 1 after 1|crash 0 1 after|crash 10 1 after|\
crash 1 01 after|crash 1 18446744073709551616 after|crash 1 after";

/// That there are so many lines, and that each of them says nothing.
fn assert_bad(rt: &impl Abort, alloc: Global, lines: &str, wanted: usize) {
    let mut count = 0;
    for line in lines.split("|") {
        let is_bad = said(rt, alloc, line.as_bytes()).is_none();
        assert_same(rt, &(line, is_bad), &(line, true));
        count = usize::saturating_add(count, 1);
    }
    assert_same(rt, &count, &wanted);
}

#[test]
fn bad_lines_say_nothing(rt: HostRuntime) {
    assert_bad(&rt, rt.alloc(), BAD, 52);
}

#[test]
fn bad_lines_of_packets_say_nothing(rt: HostRuntime) {
    assert_bad(&rt, rt.alloc(), BAD_OF_PACKETS, 21);
}

/// So many of these octets.
pub fn repeated(rt: &impl Abort, alloc: Global, octet: u8, count: usize) -> Vec<u8> {
    let octets = vec![in alloc; octet; count];
    octets.expect(rt, "memory")
}

#[test]
fn a_line_has_20000_octets_at_most(rt: HostRuntime) {
    let alloc = rt.alloc();
    let longest = repeated(&rt, alloc, b'#', MOST_OCTETS);
    let longer = repeated(&rt, alloc, b'#', MOST_OCTETS + 1);
    let told = (
        said(&rt, alloc, longest.as_slice()),
        said(&rt, alloc, longer.as_slice()),
    );
    assert_same(&rt, &told, &(Some(Line::Skipped), None));
}

/// A line of 20000 octets, which are 9996 octets on session 1 of node 1.
pub fn longest_of_octets(rt: &impl Abort, alloc: Global) -> Vec<u8> {
    let mut line = Vec::from_slice(alloc, b"pdu 1 1 ").expect(rt, "memory");
    for _ in 0..9996 {
        line.extend_from_slice(b"a5").expect(rt, "memory");
    }
    line
}

#[test]
fn the_longest_line_is_9996_octets_on_a_session(rt: HostRuntime) {
    let alloc = rt.alloc();
    let line = longest_of_octets(&rt, alloc);
    let octets = repeated(&rt, alloc, 0xa5, 9996);
    let wanted = Line::Octets {
        node: NodeNo::of(1),
        session: 1,
        octets,
    };
    assert_same(&rt, &line.len(), &20000);
    assert_line(&rt, alloc, line.as_slice(), wanted);
}
