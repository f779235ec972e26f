//! What is played.

// Nodes, the number of the one that is watched, how many packets that wait it takes behind one save at most, and the rows that are played: behind an arrow stands
// what a row tells.
#[derive(Clone, Copy)]
pub struct Play {
    pub nodes: u8,
    pub watched: u64,
    pub at_once: usize,
    pub rows: &'static str,
}

// An attempt of a message, which is delivered, at a node alone.
pub const ALONE: Play = Play {
    nodes: 1,
    watched: 1,
    at_once: 1,
    rows: "\
tick 1 1706659200
submit_with_receipt 1 => Waits 1
settle => Accepted 1 1000100001
tick 1 1706659200 sme1
settle
grant 1 => Granted 1 1
delivered 1
settle => Reported 1000100001 2 1706659200",
};

// The same at node 1 of three, of which node 2 may stop. It is asked at the end.
pub const OF_THREE: Play = Play {
    nodes: 3,
    watched: 2,
    at_once: 1,
    rows: "\
tick 1 1706659200
tick 2 1706659200
tick 3 1706659200
submit_with_receipt 1 => Waits 1
settle => Accepted 1 1000100001
tick 1 1706659200 sme1
settle
grant 1 => Granted 1 1
delivered 1
settle => Reported 1000100001 2 1706659200
query 2 => Waits 1
settle => Shown 1 2 1706659200",
};

// Two messages at node 1 of three, and an attempt of each: node 2, which may stop, takes the packets of both at once.
pub const TWO_AT_ONCE: Play = Play {
    nodes: 3,
    watched: 2,
    at_once: 2,
    rows: "\
tick 1 1706659200
tick 2 1706659200
tick 3 1706659200
submit_with_receipt 1 => Waits 1
submit_with_receipt 1 => Waits 2
settle => Several
tick 1 1706659200 sme1
settle
grant 1 => Granted 1 1
query 2 => Waits 1
settle => Shown 1 1",
};

// The same of five messages.
pub const FIVE_AT_ONCE: Play = Play {
    nodes: 3,
    watched: 2,
    at_once: 5,
    rows: "\
tick 1 1706659200
tick 2 1706659200
tick 3 1706659200
submit_with_receipt 1 => Waits 1
submit_with_receipt 1 => Waits 2
submit_with_receipt 1 => Waits 3
submit_with_receipt 1 => Waits 4
submit_with_receipt 1 => Waits 5
settle => Several
tick 1 1706659200 sme1
settle
grant 1 => Granted 1 1
query 2 => Waits 1
settle => Shown 1 1",
};

// What comes by a row, without what it tells.
pub fn line_of(row: &str) -> &str {
    match row.split_once(" => ") {
        Some((line, _)) => line,
        None => row,
    }
}
