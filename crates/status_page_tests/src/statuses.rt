//! What is told of a server in the tests.

use status_page::{NodeStatus, Status};
use std::alloc::Global;
use std::process::Abort;

/// A server that has served for seven seconds, with two nodes.
pub fn of_two_nodes(rt: &impl Abort, alloc: Global) -> Status {
    let mut nodes = Vec::new(alloc);
    let first = NodeStatus {
        serving: true,
        submits: 5,
        ..NodeStatus::none(1)
    };
    let second = NodeStatus {
        submits: u64::MAX,
        receivers: 3,
        ..NodeStatus::none(2)
    };
    nodes.push(first).expect(rt, "memory");
    nodes.push(second).expect(rt, "memory");
    Status {
        serving: true,
        seconds: 7,
        nodes,
        ..Status::none(alloc)
    }
}
