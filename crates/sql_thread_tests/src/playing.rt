//! How a row is played from a seat.

use crate::attempts::Attempts;
use crate::hands::Hands;
use lines_of_tests::{Given, input_of, node, numbers};
use mc_types::NodeNo;
use node_core::{Input, Life};
use node_threads::{Action, Begins, Cluster};
use stable_store::StableStore;
use std::process::Abort;
use std::sync::Wait;

/// A worked script, as lines. It has a type of its own, since a call that hands over a bare text can't pick where its journal begins.
#[derive(Drop)]
pub struct Row<'r> {
    pub text: &'r str,
}

/// A line of a row, and what came of it, with the node at which it did.
#[derive(Drop)]
pub struct Played<'r> {
    pub line: &'r str,
    pub node: u64,
    pub given: Given,
}

/// The node of which the number stands in front of the rest.
fn node_in<'r>(rt: &impl Abort, words: &'r str) -> (NodeNo, &'r str) {
    let (number, rest) = words.split_once(' ').unwrap_or((words, ""));
    let [number, ..] = numbers(number).expect(rt, "a number");
    (node(number).expect(rt, "a node"), rest)
}

/// What a node gives out at an input.
fn take<S: StableStore, L: Begins, R: Wait + Abort>(
    rt: &R,
    cluster: &Cluster<S, L>,
    hands: &mut Hands<L>,
    attempts: &mut Attempts<'_>,
    (node, input): (NodeNo, Input),
) -> Given {
    match input {
        Input::Request(account, request) => {
            let action = Action::Request {
                node,
                account,
                request,
            };
            hands.act(rt, cluster, action)
        }
        Input::Tick(moment, reach) => {
            let action = Action::Tick {
                node,
                moment,
                reach,
            };
            hands.act(rt, cluster, action)
        }
        Input::Grant(id) => attempts.grant(rt, cluster, hands, (node, id)),
        Input::Answered(_, outcome) => attempts.answer(rt, cluster, hands, outcome),
        Input::Packet(_) => panic!(rt; "packets come by their numbers"),
    }
}

/// What comes of a line.
fn play_line<'r, S: StableStore, L: Begins, R: Wait + Abort>(
    rt: &R,
    cluster: &Cluster<S, L>,
    hands: &mut Hands<L>,
    attempts: &mut Attempts<'_>,
    line: &'r str,
) -> Played<'r> {
    let (comes, _) = line.split_once(" => ").unwrap_or((line, ""));
    if comes == "settle" {
        let (node, told) = hands.settle(rt, cluster);
        let given = Given { answer: told, told };
        return Played { line, node, given };
    }
    let (word, rest) = comes.split_once(' ').expect(rt, "a word, and a node");
    let (node, rest) = node_in(rt, rest);
    let input = input_of(hands.alloc, word, rest).expect(rt, "an input");
    let given = take(rt, cluster, hands, attempts, (node, input));
    let node = u64::from(node.number());
    Played { line, node, given }
}

/// What comes of lines between which no node starts anew.
fn play_lines<'r, S: StableStore, L: Begins, R: Wait + Abort>(
    rt: &R,
    cluster: &Cluster<S, L>,
    hands: &mut Hands<L>,
    lives: &[Life],
    lines: &'r str,
) -> Vec<Played<'r>> {
    let mut attempts = Attempts::within(lives);
    let mut all = Vec::new(hands.alloc);
    for line in lines.lines() {
        let one = play_line(rt, cluster, hands, &mut attempts, line);
        all.push(one).expect(rt, "memory");
    }
    attempts.end();
    all
}

/// A node starts anew.
fn start_anew<S: StableStore, L: Begins, R: Wait + Abort>(
    rt: &R,
    cluster: &Cluster<S, L>,
    hands: &mut Hands<L>,
    lives: &mut Vec<Life>,
    node: NodeNo,
) {
    let found = lives.iter().position(|life| life.node() == node);
    let life = lives.swap_remove(found.expect(rt, "a life"));
    match cluster.restart(rt, &mut hands.seat, life) {
        Ok((slip, life)) => {
            drop(slip);
            lives.push(life).expect(rt, "memory");
        }
        Err(_) => panic!(rt; "it starts anew"),
    }
}

/// What comes of the lines of a row behind its name, but for those by which a node starts anew.
pub fn play_row<'r, S: StableStore, L: Begins, R: Wait + Abort>(
    rt: &R,
    cluster: &Cluster<S, L>,
    hands: &mut Hands<L>,
    mut lives: Vec<Life>,
    row: Row<'r>,
) -> Vec<Played<'r>> {
    let (_, lines) = row.text.split_once("\nnodes 3\n").expect(rt, "three nodes");
    let mut all = Vec::new(hands.alloc);
    for (place, part) in lines.split("\nrestart ").enumerate() {
        let mut lines = part;
        if place > 0 {
            let (number, rest) = part.split_once('\n').expect(rt, "a node, and lines");
            let (node, _) = node_in(rt, number);
            start_anew(rt, cluster, hands, &mut lives, node);
            lines = rest;
        }
        let mut more = play_lines(rt, cluster, hands, &lives, lines);
        all.append(&mut more).expect(rt, "memory");
    }
    all
}
