//! What surrounds the node that is watched.

use crate::files::Octets;
use crate::inputs::input;
use crate::play::Play;
use crate::same::assert_same;
use lines_of_tests::{Answer, NOTHING, answer_said, first_id, node, step};
use mc_types::MsgId;
use node_core::{Input, Life, Node, Setup, open_node};
use stable_store::{FailingStore, Found, ListStore, StableStore};
use std::alloc::Global;
use std::collections::VecDeque;
use std::process::Abort;
use synod_acceptor::{Packet, Record};

// That a save failed, and that one failed before.
pub const STOPPED: Answer = ("Uncommitted", [4, 0, 0, 0]);

const BROKEN: Answer = ("Unprepared", [1, 0, 0, 0]);

// That a line told more than one thing.
const SEVERAL: Answer = ("Several", [0; 4]);

// When the watched node stopped: while it opened, or in the save that comes after so many steps.
#[derive(Clone, Copy, PartialEq)]
pub enum Halt {
    Opening,
    Saving(u64),
}

// The other nodes, which never stop, the packets that came to no node yet, what was told since the last line, and what the files of the watched node hold.
#[derive(Drop)]
pub struct Scene {
    pub alloc: Global,
    pub play: Play,
    // In the order of their numbers.
    others: Vec<Node<FailingStore>>,
    pub packets: VecDeque<Packet>,
    // The message of which the lines speak.
    pub id: MsgId,
    told: Vec<Answer>,
    // How many rows were played.
    pub rows: usize,
    // How many steps the watched node has taken before it stopped.
    steps: u64,
    pub halt: Option<Halt>,
    // Whether a message was accepted.
    pub is_taken: bool,
    pub octets: Octets,
    // The records that were loaded last, and the incarnation in which the watched node started anew; 0 as long as it did not.
    pub records: Vec<Record>,
    pub incarnation: u16,
}

// A node of so many.
pub fn set_up(rt: &impl Abort, number: u64, nodes: u8) -> Setup {
    let number = node(number).expect(rt, "a node");
    Setup::make(number, nodes, 1, 259200).expect(rt, "a setup")
}

// A list of which the save of this number fails; none, if it is 0.
pub fn list(alloc: Global, save: u64, found: Found) -> FailingStore {
    FailingStore::make(ListStore::make(alloc), save, found)
}

// A node that opens over a store.
pub fn opened<S: StableStore>(
    rt: &impl Abort,
    alloc: Global,
    store: S,
    setup: Setup,
) -> (Node<S>, Life) {
    match open_node(alloc, store, setup) {
        Ok(opened) => opened,
        Err(_) => panic!(rt; "it opens"),
    }
}

fn others(rt: &impl Abort, alloc: Global, play: Play) -> Vec<Node<FailingStore>> {
    let mut others = Vec::new(alloc);
    for number in 1..=u64::from(play.nodes) {
        if number != play.watched {
            let store = list(alloc, 0, Found::Before);
            let (other, _life) = opened(rt, alloc, store, set_up(rt, number, play.nodes));
            others.push(other).expect(rt, "memory");
        }
    }
    others
}

impl Scene {
    // That with which a play begins.
    pub fn make(rt: &impl Abort, alloc: Global, play: Play) -> Scene {
        Scene {
            alloc,
            play,
            others: others(rt, alloc, play),
            packets: VecDeque::new(alloc),
            id: first_id().expect(rt, "an id"),
            told: Vec::new(alloc),
            rows: 0,
            steps: 0,
            halt: None,
            is_taken: false,
            octets: Octets::none(alloc),
            records: Vec::new(alloc),
            incarnation: 0,
        }
    }

    // The next line begins.
    pub fn begin_line(&mut self) {
        self.told.clear();
    }

    pub fn input(&self, rt: &impl Abort, word: &str, rest: &str) -> Input {
        input(rt, self.alloc, self.id, word, rest)
    }

    fn note(&mut self, rt: &impl Abort, told: Answer) {
        self.is_taken |= told.0 == "Accepted";
        if told != NOTHING {
            self.told.push(told).expect(rt, "memory");
        }
    }

    // What the watched node told. Once it has stopped it takes no step.
    pub fn watch(&mut self, rt: &impl Abort, told: Answer) {
        if self.halt.is_some() {
            assert_same(rt, &told, &BROKEN);
        } else if told == STOPPED {
            self.halt = Some(Halt::Saving(self.steps));
        } else {
            self.steps = self.steps.checked_add(1).expect(rt, "a number");
            self.note(rt, told);
        }
    }

    // Another node takes a step.
    pub fn take(&mut self, rt: &impl Abort, number: u64, input: Input) {
        let before = if number < self.play.watched { 1 } else { 2 };
        let place = number.checked_sub(before).expect(rt, "a place");
        let place = usize::try_from(place).ok().expect(rt, "a place");
        let node = self.others.get_mut(place).expect(rt, "a node");
        let told = step(node, input, &mut self.packets).told;
        self.note(rt, told);
    }

    // The numbers that were told with this word by the last line.
    pub fn said(&self, word: &str) -> Option<[u64; 4]> {
        for (said, numbers) in &self.told {
            if *said == word {
                return Some(*numbers);
            }
        }
        None
    }

    // That the last line told what stands behind the arrow of a row, or nothing if there is none.
    pub fn assert_told(&self, rt: &impl Abort, row: &str) {
        let wanted = match row.split_once(" => ") {
            Some((_, said)) => answer_said(said).expect(rt, "an answer"),
            None => NOTHING,
        };
        let told = match self.told.as_slice() {
            [] => NOTHING,
            [told] => *told,
            _ => SEVERAL,
        };
        assert_same(rt, &(row, told), &(row, wanted));
    }
}
