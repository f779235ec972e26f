//! What tests look for in a journal.

use fate_chain::{Final, Kind};
use lines_of_tests::{Answer, NOTHING, told_in};
use node_threads::{Entry, Journal};
use stable_store::ListStore;
use std::alloc::Global;
use std::process::Abort;
use world::Step;

/// What an entry of a journal tells.
#[derive(Clone, Copy, Debug, PartialEq)]
pub enum Event {
    /// What the step gave out.
    Told(Answer),
    /// What was handed in of an attempt: it gave the message this final state.
    Ended(Final),
    /// What was handed in of an attempt: it failed with this error.
    Failed(u16),
}

/// What an entry tells, if it tells anything.
fn event_in(entry: &Entry) -> Option<Event> {
    if let Step::Answered { outcome, .. } = entry.done.step {
        return match outcome.kind() {
            Kind::Fate(state, _) => Some(Event::Ended(state)),
            Kind::Failed(error) => Some(Event::Failed(error.number())),
            _ => None,
        };
    }
    let told = told_in(&entry.done.outputs);
    if told == NOTHING {
        return None;
    }
    Some(Event::Told(told))
}

/// What the entries of a journal tell, in their order.
pub fn events_in(rt: &impl Abort, alloc: Global, journal: &Journal<ListStore>) -> Vec<Event> {
    let mut events = Vec::new(alloc);
    for place in 0..journal.len() {
        if let Some(event) = journal.entry(place + 1).and_then(|entry| event_in(entry)) {
            events.push(event).expect(rt, "memory");
        }
    }
    events
}
