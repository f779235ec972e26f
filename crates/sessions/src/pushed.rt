//! The requests of the centre that wait for the ESME's answer.

ghost use Rattle.std.specs.Prelude.{◌≡◌, ◌==◌, not, find, position, filter, IfOk, OnErr, IsTrue, vec_capacity};
ghost use Rattle.std.specs.List.{list_any};
ghost use Rattle.sessions.specs.Windows.{without_first, is_overdue};

use mc_types::{Moment, MsgId, Slot};
use std::alloc::{AllocError, Global};
use std::marker::Model;

/// How long a pushed request waits for its answer, in seconds.
const PATIENCE: u32 = 30;

/// What a deliver_sm brings to the ESME.
#[derive(Clone, Copy, Debug, PartialEq, Eq)]
pub enum Delivery {
    /// The message of the attempt that is in this slot.
    Attempt(Slot),
    /// The receipt of the message of this id.
    Receipt(MsgId),
}

/// A deliver_sm that was pushed to the ESME and waits for its answer: its sequence_number, since when it waits, and what it
/// brings.
#[derive(Clone, Copy, Debug, PartialEq, Eq)]
pub struct Pushed {
    pub sequence: u32,
    pub since: Moment,
    pub delivery: Delivery,
}

/// Why nothing can be pushed.
#[derive(Clone, Copy, Debug, PartialEq, Eq)]
pub enum PushRefusal {
    /// 1: ten pushed requests wait for their answers.
    Window,
    /// 2: the session is not bound as a receiver or a transceiver.
    NotReceiving,
}

/// Pushed requests that are given up: no answer to them will be taken. Contracts see them as a list.
#[derive(Drop)]
pub struct Abandoned {
    pushed: Vec<Pushed>,
}

impl Model for Abandoned {
    ghost use Rattle.std.specs.Prelude.{List};
    ghost use Rattle.sessions.specs.declared.pushed.Pushed.{Pushed};

    ghost Value = { List Pushed };

    ghost view = { λ abandoned. abandoned.pushed.items };
}

impl Abandoned {
    /// Those in the vector.
    pub(crate) fn of(pushed: Vec<Pushed>) -> Abandoned
        ensures { result ≡ pushed.items }
    {
        Abandoned { pushed }
    }

    /// Those that wait too long at a moment. An `Err` is want of memory, which only those need.
    pub(crate) fn at(alloc: Global, pushed: &[Pushed], now: Moment) -> Result<Abandoned, AllocError>
        ensures overdue { IfOk result (λ abandoned. abandoned ≡ filter (is_overdue now) pushed.now) }
        ensures memory { OnErr result (IsTrue (list_any (is_overdue now) pushed.now)) }
    {
        let mut overdue = Vec::new(alloc);
        for request in pushed {
            if request.is_overdue(now) {
                overdue.push(*request)?;
            }
        }
        Ok(Abandoned { pushed: overdue })
    }

    /// The pushed requests, the oldest first.
    pub fn as_slice(&self) -> &[Pushed]
        ensures { result.now ≡ self.now }
    {
        &self.pushed
    }
}

impl Pushed {
    /// Whether it waits 30 seconds or more at this moment.
    pub fn is_overdue(&self, now: Moment) -> bool
        ensures { result ≡ is_overdue now self.now }
    {
        self.since.seconds() + PATIENCE <= now.seconds()
    }
}

/// Takes out the request of a sequence_number, the first if there are several.
pub(crate) fn take_sequence(pushed: &mut Vec<Pushed>, sequence: u32) -> Option<Pushed>
    ensures taken { result ≡ find (λ request. request.sequence == sequence) pushed.old.items }
    ensures rest { pushed.new.items ≡ without_first (λ request. request.sequence == sequence) pushed.old.items }
    ensures room { vec_capacity pushed.new ≡ vec_capacity pushed.old }
{
    let place = place_of_sequence(pushed, sequence)?;
    Some(pushed.remove(place))
}

/// Where the first request of a sequence_number stands.
fn place_of_sequence(pushed: &[Pushed], sequence: u32) -> Option<usize>
    ensures { result ≡ position (λ request. request.sequence == sequence) pushed.now }
{
    pushed
        .iter()
        .position(|request| request.sequence == sequence)
}

/// Keeps those that do not wait too long at a moment.
pub(crate) fn retain_timely(pushed: &mut Vec<Pushed>, now: Moment)
    ensures kept { pushed.new.items ≡ filter (λ request. not (is_overdue now request)) pushed.old.items }
    ensures room { vec_capacity pushed.new ≡ vec_capacity pushed.old }
{
    pushed.retain(|request| !request.is_overdue(now));
}
