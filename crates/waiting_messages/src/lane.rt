//! Messages that wait for a worker and go to one account.

ghost use Rattle.std.specs.Prelude.{◌≡◌, ◌+◌, ◌<◌, min, length, OnErr, OnOk};
ghost use Rattle.waiting_messages.specs.Lanes.{begins_long, empty, front, is_empty, is_of, put_behind, without_front};

use mc_types::MsgId;
use pdu_codec::SystemId;
use std::alloc::{AllocError, Global};
use std::collections::VecDeque;
use std::marker::Model;

/// A message that waits, and how many have come to wait before it.
#[derive(Clone, Copy, Debug, PartialEq, Eq)]
pub(crate) struct Waiter {
    pub(crate) id: MsgId,
    pub(crate) turn: u64,
}

impl Model for Waiter {
    ghost use Rattle.waiting_messages.specs.Lanes.{Waiter};

    ghost Value = { Waiter };

    ghost view = { λ waiter. record { id = waiter.id; turn = waiter.turn } };

    ghost inverse = { λ waiter. record { id = waiter.id; turn = waiter.turn } };
}

/// Messages that go to one account: in each queue the first came first.
#[derive(Drop)]
pub(crate) struct Lane {
    account: SystemId,
    // Those whose text is too long for a short_message, which need a session that knows optional parameters.
    long: VecDeque<Waiter>,
    short: VecDeque<Waiter>,
}

impl Model for Lane {
    ghost use Rattle.waiting_messages.specs.Lanes.{Lane};

    ghost Value = { Lane };

    ghost view = { λ lane. record { account = lane.account; long = lane.long.items; short = lane.short.items } };
}

impl Lane {
    /// None waits for this account.
    pub(crate) fn empty(alloc: Global, account: SystemId) -> Lane
        ensures { result ≡ empty account }
    {
        Lane {
            account,
            long: VecDeque::new(alloc),
            short: VecDeque::new(alloc),
        }
    }

    /// Whether it is that of an account.
    pub(crate) fn is_of(&self, account: &SystemId) -> bool
        ensures { result ≡ is_of account.now self.now }
    {
        self.account == *account
    }

    /// The first of a kind, if one waits.
    pub(crate) fn front(&self, long: bool) -> Option<Waiter>
        ensures { result ≡ front long self.now }
    {
        if long {
            self.long.front().copied()
        } else {
            self.short.front().copied()
        }
    }

    /// A message comes behind the others of its kind. An `Err` is want of memory, and changes nothing.
    pub(crate) fn put(&mut self, long: bool, waiter: Waiter) -> Result<(), AllocError>
        ensures put { OnOk result (self.new ≡ put_behind long waiter self.old) }
        ensures same { OnErr result (self.new ≡ self.old) }
    {
        if long {
            self.long.push_back(waiter)?;
        } else {
            self.short.push_back(waiter)?;
        }
        Ok(())
    }

    /// The first of a kind waits no more.
    pub(crate) fn take_off(&mut self, long: bool) -> Option<Waiter>
        ensures first { result ≡ front long self.old }
        ensures after { self.new ≡ without_front long self.old }
    {
        if long {
            self.long.pop_front()
        } else {
            self.short.pop_front()
        }
    }

    /// Whether the one that came first of all has a long text.
    pub(crate) fn begins_long(&self) -> bool
        ensures { result ≡ begins_long self.now }
    {
        match (self.front(true), self.front(false)) {
            (Some(long), Some(short)) => long.turn < short.turn,
            (long, _) => long.is_some(),
        }
    }

    /// Whether none waits.
    pub(crate) fn is_empty(&self) -> bool
        ensures { result ≡ is_empty self.now }
    {
        self.long.is_empty() && self.short.is_empty()
    }

    /// How many wait.
    pub(crate) fn len(&self) -> usize
        ensures { result ≡ min (length self.now.long + length self.now.short) 0xFFFF_FFFF_FFFF_FFFF }
    {
        self.long.len().saturating_add(self.short.len())
    }
}
