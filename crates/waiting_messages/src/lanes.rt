//! Messages that wait for a worker.

ghost use Rattle.std.specs.Prelude.{◌≡◌, ◌⊎◌, ℕ, ◌<◌, [], false, true, find, is_some, length, option_and_then, option_map, slice_get, IfOk, IsTrue, OnErr, OnOk};
ghost use Rattle.std.specs.Option.{option_copied, option_map_or};
ghost use Rattle.waiting_messages.specs.Lanes.{begins_long, changed_at, count_in, front, is_of, place_in, place_of, put, put_behind, taken_off, tidied, waits, with_lane, without_front};

use crate::lane::{Lane, Waiter};
use mc_types::MsgId;
use pdu_codec::SystemId;
use std::alloc::{AllocError, Global};
use std::collections::BTreeSet;
use std::marker::Model;

/// Messages of which an attempt may be granted, and for which no worker was free, by the accounts that they go to. Nothing rests on them: ticks look for those
/// that do not wait here.
#[derive(Drop)]
pub struct Lanes {
    alloc: Global,
    lanes: Vec<Lane>,
    // The numbers of all that wait.
    waiting: BTreeSet<u64>,
    // How many have come to wait.
    turns: u64,
}

impl Model for Lanes {
    ghost use Rattle.waiting_messages.specs.Lanes.{Lanes, StandOnce};

    ghost Value = { Lanes };

    ghost view = { λ lanes. record { lanes = lanes.lanes.items; turns = lanes.turns } };

    ghost invariant = { λ lanes. StandOnce lanes.waiting.keys lanes.lanes.items };
}

impl Lanes {
    /// None waits.
    pub fn none(alloc: Global) -> Lanes
        ensures lanes { result.lanes ≡ [] }
        ensures turns { result.turns ≡ 0 }
    {
        Lanes {
            alloc,
            lanes: Vec::new(alloc),
            waiting: BTreeSet::new(alloc),
            turns: 0,
        }
    }

    /// How many lanes there are.
    pub fn len(&self) -> usize
        ensures { result ≡ length self.now.lanes }
    {
        self.lanes.len()
    }

    /// Whether none waits.
    pub fn is_empty(&self) -> bool
        ensures none { IsTrue result → (id : ℕ) → waits id self.now ≡ false }
        ensures some { result ≡ false → (id : ℕ) × (waits id self.now ≡ true) }
    {
        self.waiting.is_empty()
    }

    /// Whether a message waits.
    pub fn has(&self, id: MsgId) -> bool
        ensures { result ≡ waits id self.now }
    {
        self.waiting.contains(&id.number())
    }

    /// Where messages for this account wait, if some do or did.
    pub fn place_of(&self, account: &SystemId) -> Option<usize>
        ensures { result ≡ place_of account.now self.now.lanes }
    {
        place_of(&self.lanes, account)
    }

    /// Whether messages of this kind wait for this account.
    pub fn holds(&self, account: &SystemId, long: bool) -> bool
        ensures { result ≡ is_some (option_and_then (front long) (find (is_of account.now) self.now.lanes)) }
    {
        match self.lane_of(account) {
            Some(lane) => lane.front(long).is_some(),
            None => false,
        }
    }

    /// The first message of a kind in a lane.
    pub fn first(&self, place: usize, long: bool) -> Option<MsgId>
        ensures { result ≡ option_map (λ waiter. waiter.id) (option_and_then (front long) (slice_get self.now.lanes place)) }
    {
        let waiter = self.lanes.get(place)?.front(long)?;
        Some(waiter.id)
    }

    /// How many messages wait for this account.
    pub fn count(&self, account: &SystemId) -> usize
        ensures { result ≡ count_in (find (is_of account.now) self.now.lanes) }
    {
        match self.lane_of(account) {
            Some(lane) => lane.len(),
            None => 0,
        }
    }

    /// The lane of an account, if it has one.
    fn lane_of(&self, account: &SystemId) -> Option<&Lane>
        ensures { option_copied result ≡ find (is_of account.now) self.now.lanes }
    {
        self.lanes.iter().find(|lane| lane.is_of(account))
    }

    /// Whether the message that came first to a lane has a long text.
    pub fn begins_long(&self, place: usize) -> bool
        ensures { result ≡ option_map_or begins_long (slice_get self.now.lanes place) false }
    {
        match self.lanes.get(place) {
            Some(lane) => lane.begins_long(),
            None => false,
        }
    }

    /// The first message of a kind in a lane waits no more.
    pub fn take_off(&mut self, place: usize, long: bool)
        ensures { self.new ≡ taken_off place long self.old }
    {
        if let Some(waiter) = take_front(&mut self.lanes, place, long) {
            let _ = self.waiting.remove(&waiter.id.number());
        }
    }

    /// A message waits behind the others of its kind for its account, unless it waits already. An `Err` is want of memory, and then it does not: nothing changes
    /// but that its account may have a lane in which none waits.
    pub fn put(&mut self, account: SystemId, long: bool, id: MsgId) -> Result<(), AllocError>
        ensures put { OnOk result (self.new ≡ put account long id self.old) }
        ensures turns { OnErr result (self.new.turns ≡ self.old.turns) }
        ensures lanes { OnErr result ((self.new.lanes ≡ self.old.lanes) ⊎ (self.new.lanes ≡ with_lane account self.old.lanes)) }
        ensures memory { OnErr result (waits id self.old ≡ false) }
    {
        if self.has(id) {
            drop(account);
            return Ok(());
        }
        let place = lane_for(self.alloc, &mut self.lanes, account)?;
        let _ = self.waiting.insert(id.number())?;
        let turn = self.turns;
        if line_up(&mut self.lanes, place, long, Waiter { id, turn }).is_err() {
            let _ = self.waiting.remove(&id.number());
            return Err(AllocError);
        }
        self.turns = turn.saturating_add(1);
        Ok(())
    }

    /// Lanes in which none waits are gone.
    pub fn tidy(&mut self)
        ensures { self.new ≡ tidied self.old }
    {
        self.lanes.retain(|lane| !lane.is_empty());
    }

    /// None waits any more.
    pub fn clear(&mut self)
        ensures lanes { self.new.lanes ≡ [] }
        ensures turns { self.new.turns ≡ self.old.turns }
    {
        self.lanes.clear();
        self.waiting.clear();
    }
}

/// Where messages for an account wait, if some do or did.
fn place_of(lanes: &[Lane], account: &SystemId) -> Option<usize>
    ensures { result ≡ place_of account.now lanes.now }
{
    lanes.iter().position(|lane| lane.is_of(account))
}

/// The first message of a kind in a lane waits no more: which one, if one did.
fn take_front(lanes: &mut Vec<Lane>, place: usize, long: bool) -> Option<Waiter>
    ensures first { result ≡ option_and_then (front long) (slice_get lanes.old.items place) }
    ensures after { lanes.new.items ≡ changed_at place (without_front long) lanes.old.items }
{
    if place >= lanes.len() {
        return None;
    }
    lanes[place].take_off(long)
}

/// A message comes behind the others of its kind in a lane. An `Err` is want of memory, and changes nothing.
fn line_up(
    lanes: &mut Vec<Lane>,
    place: usize,
    long: bool,
    waiter: Waiter,
) -> Result<(), AllocError>
    requires { place < length lanes.old.items }
    ensures put { OnOk result (lanes.new.items ≡ changed_at place (put_behind long waiter) lanes.old.items) }
    ensures same { OnErr result (lanes.new.items ≡ lanes.old.items) }
{
    lanes[place].put(long, waiter)
}

/// Where messages for this account wait, from now on. An `Err` is want of memory, and changes nothing.
fn lane_for(alloc: Global, lanes: &mut Vec<Lane>, account: SystemId) -> Result<usize, AllocError>
    ensures place { IfOk result (λ place. place ≡ place_in account lanes.old.items) }
    ensures within { IfOk result (λ place. place < length lanes.new.items) }
    ensures lanes { OnOk result (lanes.new.items ≡ with_lane account lanes.old.items) }
    ensures same { OnErr result (lanes.new.items ≡ lanes.old.items) }
{
    if let Some(place) = place_of(lanes, &account) {
        drop(account);
        return Ok(place);
    }
    let place = lanes.len();
    lanes.push(Lane::empty(alloc, account))?;
    Ok(place)
}
