//! Messages that wait for their next attempt.

ghost use Rattle.std.specs.Prelude.{◌≡◌, ◌<◌, ◌≤◌, [], false, true, count_by, length, IfOk, OnErr, OnOk};
ghost use Rattle.std.specs.List.{list_any};
ghost use Rattle.waiting_messages.specs.Backlogs as backlogs;
ghost use Rattle.waiting_messages.specs.Named.{NameableTest, NamesFew, NamesFirst, NamesShares, all_passed_in, firsts_in, share_of};
ghost use Rattle.waiting_messages.specs.Queues.{all_named};

use crate::attempt::next_due;
use crate::naming::Naming;
use crate::queue::Queue;
use fate_chain::Chain;
use mc_types::{Moment, MsgId, NodeNo};
use node_parts::MessageIds;
use pdu_codec::SystemId;
use std::alloc::{AllocError, Global};
use std::marker::Model;

/// Messages that wait for their next attempt, by the accounts that they go to: a hint of which a tick may begin one next. If there was no memory for one, the next
/// tick may begin one of each.
#[derive(Drop)]
pub struct Backlog {
    alloc: Global,
    queues: Vec<Queue>,
    // Whether there was memory for each that was noted.
    is_whole: bool,
}

impl Model for Backlog {
    ghost use Rattle.waiting_messages.specs.Backlogs.{Backlog};

    ghost Value = { Backlog };

    ghost view = { λ backlog. record { queues = backlog.queues.items; is_whole = backlog.is_whole } };
}

impl Backlog {
    /// None waits.
    pub fn none(alloc: Global) -> Backlog
        ensures queues { result.queues ≡ [] }
        ensures whole { result.is_whole ≡ true }
    {
        Backlog {
            alloc,
            queues: Vec::new(alloc),
            is_whole: true,
        }
    }

    /// A node voted for a chain of a message: it waits behind that for its next attempt, or it does not. If there is no memory it does not, and the backlog is not
    /// whole.
    pub fn note(&mut self, chain: &Chain)
        ensures { backlogs.IsNoted chain.now self.old self.new }
    {
        let account = &chain.submission().target;
        let home = chain.home();
        let id = chain.id();
        match next_due(chain) {
            Some(from) => self.put(account, home, id, from.seconds()),
            None => take_off(&mut self.queues, account, home, id),
        }
    }

    /// A message waits in the queue of its account and home. If there is no memory it does not, and the backlog is not whole.
    fn put(&mut self, account: &SystemId, home: NodeNo, id: MsgId, from: u32)
        ensures { backlogs.IsPut account.now home id from self.old self.new }
    {
        if put(self.alloc, &mut self.queues, account, home, (from, id)).is_err() {
            self.is_whole = false;
        }
    }

    /// Whether there was memory for each that was noted or named. From now on it counts so, since the tick may begin an attempt of each.
    pub fn was_whole(&mut self) -> bool
        ensures was { result ≡ self.old.is_whole }
        ensures queues { self.new.queues ≡ self.old.queues }
        ensures whole { self.new.is_whole ≡ true }
    {
        let was = self.is_whole;
        self.is_whole = true;
        was
    }

    /// Whether a message that goes to this account is due at this moment.
    pub fn is_due(&self, account: &SystemId, now: Moment) -> bool
        ensures { result ≡ list_any (backlogs.is_due_for account.now now) self.now.queues }
    {
        let now = now.seconds();
        self.queues
            .iter()
            .any(|queue| queue.is_for(account) && queue.is_due(now))
    }

    /// Names the messages that go to this account and are due, of which a node begins the attempts: so many at most, or one of each node's if these are more. Of
    /// each node's it names as many, the earliest first, so that those of one do not starve those of another. An `Err` is want of memory: some of them are named,
    /// and the backlog is not whole.
    pub fn name(
        &mut self,
        naming: &Naming<'_>,
        account: &SystemId,
        most: usize,
        named: &mut MessageIds,
    ) -> Result<(), AllocError>
        ensures named { NamesFew naming.entry.now.spread.now naming.entry.now.node naming.entry.now.now most account.now self.old.queues named.old named.new }
        ensures shares { OnOk result (NamesShares naming.entry.now.spread.now naming.entry.now.node naming.entry.now.now most account.now
            self.old.queues self.new.queues named.old named.new) }
        ensures whole { OnOk result (self.new.is_whole ≡ self.old.is_whole) }
        ensures lack { OnErr result (self.new.is_whole ≡ false) }
    {
        let share = share(&self.queues, naming, account, most);
        if share == 0 {
            return Ok(());
        }
        let is_named = name_all(&mut self.queues, naming, account, share, named);
        if is_named.is_err() {
            self.is_whole = false;
        }
        is_named
    }
}

/// How many of each node's may be named, if so many may be in all, and some are due.
fn share(queues: &[Queue], naming: &Naming<'_>, account: &SystemId, most: usize) -> usize
    ensures within { result ≤ most }
    ensures share { (test : NameableTest naming.entry.now.spread.now naming.entry.now.node naming.entry.now.now account.now) →
        result ≡ share_of most (count_by test.passes queues.now) }
{
    let mut among = 0usize;
    for queue in queues {
        if naming.has(queue, account) {
            among = among.saturating_add(1);
        }
    }
    if among == 0 || most == 0 {
        0
    } else {
        (most / among).max(1)
    }
}

/// Names the first messages of each queue that go to this account and of which a node begins the attempts, so many at most. An `Err` is want of memory.
fn name_all(
    queues: &mut Vec<Queue>,
    naming: &Naming<'_>,
    account: &SystemId,
    share: usize,
    named: &mut MessageIds,
) -> Result<(), AllocError>
    ensures first { NamesFirst naming.entry.now.spread.now naming.entry.now.node naming.entry.now.now share account.now queues.old.items named.old named.new }
    ensures named { OnOk result ((test : NameableTest naming.entry.now.spread.now naming.entry.now.node naming.entry.now.now account.now) →
        named.new ≡ all_named named.old (firsts_in test.passes naming.entry.now.now share queues.old.items)) }
    ensures passed { OnOk result ((test : NameableTest naming.entry.now.spread.now naming.entry.now.node naming.entry.now.now account.now) →
        queues.new.items ≡ all_passed_in test.passes naming.entry.now.now share queues.old.items) }
{
    for queue in queues.iter_mut() {
        if naming.has(queue, account) {
            queue.name_first(naming.now.seconds(), share, named)?;
        }
    }
    Ok(())
}

/// Where messages of a node wait for an account, if there is a queue of them.
fn place_of(queues: &[Queue], account: &SystemId, home: NodeNo) -> Option<usize>
    ensures { result ≡ backlogs.place_of account.now home queues.now }
{
    queues.iter().position(|queue| queue.is_of(account, home))
}

/// Where messages of a node wait for an account, from now on. An `Err` is want of memory, and changes nothing.
fn queue_for(
    alloc: Global,
    queues: &mut Vec<Queue>,
    account: &SystemId,
    home: NodeNo,
) -> Result<usize, AllocError>
    ensures place { IfOk result (λ place. place ≡ backlogs.place_in account.now home queues.old.items) }
    ensures within { IfOk result (λ place. place < length queues.new.items) }
    ensures queues { OnOk result (queues.new.items ≡ backlogs.with_queue account.now home queues.old.items) }
    ensures same { OnErr result (queues.new.items ≡ queues.old.items) }
{
    if let Some(place) = place_of(queues, account, home) {
        return Ok(place);
    }
    let place = queues.len();
    let account = account.copy()?;
    queues.push(Queue::empty(alloc, account, home))?;
    Ok(place)
}

/// A message waits, and is due from a moment on. An `Err` is want of memory, and then it does not.
fn put(
    alloc: Global,
    queues: &mut Vec<Queue>,
    account: &SystemId,
    home: NodeNo,
    due: (u32, MsgId),
) -> Result<(), AllocError>
    ensures put { OnOk result (queues.new.items ≡ backlogs.put account.now home due.1 due.0 queues.old.items) }
    ensures left { OnErr result (backlogs.IsLeft account.now home due.1 queues.old.items queues.new.items) }
{
    let place = queue_for(alloc, queues, account, home)?;
    queues[place].put(due.1, due.0)
}

/// A message waits no more.
fn take_off(queues: &mut Vec<Queue>, account: &SystemId, home: NodeNo, id: MsgId)
    ensures { queues.new.items ≡ backlogs.without account.now home id queues.old.items }
{
    if let Some(place) = place_of(queues, account, home) {
        queues[place].take_off(id);
    }
}
