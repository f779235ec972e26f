//! Messages of one node that wait for their next attempt and go to one account.

ghost use Rattle.std.specs.Prelude.{◌≡◌, ℕ, false, None, take, IfOk, OnErr, OnOk};
ghost use Rattle.waiting_messages.specs.Queues.{all_named, all_passed, counted_at, empty, first_due, is_due, is_due_from, is_for, is_of, lined_up, moment_of, passed, put, times_after, without};

use mc_types::{MsgId, NodeNo};
use node_parts::MessageIds;
use pdu_codec::SystemId;
use std::alloc::{AllocError, Global};
use std::collections::BTreeMap;
use std::marker::Model;

/// How often a message is named one after another, without an attempt of it being heard of.
const MOST_IN_VAIN: u8 = 10;

/// For how many seconds it is not named then: a vote that came late may have it here though it waits no more.
const PAUSE: u32 = 10;

/// Messages of one node that go to one account, by the moment from which on their next attempt is due, in seconds since 1970.
#[derive(Drop)]
pub(crate) struct Queue {
    alloc: Global,
    account: SystemId,
    home: NodeNo,
    // From when on each is due, and how often it was named since it came to wait so.
    waiting: BTreeMap<(u32, MsgId), u8>,
    // From when on each is due, by its id.
    moments: BTreeMap<MsgId, u32>,
}

impl Model for Queue {
    ghost use Rattle.waiting_messages.specs.Queues.{Queue};

    ghost Value = { Queue };

    ghost view = { λ queue. record { account = queue.account; home = queue.home; waiting = queue.waiting.entries; moments = queue.moments.entries } };
}

impl Queue {
    /// None of this node waits for this account.
    pub(crate) fn empty(alloc: Global, account: SystemId, home: NodeNo) -> Queue
        ensures { result ≡ empty account home }
    {
        Queue {
            alloc,
            account,
            home,
            waiting: BTreeMap::new(alloc),
            moments: BTreeMap::new(alloc),
        }
    }

    /// The node of which they are.
    pub(crate) fn home(&self) -> NodeNo
        ensures { result ≡ self.now.home }
    {
        self.home
    }

    /// Whether they go to an account.
    pub(crate) fn is_for(&self, account: &SystemId) -> bool
        ensures { result ≡ is_for account.now self.now }
    {
        self.account == *account
    }

    /// Whether it is that of an account and a node.
    pub(crate) fn is_of(&self, account: &SystemId, home: NodeNo) -> bool
        ensures { result ≡ is_of account.now home self.now }
    {
        self.home.number() == home.number() && self.is_for(account)
    }

    /// Whether one is due at this moment.
    pub(crate) fn is_due(&self, now: u32) -> bool
        ensures { result ≡ is_due now self.now }
    {
        match self.waiting.first_key_value() {
            Some((due, _)) => due.0 <= now,
            None => false,
        }
    }

    /// Whether a message waits and is due from this moment on.
    fn is_due_from(&self, id: MsgId, from: u32) -> bool
        ensures { result ≡ is_due_from id from self.now }
    {
        match self.moments.get(&id) {
            Some(moment) => *moment == from,
            None => false,
        }
    }

    /// A message waits, and is due from this moment on. An `Err` is want of memory, and then it does not wait here.
    pub(crate) fn put(&mut self, id: MsgId, from: u32) -> Result<(), AllocError>
        ensures put { OnOk result (self.new ≡ put id from self.old) }
        ensures left { OnErr result (self.new ≡ without id self.old) }
        ensures memory { OnErr result (is_due_from id from self.old ≡ false) }
    {
        if self.is_due_from(id, from) {
            return Ok(());
        }
        self.take_off(id);
        self.line_up(id, from)
    }

    /// A message that does not wait comes to wait. An `Err` is want of memory, and changes nothing.
    fn line_up(&mut self, id: MsgId, from: u32) -> Result<(), AllocError>
        requires { moment_of id self.old ≡ None }
        ensures put { OnOk result (self.new ≡ lined_up id from self.old) }
        ensures same { OnErr result (self.new ≡ self.old) }
    {
        let _ = self.moments.insert(id, from)?;
        if self.waiting.insert((from, id), 0).is_err() {
            let _ = self.moments.remove(&id);
            return Err(AllocError);
        }
        Ok(())
    }

    /// A message waits no more.
    pub(crate) fn take_off(&mut self, id: MsgId)
        ensures after { self.new ≡ without id self.old }
        ensures gone { moment_of id self.new ≡ None }
    {
        if let Some(from) = self.moments.remove(&id) {
            let _ = self.waiting.remove(&(from, id));
        }
    }

    /// Those that are due at this moment, the earliest first, so many at most. An `Err` is want of memory.
    fn first(&self, now: u32, most: usize) -> Result<Vec<(u32, MsgId)>, AllocError>
        ensures { IfOk result (λ first. first.items ≡ first_due now most self.now) }
    {
        self.waiting
            .keys()
            .copied()
            .take_while(|due| due.0 <= now)
            .take(most)
            .collect(self.alloc)
    }

    /// A message is named at this moment; if it was too often, not for a while from now on. An `Err` is want of memory, and then it waits no more.
    fn pass(&mut self, due: (u32, MsgId), now: u32) -> Result<(), AllocError>
        ensures { OnOk result (self.new ≡ passed now self.old due) }
    {
        let id = due.1;
        let Some(times) = self.count_up(due) else {
            return Ok(());
        };
        if times < MOST_IN_VAIN {
            return Ok(());
        }
        self.put(id, now.saturating_add(PAUSE))
    }

    /// A message is named once more, if it waits so: how often it was then.
    fn count_up(&mut self, due: (u32, MsgId)) -> Option<u8>
        ensures times { result ≡ times_after due self.old }
        ensures after { self.new ≡ counted_at (times_after due self.old) due self.old }
    {
        let named = self.waiting.get_mut(&due)?;
        let times = named.saturating_add(1);
        *named = times;
        Some(times)
    }

    /// Names those that are due at this moment, the earliest first, so many at most; one that was named too often is not named for a while from now on. An `Err`
    /// is want of memory: the first so many of them are named.
    pub(crate) fn name_first(
        &mut self,
        now: u32,
        most: usize,
        named: &mut MessageIds,
    ) -> Result<(), AllocError>
        ensures named { OnOk result (named.new ≡ all_named named.old (first_due now most self.old)) }
        ensures passed { OnOk result (self.new ≡ all_passed now self.old (first_due now most self.old)) }
        ensures some { OnErr result ((count : ℕ) × (named.new ≡ all_named named.old (take count (first_due now most self.old)))) }
    {
        let first = self.first(now, most)?;
        for due in &first {
            named.put(due.1)?;
            self.pass(*due, now)?;
        }
        Ok(())
    }
}
