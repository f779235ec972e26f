//! Which accounts could receive of late.

ghost use Rattle.std.specs.Prelude.{◌≡◌, ◌<◌, ◌++◌, ℕ, [], length, position, take, IfOk, IsOk, OnErr, OnOk};
ghost use Rattle.waiting_messages.specs.Presences.{absent_in, is_of, kept_in, lingers, seen_all, seen_one};

use crate::accounts::is_among;
use pdu_codec::SystemId;
use std::alloc::{AllocError, Global};
use std::marker::Model;

/// An account, and at which tick a session of it could receive last, in seconds since 1970.
#[derive(Drop)]
struct Seen {
    account: SystemId,
    second: u32,
}

impl Model for Seen {
    ghost use Rattle.waiting_messages.specs.Presences.{Seen};

    ghost Value = { Seen };

    ghost view = { λ seen. record { account = seen.account; second = seen.second } };
}

impl Seen {
    /// Whether it is that of an account.
    fn is_of(&self, account: &SystemId) -> bool
        ensures { result ≡ is_of account.now self.now }
    {
        self.account == *account
    }

    /// Whether it is not forgotten at a moment.
    fn lingers(&self, now: u32, linger_seconds: u32) -> bool
        ensures { result ≡ lingers now linger_seconds self.now }
    {
        u64::from(now) < u64::from(self.second) + u64::from(linger_seconds)
    }
}

/// The accounts of which a session could receive at a tick of late.
#[derive(Drop)]
pub struct Presence {
    seen: Vec<Seen>,
}

impl Model for Presence {
    ghost use Rattle.std.specs.Prelude.{List};
    ghost use Rattle.waiting_messages.specs.Presences.{Seen};

    ghost Value = { List Seen };

    ghost view = { λ presence. presence.seen.items };
}

impl Presence {
    /// None was seen yet.
    pub fn none(alloc: Global) -> Presence
        ensures { result ≡ [] }
    {
        Presence {
            seen: Vec::new(alloc),
        }
    }

    /// A session of each of these accounts may receive at this moment, in seconds since 1970. Those are forgotten of which none could for so many seconds. An
    /// `Err` is want of memory: the first so many of them count as seen now, and the others do not.
    pub fn see(&mut self, up: &[SystemId], now: u32, linger_seconds: u32) -> Result<(), AllocError>
        ensures seen { OnOk result (self.new ≡ seen_all now (kept_in now linger_seconds self.old) up.now) }
        ensures some { OnErr result ((count : ℕ) × (count < length up.now) × (self.new ≡ seen_all now (kept_in now linger_seconds self.old) (take count up.now))) }
    {
        self.forget(now, linger_seconds);
        for account in up {
            self.note(account, now)?;
        }
        Ok(())
    }

    /// Puts the accounts that were seen, and are not among these, behind them. An `Err` is want of memory, and they are what they were.
    pub fn append_absent(&self, up: &mut Vec<SystemId>) -> Result<(), AllocError>
        ensures appended { OnOk result (up.new.items ≡ up.old.items ++ absent_in up.old.items self.now) }
        ensures same { OnErr result (up.new.items ≡ up.old.items) }
        ensures memory { absent_in up.old.items self.now ≡ [] → IsOk result }
    {
        let mut absent = self.absent(up)?;
        if absent.is_empty() {
            return Ok(());
        }
        up.append(&mut absent)
    }

    /// The accounts that were seen, and are not among these.
    fn absent(&self, up: &Vec<SystemId>) -> Result<Vec<SystemId>, AllocError>
        ensures found { IfOk result (λ absent. absent.items ≡ absent_in up.now.items self.now) }
        ensures memory { absent_in up.now.items self.now ≡ [] → IsOk result }
    {
        let mut absent = Vec::new(*up.allocator());
        for seen in &self.seen {
            if !is_among(up, &seen.account) {
                absent.push(seen.account.copy()?)?;
            }
        }
        Ok(absent)
    }

    /// Those are forgotten of which no session could receive for so many seconds.
    fn forget(&mut self, now: u32, linger_seconds: u32)
        ensures { self.new ≡ kept_in now linger_seconds self.old }
    {
        self.seen.retain(|seen| seen.lingers(now, linger_seconds));
    }

    /// A session of an account may receive at this moment. An `Err` is want of memory, and changes nothing.
    fn note(&mut self, account: &SystemId, now: u32) -> Result<(), AllocError>
        ensures seen { OnOk result (self.new ≡ seen_one now self.old account.now) }
        ensures same { OnErr result (self.new ≡ self.old) }
    {
        if let Some(place) = self.place_of(account) {
            self.seen[place].second = now;
            return Ok(());
        }
        let account = account.copy()?;
        self.seen.push(Seen {
            account,
            second: now,
        })?;
        Ok(())
    }

    /// Where an account is remembered, if it is.
    fn place_of(&self, account: &SystemId) -> Option<usize>
        ensures { result ≡ position (is_of account.now) self.now }
    {
        self.seen.iter().position(|seen| seen.is_of(account))
    }
}
