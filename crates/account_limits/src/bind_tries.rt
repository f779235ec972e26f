//! Who tried to bind a short time ago.

ghost use Rattle.std.specs.Prelude.{◌≡◌, count_by, position};
ghost use Rattle.account_limits.specs.Addresses.{same_address};

use crate::address::is_same;
use std::alloc::{AllocError, Global};
use std::marker::Model;
use std::net::IpAddr;

/// How long a try to bind counts, in milliseconds.
const SECOND: u64 = 1_000;

/// How many tries of one address count at a time (own).
const MOST_TRIES: usize = 5;

/// A try to bind: from where, and when, in milliseconds.
#[derive(Clone, Copy, Debug, PartialEq, Eq)]
pub struct BindTry {
    pub address: IpAddr,
    pub moment: u64,
}

impl BindTry {
    ghost use Rattle.account_limits.specs.Tries.{is_recent, is_try};

    /// Whether it is less than a second ago at a moment.
    fn is_recent(&self, moment: u64) -> bool
        ensures { result ≡ is_recent moment self.now }
    {
        moment.saturating_sub(self.moment) < SECOND
    }

    /// Whether it is that try.
    fn is(&self, other: &BindTry) -> bool
        ensures { result ≡ is_try other.now self.now }
    {
        is_same(&self.address, &other.address) && self.moment == other.moment
    }
}

/// The tries to bind of a second. It looks at no clock.
#[derive(Drop)]
pub struct BindTries {
    tries: Vec<BindTry>,
}

impl Model for BindTries {
    ghost use Rattle.std.specs.Prelude.{List};
    ghost use Rattle.account_limits.specs.declared.bind_tries.BindTry.{BindTry};

    ghost Value = { List BindTry };

    ghost view = { λ tries. tries.tries.items };
}

impl BindTries {
    ghost use Rattle.std.specs.Prelude.{[], IfOk, OnErr, nat_lt};
    ghost use Rattle.account_limits.specs.Tries.{is_from, is_try, left_by, recent, without};

    /// No tries. It takes no memory.
    pub fn none(alloc: Global) -> BindTries
        ensures { result ≡ [] }
    {
        BindTries {
            tries: Vec::new(alloc),
        }
    }

    /// Somebody tries to bind: whether fewer than five tries of that address are less than a second ago; then it counts, too. Those that are older are
    /// forgotten. An `Err` is want of memory; then it does not count.
    pub fn take(&mut self, a_try: BindTry) -> Result<bool, AllocError>
        ensures ok { IfOk result (λ taken. taken ≡ nat_lt (count_by (is_from a_try.address) (recent a_try.moment self.old)) 5) }
        ensures left { IfOk result (λ taken. self.new ≡ left_by taken a_try self.old) }
        ensures err { OnErr result (self.new ≡ recent a_try.moment self.old) }
    {
        forget_old(&mut self.tries, a_try.moment);
        if count_from(&self.tries, &a_try.address) >= MOST_TRIES {
            return Ok(false);
        }
        self.tries.push(a_try)?;
        Ok(true)
    }

    /// A try does not count any more, as it bound: the first that is the same is forgotten.
    pub fn give_back(&mut self, a_try: &BindTry)
        ensures { self.new ≡ without (position (is_try a_try.now) self.old) self.old }
    {
        if let Some(place) = place_of(&self.tries, a_try) {
            let _ = self.tries.remove(place);
        }
    }
}

ghost use Rattle.account_limits.specs.Tries.{is_from, is_try, recent};

/// How many of some tries are from an address.
fn count_from(tries: &[BindTry], address: &IpAddr) -> usize
    ensures { result ≡ count_by (is_from address.now) tries.now }
{
    tries
        .iter()
        .filter(|other| is_same(&other.address, address))
        .count()
}

/// Where the first of some tries is that is a given one.
fn place_of(tries: &[BindTry], a_try: &BindTry) -> Option<usize>
    ensures { result ≡ position (is_try a_try.now) tries.now }
{
    tries.iter().position(|other| other.is(a_try))
}

/// Forgets those of some tries that are a second ago at a moment, or longer.
fn forget_old(tries: &mut Vec<BindTry>, moment: u64)
    ensures { tries.new.items ≡ recent moment tries.old.items }
{
    tries.retain(|other| other.is_recent(moment));
}
