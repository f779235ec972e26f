//! Which accounts are up at which nodes.

ghost use Rattle.std.specs.Prelude.{◌≡◌, ◌+◌, ◌<◌, ◌↔◌, false, length, map, slice_get, IsTrue, MatchOption};
ghost use Rattle.std.specs.Option.{option_map_or};
ghost use Rattle.waiting_messages.specs.Accounts.{is_among};
ghost use Rattle.waiting_messages.specs.Spreads.{Begins, IsDown, IsFirstUp, behind, is_up_at};

use crate::accounts::is_among;
use mc_types::NodeNo;
use pdu_codec::SystemId;
use std::marker::Model;

/// Which accounts have a session that may receive at which nodes, node 1 first.
#[derive(Drop)]
pub struct Spread {
    up: Vec<Vec<SystemId>>,
}

impl Model for Spread {
    ghost use Rattle.std.specs.Prelude.{ℕ, List, map};

    ghost Value = { List (List (List ℕ)) };

    ghost view = { λ spread. map (λ accounts. accounts.items) spread.up.items };
}

impl Spread {
    /// By the accounts that are up at each node, node 1 first.
    pub fn of(up: Vec<Vec<SystemId>>) -> Spread
        ensures { result ≡ map (λ accounts. accounts.items) up.items }
    {
        Spread { up }
    }

    /// Whether a node is to begin the next attempt of a message of this home, that goes to this account: of the nodes at which the account is up, that of the
    /// message or the first behind it, counted round, begins it. Else they would begin the same one at odds.
    pub fn names(&self, node: NodeNo, home: NodeNo, account: &SystemId) -> bool
        ensures { IsTrue result ↔ Begins self.now node home account.now }
    {
        match self.first_up(home, account) {
            Some(steps) => self.behind(home, steps) == usize::from(node.number()) - 1,
            None => false,
        }
    }

    /// How many steps behind the home, counted round, the first node lies at which the account is up; none if it is up at none.
    fn first_up(&self, home: NodeNo, account: &SystemId) -> Option<usize>
        ensures { MatchOption result (IsDown self.now home account.now) (IsFirstUp self.now home account.now) }
    {
        for steps in 0..self.up.len() {
            if self.is_up_at(self.behind(home, steps), account) {
                return Some(steps);
            }
        }
        None
    }

    /// At which place the node lies that is so many steps behind another one, counted round.
    fn behind(&self, home: NodeNo, steps: usize) -> usize
        requires { steps < length self.now }
        ensures { result + 1 ≡ behind (length self.now) home steps }
    {
        let up: &[Vec<SystemId>] = &self.up;
        (usize::from(home.number()) - 1 + steps) % up.len()
    }

    /// Whether an account is up at the node of a place.
    fn is_up_at(&self, place: usize, account: &SystemId) -> bool
        ensures { result ≡ is_up_at self.now (place + 1) account.now }
    {
        is_up_in(&self.up, place, account)
    }
}

/// Whether an account is among those of a place.
fn is_up_in(up: &[Vec<SystemId>], place: usize, account: &SystemId) -> bool
    ensures { result ≡ option_map_or (λ accounts. is_among account.now accounts.items) (slice_get up.now place) false }
{
    match up.get(place) {
        Some(accounts) => is_among(accounts, account),
        None => false,
    }
}
