//! The receipts that wait for a session.

ghost use Rattle.std.specs.Prelude.{◌≡◌, ◌≤◌, ◌↔◌, ◌==◌, [], find, filter, length, position, option_map, IfErr, OnErr, OnOk, IsTrue};
ghost use Rattle.sessions.specs.Windows.{without_first};
ghost use Rattle.esme_service.specs.Reports.{is_for, waits};
ghost use Rattle.node_model.specs.Reported.{receipt_of};

use fate_chain::Chain;
use mc_types::MsgId;
use pdu_codec::SystemId;
use std::alloc::{AllocFailed, Global};
use std::marker::Model;

/// How many receipts wait for an account at most.
const MOST_WAITING: usize = 10_000;

/// The receipts that wait for a session of the account that is to get them, the oldest first, by the chains of their messages.
#[derive(Drop)]
pub struct Waiting {
    chains: Vec<Chain>,
}

impl Model for Waiting {
    ghost use Rattle.std.specs.Prelude.{List, map};
    ghost use Rattle.mc_model.specs.node.Outputs.{Receipt};
    ghost use Rattle.node_model.specs.Reported.{receipt_of};

    ghost Value = { List Receipt };

    ghost view = { λ waiting. map receipt_of waiting.chains.items };
}

impl Waiting {
    /// None.
    pub fn none(alloc: Global) -> Waiting
        ensures { result ≡ [] }
    {
        Waiting {
            chains: Vec::new(alloc),
        }
    }

    /// Whether none waits.
    pub fn is_empty(&self) -> bool
        ensures { result ≡ (length self.now == 0) }
    {
        self.chains.is_empty()
    }

    /// Where its memory is taken from.
    pub(crate) fn allocator(&self) -> Global {
        *self.chains.allocator()
    }

    /// One more waits for the account that submitted its message, by the chain of that; it is dropped if 10,000 wait for that account. The
    /// `Err` is want of memory, hands the chain back, and changes nothing.
    pub(crate) fn add(&mut self, chain: Chain) -> Result<(), AllocFailed<Chain>>
        ensures waits { OnOk result (self.new ≡ waits self.old (receipt_of chain)) }
        ensures back { IfErr result (λ failed. failed.value ≡ chain) }
        ensures err { OnErr result (self.new ≡ self.old) }
    {
        if is_full(&self.chains, &chain.submission().submitter) {
            drop(chain);
            return Ok(());
        }
        self.chains.push(chain)
    }

    /// The message of the oldest that waits for an account, if one does.
    pub(crate) fn first_for(&self, account: &SystemId) -> Option<MsgId>
        ensures { result ≡ option_map (λ receipt. receipt.id) (find (is_for account.now) self.now) }
    {
        let place = place_for(&self.chains, account)?;
        Some(self.chains[place].id())
    }

    /// Takes out the oldest that waits for an account, if one does.
    pub(crate) fn take_for(&mut self, account: &SystemId) -> Option<Chain>
        ensures taken { option_map receipt_of result ≡ find (is_for account.now) self.old }
        ensures rest { self.new ≡ without_first (is_for account.now) self.old }
    {
        let place = place_for(&self.chains, account)?;
        Some(self.chains.remove(place))
    }
}

/// Whether as many of these receipts are for an account as may be. They are counted only if there are so many in all.
fn is_full(chains: &[Chain], account: &SystemId) -> bool
    ensures { IsTrue result ↔ (10000 ≤ length (filter (λ chain. is_for account.now (receipt_of chain)) chains.now)) }
{
    chains.len() >= MOST_WAITING && count_for(chains, account) >= MOST_WAITING
}

/// How many of these receipts are for an account.
fn count_for(chains: &[Chain], account: &SystemId) -> usize
    ensures { result ≡ length (filter (λ chain. is_for account.now (receipt_of chain)) chains.now) }
{
    chains.iter().filter(|chain| is_for(account, chain)).count()
}

/// Where the first of these receipts stands that is for an account.
fn place_for(chains: &[Chain], account: &SystemId) -> Option<usize>
    ensures { result ≡ position (λ chain. is_for account.now (receipt_of chain)) chains.now }
{
    chains.iter().position(|chain| is_for(account, chain))
}

/// Whether the receipt by a chain is for an account: that which submitted the message.
fn is_for(account: &SystemId, chain: &Chain) -> bool
    ensures { result ≡ is_for account.now (receipt_of chain.now) }
{
    chain.submission().submitter.octets() == account.octets()
}
