//! What a tick is told of sessions and of messages.

ghost use Rattle.std.specs.Prelude.{◌≡◌, ◌↔◌, ℕ, IfOk, IsTrue};
ghost use Rattle.mc_model.specs.node.Reach.{of_all};
ghost use Rattle.delivery.specs.Targets.{is_up};
ghost use Rattle.tick_rules.specs.Reaching.{reached_by};
ghost use Rattle.node_parts.specs.Reaching.{IsSameReach, reach_of, reach_with};

use crate::may_begin::MayBegin;
use fate_chain::Submission;
use mc_types::MsgId;
use pdu_codec::SystemId;
use std::alloc::AllocError;
use tick_rules::Reached;

/// Which accounts have a session that may receive, and of which messages an attempt may begin.
#[derive(Drop)]
pub struct Reach {
    /// The accounts of which a session may receive.
    pub up: Vec<SystemId>,
    /// Of which messages an attempt may begin.
    pub may: MayBegin,
}

impl Reach {
    /// An attempt may begin of all messages whose account is one of these. It takes no memory.
    pub fn of_all(up: Vec<SystemId>) -> Reach
        ensures reach { reach_of result ≡ of_all (is_up up.items) }
        ensures up { result.up ≡ up }
    {
        Reach {
            up,
            may: MayBegin::All,
        }
    }

    /// What it says of a message of this id that was taken so. It takes no memory.
    pub fn reached(&self, id: MsgId, taken: &Submission) -> Reached
        ensures { result ≡ reached_by (reach_of self.now) id taken.now }
    {
        reached_with(&self.up, self.may.may(id), taken)
    }

    /// Whether the other is the same, with the same accounts in the same order. It takes no memory.
    pub fn is(&self, other: &Reach) -> bool
        ensures { IsTrue result ↔ IsSameReach self.now other.now }
    {
        are_same(&self.up, &other.up) && self.may.is(&other.may)
    }

    /// The same once more. An `Err` is want of memory.
    pub fn copy(&self) -> Result<Reach, AllocError>
        ensures { IfOk result (IsSameReach self.now) }
    {
        Ok(Reach {
            up: accounts_copied(&self.up)?,
            may: self.may.copy()?,
        })
    }
}

/// What is said of a message that was taken so, of these accounts, if an attempt may begin or not. It takes no memory.
pub(crate) fn reached_with(up: &[SystemId], tries: bool, taken: &Submission) -> Reached
    ensures { (id : ℕ) → result ≡ reached_by (reach_with (is_up up.now) tries) id taken.now }
{
    let up = is_up(up, &taken.target);
    Reached {
        up,
        begins: tries && up,
    }
}

/// Whether the account is one of these.
fn is_up(accounts: &[SystemId], target: &SystemId) -> bool
    ensures { result ≡ is_up accounts.now target.now }
{
    accounts
        .iter()
        .any(|account| account.octets() == target.octets())
}

/// Whether these accounts are the others, in the same order.
pub(crate) fn are_same(accounts: &[SystemId], others: &[SystemId]) -> bool
    ensures { IsTrue result ↔ (accounts.now ≡ others.now) }
{
    accounts == others
}

/// The same accounts once more.
fn accounts_copied(accounts: &Vec<SystemId>) -> Result<Vec<SystemId>, AllocError>
    ensures { IfOk result (λ copies. copies.items ≡ accounts.now.items) }
{
    let mut copies = Vec::new(*accounts.allocator());
    for account in accounts {
        copies.push(account.copy()?)?;
    }
    Ok(copies)
}
