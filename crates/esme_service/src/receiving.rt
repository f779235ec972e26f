//! Over which session a deliver_sm goes.

ghost use Rattle.std.specs.Prelude.{[], ◌≡◌, ◌≤◌, ℕ, IfOk, IsOk, None};
ghost use Rattle.std.specs.Option.{option_copied};
ghost use Rattle.esme_service.specs.Pushes.{accounts_up, is_of, receiver_of, session_at, takes_for, target_in};
ghost use Rattle.esme_service.specs.Pushing.{IsPushed};

use crate::pushed_on::PushedOn;
use mc_types::Moment;
use pdu_codec::SystemId;
use sessions::{Delivery, Session};
use std::alloc::{AllocError, Global};
use std::collections::BTreeMap;

/// The lowest number that a session may have, and the highest.
const FIRST_SESSION: u8 = 1;

const LAST_SESSION: u8 = 99;

/// The account of each session that may receive.
pub(crate) fn accounts_up(
    alloc: Global,
    sessions: &BTreeMap<u8, Session>,
) -> Result<Vec<SystemId>, AllocError>
    ensures up { IfOk result (λ up. up.items ≡ accounts_up sessions.now.entries) }
    ensures none { accounts_up sessions.now.entries ≡ [] → IsOk result }
{
    let mut accounts = Vec::new(alloc);
    let end = behind_last(sessions);
    for number in FIRST_SESSION..end {
        if let Some(account) = receiver_of(sessions.get(&number)) {
            accounts.push(account.copy()?)?;
        }
    }
    Ok(accounts)
}

/// The number behind the highest of a session, 100 at most; 1 if there is none.
fn behind_last(sessions: &BTreeMap<u8, Session>) -> u8
    ensures most { result ≤ 100 }
    ensures gone { (number : ℕ) → result ≤ number → number ≤ 99 → session_at sessions.now.entries number ≡ None }
{
    match sessions.last_key_value() {
        Some((number, _)) => (*number).min(LAST_SESSION) + 1,
        None => FIRST_SESSION,
    }
}

/// The account of a session, if it may receive.
fn receiver_of(session: Option<&Session>) -> Option<&SystemId>
    ensures { option_copied result ≡ receiver_of (option_copied session.entry) }
{
    let session = session?;
    if !session.state().may_receive() {
        return None;
    }
    session.account()
}

/// Pushes a deliver_sm over the session with the lowest number that takes it for this account. `long` tells that its text is an optional parameter.
pub(crate) fn push(
    sessions: &mut BTreeMap<u8, Session>,
    long: bool,
    target: &SystemId,
    now: Moment,
    delivery: Delivery,
) -> Option<PushedOn>
    ensures { IsPushed sessions.old.entries long target.now now delivery sessions.new.entries result }
{
    let number = target_in(sessions, long, target)?;
    let Some(session) = sessions.get_mut(&number) else {
        unreachable!();
    };
    let knows_optional = session.knows_optional();
    let Ok(sequence) = session.push_request(now, delivery) else {
        unreachable!();
    };
    Some(PushedOn {
        number,
        sequence,
        knows_optional,
    })
}

/// The lowest number of a session that takes a deliver_sm for this account.
fn target_in(sessions: &BTreeMap<u8, Session>, long: bool, target: &SystemId) -> Option<u8>
    ensures { result ≡ target_in sessions.now.entries long target.now }
{
    let end = behind_last(sessions);
    for number in FIRST_SESSION..end {
        if takes_for(long, target, sessions.get(&number)) {
            return Some(number);
        }
    }
    None
}

/// Whether a session is of the account, may receive, and has room; for a text that is an optional parameter it has to know these.
fn takes_for(long: bool, target: &SystemId, session: Option<&Session>) -> bool
    ensures { result ≡ takes_for long target.now (option_copied session.entry) }
{
    let Some(session) = session else {
        return false;
    };
    session.push_refusal().is_none()
        && is_of(target, session.account())
        && (!long || session.knows_optional())
}

/// Whether it is the account.
fn is_of(target: &SystemId, account: Option<&SystemId>) -> bool
    ensures { result ≡ is_of target.now (option_copied account.entry) }
{
    match account {
        Some(account) => account.octets() == target.octets(),
        None => false,
    }
}
