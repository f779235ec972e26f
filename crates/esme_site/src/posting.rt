//! Receipts go out.

ghost use Rattle.std.specs.Prelude.{◌≡◌, [], map, OnErr, OnOk};
ghost use Rattle.node_model.specs.Reported.{receipt_of};
ghost use Rattle.script_text.specs.Receipts.{all_posted, posted, posted_for, posted_for_all};
ghost use Rattle.esme_site.specs.Puts.{HasSettled, SettlesOrStays, mail_in, posted_on};

use crate::outlet::{Outlet, put_or_lose};
use esme_service::Service;
use fate_chain::Chain;
use mc_types::Moment;
use pdu_codec::SystemId;
use std::alloc::AllocError;

/// The receipts that wait for an account go out at a moment, the oldest first, as far as its sessions take them. An `Err` is want of memory for some of them:
/// whose receipt was not put has lost its session, and the others were put.
pub fn post_for<O: Outlet>(
    service: &mut Service,
    outlet: &mut O,
    now: Moment,
    account: &SystemId,
) -> Result<(), AllocError>
    ensures mail { mail_in service.new ≡ (posted_for now (mail_in service.old) account.now).next }
    ensures put { OnOk result (O.puts outlet.old (posted_for now (mail_in service.old) account.now).prints [] outlet.new) }
    ensures err { OnErr result (HasSettled O.puts (posted_for now (mail_in service.old) account.now).prints outlet.old outlet.new) }
{
    let mut posted = Ok(());
    'receipts: loop {
        let Some(sending) = service.next_receipt(account, now) else {
            return posted;
        };
        posted = posted.and(put_or_lose(outlet, &sending));
    }
}

/// The receipts that wait for the account of the session of a number go out at a moment, as far as its sessions take them; none if nobody is bound there. An `Err`
/// is as that of `post_for`, or nothing went out and nothing changed.
pub fn post_on<O: Outlet>(
    service: &mut Service,
    outlet: &mut O,
    now: Moment,
    number: u8,
) -> Result<(), AllocError>
    ensures mail { OnOk result (mail_in service.new ≡ (posted_on now service.old number).next) }
    ensures put { OnOk result (O.puts outlet.old (posted_on now service.old number).prints [] outlet.new) }
    ensures err { OnErr result (SettlesOrStays O.puts (posted_on now service.old number) service.old outlet.old service.new outlet.new) }
{
    if !service.has_receipts() {
        return Ok(());
    }
    let Some(account) = service.account(number) else {
        return Ok(());
    };
    let account = account.copy()?;
    post_for(service, outlet, now, &account)
}

/// The receipts that wait for these accounts go out, for one account after the other. An `Err` is as that of `post_for`.
pub fn post_for_all<O: Outlet>(
    service: &mut Service,
    outlet: &mut O,
    now: Moment,
    accounts: &[SystemId],
) -> Result<(), AllocError>
    ensures mail { mail_in service.new ≡ (posted_for_all now (mail_in service.old) accounts.now).next }
    ensures put { OnOk result (O.puts outlet.old (posted_for_all now (mail_in service.old) accounts.now).prints [] outlet.new) }
    ensures err { OnErr result (HasSettled O.puts (posted_for_all now (mail_in service.old) accounts.now).prints outlet.old outlet.new) }
{
    let mut posted = Ok(());
    for account in accounts {
        posted = posted.and(post_for(service, outlet, now, account));
    }
    posted
}

/// Receipts are due, by the chains of their messages: each waits for its account, and goes out at this moment if it can. An `Err` is want of memory for some of
/// them: each of these did not come to wait, or its session is lost; the others wait or were put.
pub fn post_all<O: Outlet>(
    service: &mut Service,
    outlet: &mut O,
    now: Moment,
    chains: &[Chain],
) -> Result<(), AllocError>
    ensures mail { OnOk result (mail_in service.new ≡ (all_posted now (mail_in service.old) (map receipt_of chains.now)).next) }
    ensures put { OnOk result (O.puts outlet.old (all_posted now (mail_in service.old) (map receipt_of chains.now)).prints [] outlet.new) }
{
    let mut posted = Ok(());
    for chain in chains {
        posted = posted.and(post(service, outlet, now, chain));
    }
    posted
}

/// A receipt is due: it waits for its account, and goes out if it can. An `Err` is want of memory.
fn post<O: Outlet>(
    service: &mut Service,
    outlet: &mut O,
    now: Moment,
    chain: &Chain,
) -> Result<(), AllocError>
    ensures mail { OnOk result (mail_in service.new ≡ (posted now (mail_in service.old) (receipt_of chain.now)).next) }
    ensures put { OnOk result (O.puts outlet.old (posted now (mail_in service.old) (receipt_of chain.now)).prints [] outlet.new) }
{
    service.post(chain.copy()?)?;
    post_for(service, outlet, now, &chain.submission().submitter)
}
