//! What a node gives out is added to a text.

ghost use Rattle.std.specs.Prelude.{◌≡◌, map, OnOk};
ghost use Rattle.waiting_requests.specs.Replying.{reply_given};
ghost use Rattle.script_text.specs.Receipts.{all_posted, posted_for_all};
ghost use Rattle.script_text.specs.Runner.{told};
ghost use Rattle.esme_site.specs.Puts.{posted_on};
ghost use Rattle.script_site.specs.Posting.{IsPosted, mail_in};
ghost use Rattle.script_site.specs.Told.{AreTold};
ghost use Rattle.node_model.specs.Reported.{receipt_of};

use crate::lines::Lines;
use esme_service::Service;
use fate_chain::Chain;
use mc_types::{Moment, NodeNo};
use pdu_codec::SystemId;
use std::alloc::AllocError;
use waiting_requests::Reply;

/// Adds the lines of replies to requests that waited, one after another.
pub(crate) fn write_replies(
    text: &mut Vec<u8>,
    node: NodeNo,
    service: &mut Service,
    replies: Vec<Reply>,
) -> Result<(), AllocError>
    ensures told { OnOk result (AreTold node (told service.old.sessions (map reply_given replies.items)) service.new.sessions text.old.items text.new.items) }
    ensures waiting { OnOk result (service.new.waiting ≡ service.old.waiting) }
{
    let mut lines = Lines::behind(text, node);
    let replied = esme_site::reply_all(service, &mut lines, &replies);
    lines.put_back(text);
    replied
}

/// Adds the lines of the receipts that wait for the account of a session and go out now, the oldest first, as far as its sessions take them.
pub(crate) fn post_on(
    text: &mut Vec<u8>,
    node: NodeNo,
    service: &mut Service,
    now: Moment,
    number: u8,
) -> Result<(), AllocError>
    ensures { OnOk result (IsPosted node (posted_on now service.old number) service.new text.old.items text.new.items) }
{
    let mut lines = Lines::behind(text, node);
    let posted = esme_site::post_on(service, &mut lines, now, number);
    lines.put_back(text);
    posted
}

/// Adds the lines of the receipts that wait for these accounts and go out now, for one account after the other.
pub(crate) fn post_for_all(
    text: &mut Vec<u8>,
    node: NodeNo,
    service: &mut Service,
    now: Moment,
    accounts: &[SystemId],
) -> Result<(), AllocError>
    ensures { OnOk result (IsPosted node (posted_for_all now (mail_in service.old) accounts.now) service.new text.old.items text.new.items) }
{
    let mut lines = Lines::behind(text, node);
    let posted = esme_site::post_for_all(service, &mut lines, now, accounts);
    lines.put_back(text);
    posted
}

/// Receipts are due, by the chains of their messages: adds the lines of those that go out now, one after the other; the others wait.
pub(crate) fn post_all(
    text: &mut Vec<u8>,
    node: NodeNo,
    service: &mut Service,
    now: Moment,
    chains: Vec<Chain>,
) -> Result<(), AllocError>
    ensures { OnOk result (IsPosted node (all_posted now (mail_in service.old) (map receipt_of chains.items)) service.new text.old.items text.new.items) }
{
    let mut lines = Lines::behind(text, node);
    let posted = esme_site::post_all(service, &mut lines, now, &chains);
    lines.put_back(text);
    posted
}
