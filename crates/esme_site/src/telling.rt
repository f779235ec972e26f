//! What a step of a node gave out goes out.

ghost use Rattle.std.specs.Prelude.{◌≡◌, [], map, OnOk};
ghost use Rattle.node_model.specs.Reported.{receipt_of};
ghost use Rattle.waiting_requests.specs.Replying.{reply_given};
ghost use Rattle.esme_site.specs.Puts.{given_out, mail_in};

use crate::outlet::Outlet;
use crate::posting::post_all;
use crate::replying::reply_all;
use esme_service::Service;
use fate_chain::Chain;
use mc_types::Moment;
use std::alloc::AllocError;
use waiting_requests::Reply;

/// What a step of the node gave out goes out at a moment: its replies, and then its receipts. An `Err` is as that of `reply_all` and `post_all`, which are both
/// made.
pub fn tell<O: Outlet>(
    service: &mut Service,
    outlet: &mut O,
    now: Moment,
    replies: &[Reply],
    receipts: &[Chain],
) -> Result<(), AllocError>
    ensures mail { OnOk result (mail_in service.new ≡ (given_out now service.old (map reply_given replies.now) (map receipt_of receipts.now)).next) }
    ensures put { OnOk result (O.puts outlet.old (given_out now service.old (map reply_given replies.now) (map receipt_of receipts.now)).prints [] outlet.new) }
{
    let replied = reply_all(service, outlet, replies);
    let posted = post_all(service, outlet, now, receipts);
    replied.and(posted)
}
