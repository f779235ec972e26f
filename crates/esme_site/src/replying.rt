//! Replies go out.

ghost use Rattle.std.specs.Prelude.{◌≡◌, [], map, OnErr, OnOk};
ghost use Rattle.esme_service.specs.Replies.{owner_of, replied};
ghost use Rattle.waiting_requests.specs.Replying.{reply_given};
ghost use Rattle.script_text.specs.Runner.{reply_prints, told};
ghost use Rattle.esme_site.specs.Puts.{HasSettled};

use crate::outlet::{Outlet, put_or_lose};
use esme_service::Service;
use std::alloc::AllocError;
use waiting_requests::Reply;

/// Replies to requests that waited go out, one after another, each on the session that holds its ticket; if that is gone, it is dropped. An `Err` is want of
/// memory for some of them: whose reply was not put has lost its session, and the others were put.
pub fn reply_all<O: Outlet>(
    service: &mut Service,
    outlet: &mut O,
    replies: &[Reply],
) -> Result<(), AllocError>
    ensures sessions { service.new.sessions ≡ (told service.old.sessions (map reply_given replies.now)).next }
    ensures waiting { service.new.waiting ≡ service.old.waiting }
    ensures put { OnOk result (O.puts outlet.old (told service.old.sessions (map reply_given replies.now)).prints [] outlet.new) }
    ensures err { OnErr result (HasSettled O.puts (told service.old.sessions (map reply_given replies.now)).prints outlet.old outlet.new) }
{
    let mut replied = Ok(());
    for reply in replies {
        replied = replied.and(reply_one(service, outlet, reply));
    }
    replied
}

/// A reply goes out on the session that holds its ticket; if that is gone, nothing goes out. An `Err` is want of memory: the session is lost.
fn reply_one<O: Outlet>(
    service: &mut Service,
    outlet: &mut O,
    reply: &Reply,
) -> Result<(), AllocError>
    ensures service { service.new ≡ record service.old {
      sessions = replied service.old.sessions reply.now.ticket (owner_of service.old.sessions reply.now.ticket);
    } }
    ensures put { OnOk result (O.puts outlet.old (reply_prints (reply_given reply.now) (owner_of service.old.sessions reply.now.ticket)) [] outlet.new) }
    ensures err { OnErr result (HasSettled O.puts (reply_prints (reply_given reply.now) (owner_of service.old.sessions reply.now.ticket)) outlet.old outlet.new) }
{
    match reply.copy() {
        Ok(copy) => match service.reply(copy) {
            Some(sending) => put_or_lose(outlet, &sending),
            None => Ok(()),
        },
        Err(fault) => {
            if let Some(unsent) = service.reply(Reply::too_late(reply.ticket(), reply.id())) {
                outlet.lose(unsent.number());
            }
            Err(fault)
        }
    }
}
