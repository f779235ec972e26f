//! What came of what was heard.

ghost use Rattle.std.specs.Prelude.{[], OnErr, OnOk};
ghost use Rattle.esme_site.specs.Heeding.{HasBegun, heeded_prints};

use crate::outlet::Outlet;
use esme_service::{Asked, HeardPdu};
use pdu_codec::SystemId;
use sessions::{Abandoned, Outgoing, Pushed};
use std::alloc::AllocError;

/// What came of what was heard on a session, and what is left to its caller.
#[derive(Drop)]
pub enum Heeded {
    /// Nothing.
    Nothing,
    /// This goes out.
    Response(Outgoing),
    /// A request was handed in: it waits, or this refuses it and goes out.
    Request(Asked, Option<Outgoing>),
    /// The ESME answers what was pushed, by this PDU: its caller concludes by it.
    Answer(Pushed, HeardPdu),
    /// This goes out, and that the session is gone: its caller gives up what was pushed there.
    Gone(Outgoing, Abandoned),
}

/// What came of what was heard on the session of a number is put, as far as it goes out. The centre has this system_id. An `Err` is want of memory; then the
/// first of it was put.
pub(crate) fn put_heeded<O: Outlet>(
    outlet: &mut O,
    system_id: &SystemId,
    number: u8,
    heeded: &Heeded,
) -> Result<(), AllocError>
    ensures put { OnOk result (O.puts outlet.old (heeded_prints system_id.now number heeded.now) [] outlet.new) }
    ensures err { OnErr result (HasBegun O.puts (heeded_prints system_id.now number heeded.now) outlet.old outlet.new) }
{
    match heeded {
        Heeded::Nothing | Heeded::Answer(..) | Heeded::Request(_, None) => Ok(()),
        Heeded::Response(outgoing) | Heeded::Request(_, Some(outgoing)) => {
            outlet.respond(system_id, number, *outgoing)
        }
        Heeded::Gone(outgoing, _) => {
            outlet.respond(system_id, number, *outgoing)?;
            outlet.end(number)
        }
    }
}
