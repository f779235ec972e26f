//! What a session makes of the octets of one frame.

ghost use Rattle.std.specs.Prelude.{◌≡◌, Err, Ok, IfOk, IsOk, OnErr, OnOk};
ghost use Rattle.accounts.specs.Routes.{target_of};
ghost use Rattle.pdu_codec.specs.Pdu.{read_pdu};
ghost use Rattle.sessions.specs.Steps.{on_pdu, on_wrong_length};
ghost use Rattle.esme_service.specs.Coming.{HasCome};
ghost use Rattle.esme_service.specs.Hearing.{asked_by, done_by, heard_in, heard_of, request_of, told_by};
ghost use Rattle.esme_service.specs.Settings.{settings_of};

use crate::heard::{Asked, Heard};
use crate::heard_pdu::HeardPdu;
use accounts::Routes;
use config::Config;
use desk::Request;
use pdu_codec::{Body, Pdu, PduFault, SystemId, decode, read_header};
use sessions::{Reaction, Requested, Session};
use std::alloc::{AllocError, Global};

/// The octets of one frame came on a session. An `Err` is want of memory, which only a PDU needs, and changes nothing.
pub(crate) fn hear_frame(
    alloc: Global,
    config: &Config,
    session: &mut Session,
    frame: &[u8],
) -> Result<Heard, AllocError>
    ensures next { OnOk result (session.new ≡ (done_by (settings_of config.now) session.old frame.now (read_pdu frame.now)).next) }
    ensures heard { IfOk result (λ heard.
        heard ≡ heard_in (settings_of config.now) (read_pdu frame.now) (done_by (settings_of config.now) session.old frame.now (read_pdu frame.now))) }
    ensures same { OnErr result (session.new ≡ session.old) }
    ensures memory { OnErr result (IsOk (read_pdu frame.now)) }
{
    let Some(header) = read_header(frame) else {
        return Ok(hear_wrong_length(session));
    };
    match decode(alloc, frame) {
        Ok(pdu) => hear_pdu(config, session, pdu),
        Err(PduFault::Memory) => Err(AllocError),
        Err(fault) => Ok(told(session.on_fault(header, fault))),
    }
}

/// Octets of a wrong length came on a session. It takes no memory.
pub(crate) fn hear_wrong_length(session: &mut Session) -> Heard
    ensures next { session.new ≡ (on_wrong_length session.old).next }
    ensures heard { result ≡ told_by (on_wrong_length session.old).reaction }
{
    told(session.on_wrong_length())
}

/// A PDU came on a session. An `Err` is want of memory, and changes nothing.
fn hear_pdu(config: &Config, session: &mut Session, pdu: Pdu) -> Result<Heard, AllocError>
    requires { HasCome pdu }
    ensures next { OnOk result (session.new ≡ (on_pdu config.now.accounts session.old pdu).next) }
    ensures heard { IfOk result (λ heard. heard ≡ heard_in (settings_of config.now) (Ok pdu) (on_pdu config.now.accounts session.old pdu)) }
    ensures same { OnErr result (session.new ≡ session.old) }
{
    let Ok(reaction) = session.on_pdu(&config.accounts, &pdu) else {
        drop(pdu);
        return Err(AllocError);
    };
    match reaction {
        Reaction::Ask(requested) => ask(config, session, requested, pdu),
        Reaction::Answered(pushed) => Ok(Heard::Answer(pushed, HeardPdu::of(pdu))),
        other => {
            drop(pdu);
            Ok(told(other))
        }
    }
}

/// What comes of a request for the node: nothing if the session has no account. An `Err` is want of memory.
fn ask(
    config: &Config,
    session: &Session,
    requested: Requested,
    pdu: Pdu,
) -> Result<Heard, AllocError>
    ensures { IfOk result (λ heard.
        heard ≡ asked_by requested pdu.sequence session.now.account (request_of config.now.routes pdu.body)) }
{
    let Pdu { sequence, body, .. } = pdu;
    if session.account().is_none() {
        drop(body);
        return Ok(Heard::Nothing);
    }
    match request_in(&config.routes, body)? {
        Some(request) => Ok(Heard::Request(
            Asked {
                requested,
                sequence,
            },
            request,
        )),
        None => Ok(Heard::Nothing),
    }
}

/// What goes out by a reaction that neither asks the node nor answers it.
fn told(reaction: Reaction) -> Heard
    ensures { result ≡ told_by reaction }
{
    match reaction {
        Reaction::Respond(outgoing) => Heard::Response(outgoing),
        Reaction::Leave(outgoing, abandoned) => Heard::Gone(outgoing, abandoned),
        Reaction::Nothing | Reaction::Ask(_) | Reaction::Answered(_) => Heard::Nothing,
    }
}

/// The request for the node that a body is, if it is one. An `Err` is want of memory.
fn request_in(routes: &Routes, body: Body) -> Result<Option<Request>, AllocError>
    ensures { IfOk result (λ request. request ≡ request_of routes.now body) }
{
    match body {
        Body::SubmitSm(message) => match target(routes, message.destination.digits.octets()) {
            Ok(target) => Ok(Some(Request::Submit(message, target))),
            Err(fault) => {
                drop(message);
                Err(fault)
            }
        },
        Body::QuerySm(query) => Ok(Some(Request::Ask(query))),
        Body::CancelSm(cancel) => Ok(Some(Request::Cancel(cancel))),
        _ => Ok(None),
    }
}

/// The account that a route leads to, if one does. An `Err` is want of memory.
fn target(routes: &Routes, destination: &[u8]) -> Result<Option<SystemId>, AllocError>
    ensures { IfOk result (λ account. account ≡ target_of routes.now destination.now) }
{
    match routes.target(destination) {
        None => Ok(None),
        Some(account) => Ok(Some(account.copy()?)),
    }
}
