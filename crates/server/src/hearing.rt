//! What comes of a PDU of an ESME.

ghost use Rattle.std.specs.Prelude.{◌≡◌, false, IfOk, OnErr};
ghost use Rattle.esme_service.specs.Settings.{settings_of};
ghost use Rattle.esme_site.specs.Asking.{HasAsker};
ghost use Rattle.esme_site.specs.Heeding.{heeded_prints};
ghost use Rattle.serve_nodes.specs.Frames.{Puts};
ghost use Rattle.server.specs.Handing.{Comes, ComesInPart, HandsInRequest, IsToldBy, IsToldIf, IsToldOf, Serves, standing};

use crate::shift::Shift;
use crate::trouble::Trouble;
use esme_service::Asked;
use esme_site::{Centre, HeardOn, HeedFault, Heeded, Outlet, post_on};
use node_workers::{Begins, Seat};
use pdu_tables::Status;
use serve_nodes::{Frames, Site};
use serve_sessions::{Name, Notice, is_bind};
use sessions::{Delivery, Outgoing, Requested, Response};
use stable_store::GroupStore;
use std::alloc::AllocError;
use std::rt::Clock;
use std::sync::Wait;

/// What comes of a PDU in the end: what the operator is told, whether the session is gone, and whether a receipt was answered, so that its place in the window is
/// free and no worker is through with a delivery.
#[derive(Drop)]
pub(crate) struct Upshot {
    pub(crate) notice: Option<Notice>,
    pub(crate) is_gone: bool,
    pub(crate) frees_place: bool,
}

impl Upshot {
    /// This is told, and the session goes on.
    fn told(notice: Option<Notice>) -> Upshot
        ensures { result ≡ record { notice = notice; is_gone = false; frees_place = false } }
    {
        Upshot {
            notice,
            is_gone: false,
            frees_place: false,
        }
    }

    /// Whether the session is bound by it so that it may receive.
    pub(crate) fn binds_receiver(&self) -> bool {
        match &self.notice {
            Some(Notice::Bound(state, _, _)) => state.may_receive(),
            _ => false,
        }
    }

    /// The same of the PDU that has these octets.
    fn named(self, frame: &[u8]) -> Upshot {
        let Upshot {
            notice,
            is_gone,
            frees_place,
        } = self;
        let notice = match notice {
            Some(Notice::Refused(requested, status)) => Some(refused(requested, status, frame)),
            other => other,
        };
        Upshot {
            notice,
            is_gone,
            frees_place,
        }
    }
}

/// What an operator is told of a request that was refused, whose octets these are: of a bind, by which system_id.
fn refused(requested: Requested, status: Status, frame: &[u8]) -> Notice {
    if is_bind(requested) {
        Notice::BindRefused(requested, status, Name::in_body(frame))
    } else {
        Notice::Refused(requested, status)
    }
}

/// The octets of a frame that came on the session of a number.
#[derive(Drop)]
struct FrameOn<'a> {
    number: u8,
    octets: &'a [u8],
}

/// The octets of a frame came on a session: they are served under the lock of its node's site, so that the reply to a request finds its session.
pub(crate) fn heed<S: GroupStore, L: Begins, R: Wait + Eprint + Clock>(
    shift: &Shift<'_, S, L, R>,
    seat: &mut Seat<L>,
    number: u8,
    octets: &[u8],
) -> Result<Upshot, Trouble>
    ensures { HandsInRequest shift.now.station.now.node seat.old.slips seat.new.slips }
{
    let mut guard = shift.station.site.lock(shift.rt);
    let site = &mut *guard;
    let mut frames = site.outlet();
    let served = serve(shift, site, seat, &mut frames, &FrameOn { number, octets });
    site.post_all(shift.rt, frames);
    let upshot = served?;
    if upshot.frees_place
        && let Err(trouble) = shift.feed_session(site, number)
    {
        shift.meet(trouble);
    }
    Ok(upshot.named(octets))
}

/// Octets came on a session whose length is not that of a PDU: it is gone.
pub(crate) fn heed_wrong_length<S: GroupStore, L: Begins, R: Wait + Eprint + Clock>(
    shift: &Shift<'_, S, L, R>,
    seat: &mut Seat<L>,
    number: u8,
)
    ensures { HandsInRequest shift.now.station.now.node seat.old.slips seat.new.slips }
{
    let mut guard = shift.station.site.lock(shift.rt);
    let site = &mut *guard;
    let heard = site.service.hear_wrong_length(number);
    let mut frames = site.outlet();
    let _ = put_heard(shift, site, seat, &mut frames, HeardOn { number, heard });
    site.post_all(shift.rt, frames);
}

/// The octets of a frame came on a session: what comes of them is put, and then the receipts that wait for its account. An `Err` is want of memory.
fn serve<S: GroupStore, L: Begins, R: Wait + Eprint + Clock>(
    shift: &Shift<'_, S, L, R>,
    site: &mut Site,
    seat: &mut Seat<L>,
    frames: &mut Frames,
    frame: &FrameOn<'_>,
) -> Result<Upshot, AllocError>
    ensures serves { IfOk result (λ upshot. Serves shift.now.station.now.node (settings_of shift.now.shared.now.house.value.config) site.old.clock
        frame.now.number frame.now.octets.now (standing site.old.service seat.old.slips frames.old) (standing site.new.service seat.new.slips frames.new)
        upshot.notice) }
    ensures one { HandsInRequest shift.now.station.now.node seat.old.slips seat.new.slips }
{
    let number = frame.number;
    let clock = site.clock();
    let heard = site
        .service
        .hear(&shift.shared.house.config, number, frame.octets)?;
    let came = put_heard(shift, site, seat, frames, HeardOn { number, heard })?;
    let upshot = conclude(shift, site, number, came);
    post_on(&mut site.service, frames, clock, number)?;
    Ok(upshot)
}

/// What was heard on a session goes to its node, and what goes out of it is put. If no step is taken of a request, that is refused with 0x08. An `Err` is want of
/// memory.
fn put_heard<S: GroupStore, L: Begins, R: Wait + Eprint + Clock>(
    shift: &Shift<'_, S, L, R>,
    site: &mut Site,
    seat: &mut Seat<L>,
    frames: &mut Frames,
    on: HeardOn,
) -> Result<Heeded, AllocError>
    requires { HasAsker site.old.service.sessions on.number on.heard }
    ensures comes { IfOk result (Comes shift.now.station.now.node on site.old.service seat.old.slips site.new.service seat.new.slips) }
    ensures put { IfOk result (λ came. Puts frames.old.frames.items
        (heeded_prints shift.now.shared.now.house.value.config.system_id on.number came) frames.new.frames.items) }
    ensures err { OnErr result (ComesInPart shift.now.station.now.node shift.now.shared.now.house.value.config.system_id on
        (standing site.old.service seat.old.slips frames.old) (standing site.new.service seat.new.slips frames.new)) }
{
    let number = on.number;
    let system_id = &shift.shared.house.config.system_id;
    let centre = Centre {
        system_id,
        at: shift,
    };
    match esme_site::heed(&mut site.service, seat, frames, &centre, on) {
        Ok(came) => Ok(came),
        Err(HeedFault::Memory) => Err(AllocError),
        Err(HeedFault::Unasked(unasked)) => {
            shift.meet(Trouble::from(unasked.why));
            let refusal = unasked.asked.refusal(Status::SystemError);
            frames.respond(system_id, number, refusal)?;
            Ok(Heeded::Response(refusal))
        }
    }
}

/// What came of a PDU on the session of a number is counted, and its answer to a deliver_sm is handed to the delivery that waits for it; what comes of it in the
/// end.
fn conclude<S: GroupStore, L: Begins, R: Wait + Eprint + Clock>(
    shift: &Shift<'_, S, L, R>,
    site: &mut Site,
    number: u8,
    came: Heeded,
) -> Upshot
    ensures service { site.new.service ≡ site.old.service }
    ensures told { IsToldBy came result.notice }
{
    match came {
        Heeded::Nothing => Upshot::told(None),
        Heeded::Response(outgoing) => Upshot::told(notice_of(site, number, outgoing.response)),
        Heeded::Request(asked, refusal) => {
            count(site, asked);
            Upshot::told(notice_if(site, number, refusal))
        }
        Heeded::Answer(pushed, pdu) => {
            let frees_place = matches!(pushed.delivery, Delivery::Receipt(_));
            site.answered(shift.rt, pushed, pdu);
            Upshot {
                notice: None,
                is_gone: false,
                frees_place,
            }
        }
        Heeded::Gone(outgoing, abandoned) => {
            drop(abandoned);
            Upshot {
                notice: notice_of(site, number, outgoing.response),
                is_gone: true,
                frees_place: false,
            }
        }
    }
}

/// A request was handed in.
fn count(site: &mut Site, asked: Asked)
    ensures { site.new.service ≡ site.old.service }
{
    if asked.requested == Requested::SubmitSm {
        site.tally.submits = site.tally.submits.saturating_add(1);
    }
}

/// What the operator is told of the refusal of a request, if it is refused.
fn notice_if(site: &mut Site, number: u8, refusal: Option<Outgoing>) -> Option<Notice>
    ensures service { site.new.service ≡ site.old.service }
    ensures told { IsToldIf refusal result }
{
    match refusal {
        Some(outgoing) => notice_of(site, number, outgoing.response),
        None => None,
    }
}

/// What the operator is told of a response that went out on the session of a number. A refusal is counted.
fn notice_of(site: &mut Site, number: u8, response: Response) -> Option<Notice>
    ensures service { site.new.service ≡ site.old.service }
    ensures told { IsToldOf response result }
{
    match response {
        Response::Bound(_, version) => bound(site, number, version),
        Response::Refused(requested, status) => {
            site.tally.refused = site.tally.refused.saturating_add(1);
            Some(Notice::Refused(requested, status))
        }
        Response::Nack(status) => Some(Notice::Nacked(status)),
        Response::Unbound | Response::Linked => None,
    }
}

/// The notice of a session that is bound.
fn bound(site: &Site, number: u8, version: u8) -> Option<Notice> {
    let session = site.service.sessions().get(&number)?;
    let account = session.account()?;
    Some(Notice::Bound(session.state(), Name::of(account.octets()), version))
}
