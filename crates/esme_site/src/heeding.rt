//! What was heard on a session goes to its node, and out.

ghost use Rattle.std.specs.Prelude.{◌≡◌, [], IfErr, IfOk};
ghost use Rattle.esme_site.specs.Asking.{HasAsker};
ghost use Rattle.esme_site.specs.Heeding.{Heeds, HeedsInPart, HeedsNot, IfUnasked, OnMemory, heeded_prints};

use crate::asking::{AskFault, Asking, ask};
use crate::heeded::{Heeded, put_heeded};
use crate::outlet::Outlet;
use crate::steps::Steps;
use esme_service::{Asked, Heard, Service};
use pdu_codec::SystemId;

/// A centre, at one of its nodes: by which system_id it answers, and where the steps of the node are taken.
#[derive(Drop)]
pub struct Centre<'a, At> {
    pub system_id: &'a SystemId,
    pub at: &'a At,
}

/// What was heard on the session of a number.
#[derive(Drop)]
pub struct HeardOn {
    pub number: u8,
    pub heard: Heard,
}

/// A request that was not handed in, and why.
#[derive(Clone, Copy, Debug, PartialEq, Eq)]
pub struct Unasked<F> {
    pub asked: Asked,
    pub why: AskFault<F>,
}

/// Why what was heard was not heeded.
#[derive(Clone, Copy, Debug, PartialEq, Eq)]
pub enum HeedFault<F> {
    /// There was no memory for all that was to go out.
    Memory,
    /// A request was not handed in.
    Unasked(Unasked<F>),
}

/// What was heard on a session goes to its node, and what goes out of it is put. After `Memory` it has gone to the node all the same, and the first of what was to
/// go out was put. After `Unasked` nothing was put, and no session changed: who calls may refuse the request.
pub fn heed<At, P: Steps<At>, O: Outlet>(
    service: &mut Service,
    steps: &mut P,
    outlet: &mut O,
    centre: &Centre<'_, At>,
    on: HeardOn,
) -> Result<Heeded, HeedFault<P::Fault>>
    requires { HasAsker service.old.sessions on.number on.heard }
    ensures heeds { IfOk result (Heeds P.took centre.now.at.now on service.old steps.old service.new steps.new) }
    ensures put { IfOk result (λ heeded. O.puts outlet.old (heeded_prints centre.now.system_id.now on.number heeded) [] outlet.new) }
    ensures memory { IfErr result (λ fault. OnMemory fault
        (HeedsInPart P.took O.puts centre.now.at.now centre.now.system_id.now on service.old steps.old outlet.old service.new steps.new outlet.new)) }
    ensures unasked { IfErr result (λ fault. IfUnasked fault (HeedsNot P.refused on service.old steps.old service.new steps.new)) }
    ensures unput { IfErr result (λ fault. IfUnasked fault (λ unasked. outlet.new ≡ outlet.old)) }
{
    let number = on.number;
    match hand_in(service, steps, centre.at, on) {
        Ok(heeded) => match put_heeded(outlet, centre.system_id, number, &heeded) {
            Ok(()) => Ok(heeded),
            Err(_) => {
                drop(heeded);
                Err(HeedFault::Memory)
            }
        },
        Err(unasked) => Err(HeedFault::Unasked(unasked)),
    }
}

/// What was heard on a session goes to its node, if it is a request: what comes of it. After an `Err` no step was taken.
fn hand_in<At, P: Steps<At>>(
    service: &mut Service,
    steps: &mut P,
    at: &At,
    on: HeardOn,
) -> Result<Heeded, Unasked<P::Fault>>
    requires { HasAsker service.old.sessions on.number on.heard }
    ensures heeds { IfOk result (Heeds P.took at.now on service.old steps.old service.new steps.new) }
    ensures err { IfErr result (HeedsNot P.refused on service.old steps.old service.new steps.new) }
{
    let HeardOn { number, heard } = on;
    match heard {
        Heard::Nothing => Ok(Heeded::Nothing),
        Heard::Response(outgoing) => Ok(Heeded::Response(outgoing)),
        Heard::Request(asked, request) => {
            let asking = Asking {
                number,
                asked,
                request,
            };
            match ask(service, steps, at, asking) {
                Ok(refusal) => Ok(Heeded::Request(asked, refusal)),
                Err(why) => Err(Unasked { asked, why }),
            }
        }
        Heard::Answer(pushed, pdu) => Ok(Heeded::Answer(pushed, pdu)),
        Heard::Gone(outgoing, abandoned) => Ok(Heeded::Gone(outgoing, abandoned)),
    }
}
