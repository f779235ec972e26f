//! Steps of a node of a script in its world.

ghost use Rattle.std.specs.Prelude.{◌≡◌, length, option_map, drop, IfOk, OnErr, OnOk};
ghost use Rattle.delivery.specs.Kept.{outcome_kept};
ghost use Rattle.script_text.specs.Attempts.{all_given_up, concluded, delivered_so};
ghost use Rattle.script_site.specs.Heeding.{went_by};
ghost use Rattle.script_site.specs.Sites.{Goes, StandsStill, Takes};
ghost use Rattle.script_site.specs.Grantings.{IsGranting};

use delivery::{Outcome, outcome_of};
use desk::Request;
use esme_site::{Heeded, Steps, Taken};
use fate_chain::Chain;
use mc_types::{MsgId, NodeNo, Slot};
use pdu_codec::SystemId;
use sessions::{Delivery, Pushed};
use std::alloc::AllocError;
use world::{Given, Step, World, WorldFault};

/// What comes of asking for the attempt of a message.
#[derive(Drop)]
pub enum Granting {
    /// It is granted: the chain of the message, which ends in it.
    Granted(Chain),
    /// It is not: the number of the reason, 1 to 5.
    Refused(u8),
}

/// Takes a step of a node that is up, which is not refused then. An `Err` is want of memory.
pub(crate) fn take(world: &mut World, step: Step) -> Result<Given, AllocError>
    ensures taken { IfOk result (λ given. Takes world.old step given world.new) }
    ensures err { OnErr result (StandsStill world.old world.new) }
{
    match world.step(step) {
        Ok(given) => Ok(given),
        Err(_) => Err(AllocError),
    }
}

/// A node of a world.
#[derive(Clone, Copy)]
pub(crate) struct Home {
    pub(crate) node: NodeNo,
}

impl Steps<Home> for World {
    ghost use Rattle.script_site.specs.Asking.{TakesRequest};

    type Fault = AllocError;

    ghost took = { λ before home account request taken after. TakesRequest before home.node account request taken after };

    ghost refused = { λ before fault after. StandsStill before after };

    /// The node is to be up.
    fn request(
        &mut self,
        home: &Home,
        account: SystemId,
        request: Request,
    ) -> Result<Taken, AllocError> {
        let given = take(
            self,
            Step::Request {
                node: home.node,
                account,
                request,
            },
        )?;
        Ok(Taken {
            ticket: given.ticket,
            refused: given.refused,
        })
    }
}

/// The attempt in which the chain of a message ends is asked for at a node: that chain, or why it is not granted; then nothing changes. An
/// `Err` is want of memory.
pub(crate) fn grant(world: &mut World, node: NodeNo, id: MsgId) -> Result<Granting, AllocError>
    ensures { IfOk result (λ granting. IsGranting node id world.old granting world.new) }
{
    match world.step(Step::Grant { node, id }) {
        Ok(given) => {
            let Given { granted, .. } = given;
            match granted {
                Some(chain) => Ok(Granting::Granted(chain)),
                None => Err(AllocError),
            }
        }
        Err(WorldFault::Grant(refusal)) => Ok(Granting::Refused(refusal.number())),
        Err(_) => Err(AllocError),
    }
}

/// The attempt in a slot has this outcome at a node. Nothing changes if it is not open there: of such a one nothing comes any more. An `Err`
/// is want of memory.
pub(crate) fn conclude(
    world: &mut World,
    node: NodeNo,
    slot: Slot,
    outcome: Outcome,
) -> Result<(), AllocError>
    ensures { OnOk result (Goes node (λ n. concluded n slot (outcome_kept outcome)) world.old world.new) }
{
    match world.step(Step::Answered {
        node,
        slot,
        outcome,
    }) {
        Ok(given) => {
            drop(given);
            Ok(())
        }
        Err(WorldFault::NotGranted) => Ok(()),
        Err(_) => Err(AllocError),
    }
}

/// What was pushed has this outcome, if it has one. Of a receipt nothing comes. An `Err` is want of memory.
pub(crate) fn conclude_by(
    world: &mut World,
    node: NodeNo,
    delivery: Delivery,
    outcome: Option<Outcome>,
) -> Result<(), AllocError>
    ensures { OnOk result (Goes node (λ n. delivered_so n delivery (option_map outcome_kept outcome)) world.old world.new) }
{
    let Delivery::Attempt(slot) = delivery else {
        return Ok(());
    };
    let Some(outcome) = outcome else {
        return Ok(());
    };
    conclude(world, node, slot, outcome)
}

/// What came of what was heard on a session is concluded, if it came of attempts: an answer is the outcome of one, and of those of a session that is gone nothing
/// comes any more. After an `Err`, which is want of memory, some of them are concluded.
pub(crate) fn conclude_heeded(
    world: &mut World,
    node: NodeNo,
    heeded: Heeded,
) -> Result<(), AllocError>
    ensures { OnOk result (Goes node (λ n. went_by n heeded) world.old world.new) }
{
    match heeded {
        Heeded::Nothing | Heeded::Response(_) | Heeded::Request(..) => Ok(()),
        Heeded::Answer(pushed, pdu) => {
            let outcome = outcome_of(pushed.sequence, pdu.pdu());
            drop(pdu);
            conclude_by(world, node, pushed.delivery, outcome)
        }
        Heeded::Gone(_, abandoned) => give_up(world, node, abandoned.as_slice()),
    }
}

/// Nobody answers these pushed requests any more. After an `Err`, which is want of memory, some of them are given up.
pub(crate) fn give_up(world: &mut World, node: NodeNo, pushed: &[Pushed]) -> Result<(), AllocError>
    ensures { OnOk result (Goes node (λ n. all_given_up n pushed.now) world.old world.new) }
{
    for request in pushed {
        conclude_by(world, node, request.delivery, Some(Outcome::unanswered()))?;
    }
    Ok(())
}
