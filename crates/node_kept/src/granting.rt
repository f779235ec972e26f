//! What a node does if an attempt is asked for, and if what came of one comes.

ghost use Rattle.std.specs.Prelude.{◌≡◌, ◌≤◌, ◌↔◌, true, None, Some, IfErr, IfOk, IfSome, IsTrue, option_map, if◌then◌else◌};
ghost use Rattle.delivery.specs.Kept.{outcome_kept};
ghost use Rattle.node_model.specs.Attempts.{grant_refusal, on_grant, on_response};
ghost use Rattle.node_model.specs.Kept.{message_at};
ghost use Rattle.node_model.specs.Granted.{is_open, known_slot};
ghost use Rattle.node_parts.specs.Attempting.{reason_of};
ghost use Rattle.node_parts.specs.declared.fault.StepFault.TheVariants.{Grant, NotGranted};
ghost use Rattle.node_kept.specs.Granting.{IsLeastAbove};
ghost use Rattle.node_kept.specs.Keeping.{AreOwn, kept_of};
ghost use Rattle.node_kept.specs.Steps.{IsFault, IsKnown, IsStep};

use crate::kept::Kept;
use crate::step::Step;
use delivery::Outcome;
use fate_chain::Chain;
use mc_types::{MsgId, Slot};
use node_parts::{GrantRefusal, Outputs, StepFault};

impl Kept {
    /// The step that grants the attempt in which the known chain of a message ends. Grant, with the first reason that fits, comes before
    /// any memory is taken.
    #[inline(never)]
    pub(crate) fn on_grant(&self, id: MsgId) -> Result<Step, StepFault>
        requires { AreOwn self.now }
        ensures ok { IfOk result (IsStep self.now (on_grant (kept_of self.now) (known_slot (kept_of self.now) id))) }
        ensures given { IfOk result (λ step. grant_refusal self.now.setup (kept_of self.now) id ≡ None) }
        ensures known { IfOk result (λ step. IfSome step.outputs.granted (IsKnown (kept_of self.now) id)) }
        ensures faults { IfErr result (IsFault (option_map (λ refusal. Grant (reason_of refusal)) (grant_refusal self.now.setup (kept_of self.now) id))) }
    {
        let chain = self.attempt(id)?.copy()?;
        let mut message = self.taken(id)?;
        message.grant(chain.place());
        let next = self.next(id, message)?;
        Ok(Step {
            outputs: Outputs::granting(self.alloc, chain),
            next,
        })
    }

    /// The known chain of a message, if the attempt in which it ends may be granted; else the first reason why not. It takes no memory.
    pub fn attempt(&self, id: MsgId) -> Result<&Chain, GrantRefusal>
        ensures known { IfOk result (λ chain. (message_at (kept_of self.now) id).known ≡ Some chain.now.decrees) }
        ensures id { IfOk result (λ chain. chain.now.id ≡ id) }
        ensures given { IfOk result (λ chain. grant_refusal self.now.setup (kept_of self.now) id ≡ None) }
        ensures refused { IfErr result (λ refusal. option_map reason_of (grant_refusal self.now.setup (kept_of self.now) id) ≡ Some refusal) }
    {
        match self.find(id) {
            Some(message) => message.attempt(id, self.author()),
            None => Err(GrantRefusal::NotChosen),
        }
    }

    /// The lowest id above this one, or of all ids, of the messages whose attempt could be granted now; none if there is none. It looks at the
    /// messages that are live alone, since a final state is known of any other. It takes no memory.
    pub fn grantable_after(&self, after: Option<MsgId>) -> Option<MsgId>
        ensures { IsLeastAbove after (λ id. grant_refusal self.now.setup (kept_of self.now) id ≡ None) result }
    {
        let mut from = match after {
            Some(id) => id.number() + 1,
            None => 0,
        };
        while let Some(id) = self.messages.next_live(from) {
            if self.is_grantable(id) {
                return Some(id);
            }
            from = id.number() + 1;
        }
        None
    }

    /// Whether the attempt of a message could be granted now. It takes no memory.
    fn is_grantable(&self, id: MsgId) -> bool
        ensures { IsTrue result ↔ (grant_refusal self.now.setup (kept_of self.now) id ≡ None) }
    {
        self.attempt(id).is_ok()
    }

    /// The step that closes the attempt in a slot with what came of it, and decides that. NotGranted, if the attempt is not open, comes
    /// before any memory is taken.
    #[inline(never)]
    pub(crate) fn on_answered(&self, slot: Slot, outcome: Outcome) -> Result<Step, StepFault>
        requires { AreOwn self.now }
        ensures ok { IfOk result (IsStep self.now (on_response self.now.setup (kept_of self.now) slot (outcome_kept outcome))) }
        ensures open { IfOk result (λ step. is_open (kept_of self.now) slot ≡ true) }
        ensures faults { IfErr result (IsFault (if is_open (kept_of self.now) slot then None else Some NotGranted)) }
    {
        if !self.is_open(slot) {
            return Err(StepFault::NotGranted);
        }
        let id = slot.id;
        let mut message = self.taken(id)?;
        let packet = message.conclude(slot, outcome, &self.standpoint())?;
        let step = self.leave(id, message, packet, None)?;
        Ok(step)
    }

    /// Whether an attempt was granted and is not closed. It takes no memory.
    fn is_open(&self, slot: Slot) -> bool
        ensures { result ≡ is_open (kept_of self.now) slot }
    {
        match self.find(slot.id) {
            Some(message) => message.is_open(slot.place),
            None => false,
        }
    }
}
