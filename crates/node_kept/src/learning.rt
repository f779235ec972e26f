//! What a node does with a chain that becomes known.

ghost use Rattle.std.specs.Prelude.{◌≡◌, ℕ, false, None, IfOk, IfSome, option_map};
ghost use Rattle.node_model.specs.Answers.{had_fate as had_final, is_known_so};
ghost use Rattle.node_model.specs.Message.{Message as MessageValue};
ghost use Rattle.node_model.specs.Packets.{known_then, on_known};
ghost use Rattle.node_model.specs.Starts.{tell_for};
ghost use Rattle.tick_rules.specs.Standpoints.{start_of};
ghost use Rattle.node_kept.specs.Deleting.{deletion_if, next_known};
ghost use Rattle.node_kept.specs.Keeping.{AreOwn, IsAs, kept_of};
ghost use Rattle.node_kept.specs.Steps.{IsStep};

use crate::kept::Kept;
use crate::queue_change::QueueChange;
use crate::step::Step;
use fate_chain::Chain;
use node_parts::Message;
use std::alloc::AllocError;

impl Kept {
    /// The step by which a chain becomes known, of this message, which knows it: requests are settled and answered, a round may start by
    /// which the message is deleted or its receipt is told, and a receipt may be due.
    #[inline(never)]
    pub(crate) fn learned(
        &self,
        mut message: Message,
        had_fate: bool,
        chain: &Chain,
    ) -> Result<Step, AllocError>
        requires { AreOwn self.now }
        ensures { IfOk result (λ step. (m : MessageValue) → IsAs self.now chain.now.id message (known_then m chain.now.decrees) →
            had_fate ≡ had_final m.known → is_known_so m.known chain.now.decrees ≡ false → IsStep self.now (on_known self.now.setup (kept_of self.now) chain.now.id m chain.now.decrees) step) }
    {
        chain.bounds();
        let cancelled = self.queue.cancels_then(self.nodes(), chain);
        let next = self.next_known(had_fate, cancelled, chain)?;
        let packet = message.start_for(next);
        let receipt = self.receipt(chain)?;
        let replies = self.queue.replies(self.nodes(), chain)?;
        let settled = chain.copy()?;
        let mut step = self.leave(chain.id(), message, packet, receipt)?;
        step.outputs.replies = replies;
        step.next.queue = QueueChange::Settle(settled);
        Ok(step)
    }

    /// The chain for which a round starts once this one is known: by which its message is deleted, if a request asks for that; else by which
    /// its receipt is told, if no final state was known before.
    #[inline(never)]
    fn next_known(
        &self,
        had_fate: bool,
        cancelled: bool,
        chain: &Chain,
    ) -> Result<Option<Chain>, AllocError>
        ensures start { IfOk result (λ next. option_map start_of next ≡ next_known self.now.setup (kept_of self.now) had_fate cancelled chain.now.decrees) }
        ensures id { IfOk result (λ next. IfSome next (λ it. it.id ≡ chain.now.id)) }
    {
        match self.deletion(chain, cancelled)? {
            Some(next) => Ok(Some(next)),
            None if had_fate => Ok(None),
            None => self.telling(chain),
        }
    }

    /// The chain with the decree that tells its receipt, if it ends in a final state on which this node owes one.
    fn telling(&self, chain: &Chain) -> Result<Option<Chain>, AllocError>
        ensures start { IfOk result (λ next. option_map start_of next ≡ tell_for self.now.setup (kept_of self.now) None chain.now.decrees) }
        ensures id { IfOk result (λ next. IfSome next (λ it. it.id ≡ chain.now.id)) }
    {
        let at = self.standpoint();
        chain.bounds();
        let Some(due) = at.telling(chain) else {
            return Ok(None);
        };
        let next = at.behind(chain, due)?;
        Ok(Some(next))
    }

    /// The chain with the decree that deletes its message, if a request asks for that, no attempt is open, and there is no final state.
    #[inline(never)]
    pub(crate) fn deletion(
        &self,
        chain: &Chain,
        cancelled: bool,
    ) -> Result<Option<Chain>, AllocError>
        ensures start { IfOk result (λ next. option_map start_of next ≡ deletion_if self.now.setup (kept_of self.now) cancelled chain.now.decrees) }
        ensures id { IfOk result (λ next. IfSome next (λ it. it.id ≡ chain.now.id)) }
    {
        let at = self.standpoint();
        let Some(due) = at.deletion(chain, cancelled) else {
            return Ok(None);
        };
        let next = at.behind(chain, due)?;
        Ok(Some(next))
    }
}
