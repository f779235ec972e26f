//! The message of a submit_sm that waits.

ghost use Rattle.std.specs.Prelude.{◌≡◌, ◌<◌, ◌↔◌, IfOk, IsErrOf};
ghost use Rattle.fate_chain.specs.declared.fault.ChainFault.TheVariants.{NotBytes, NotPermitted};
ghost use Rattle.waiting_requests.specs.Beginnings.{begun_chain};

use fate_chain::{Chain, ChainFault, Submission};
use mc_types::{Moment, MsgId};
use std::alloc::{AllocError, Global};
use std::marker::Model;
use std::snapshot::Snapshot;

/// The message of a submit_sm that waits, as the chain of its one decree: it was taken when it came, by the node and the incarnation
/// that its id names. Contracts see its id, that moment and the message.
#[derive(Drop)]
pub struct Taken {
    chain: Chain,
    moment: Snapshot<Moment>,
    message: Snapshot<Submission>,
}

impl Model for Taken {
    ghost use Rattle.std.specs.Prelude.{◌≡◌};
    ghost use Rattle.waiting_requests.specs.Beginnings.{Begun, begun_chain};

    ghost Value = { Begun };

    ghost view = { λ t. record { id = t.chain.id; moment = t.moment.value; message = t.message.value } };

    ghost invariant = { λ t. t.chain.decrees ≡ begun_chain (record { id = t.chain.id; moment = t.moment.value; message = t.message.value }) };
}

impl Taken {
    /// The message of an id that comes at a moment. NotPermitted if its expiry is not later than the moment, or its schedule not
    /// earlier than its expiry; else an `Err` is want of memory.
    pub fn make(
        alloc: Global,
        id: MsgId,
        moment: Moment,
        message: Submission,
    ) -> Result<Taken, ChainFault>
        ensures made { IfOk result (λ taken. taken ≡ record { id = id; moment = moment; message = message }) }
        ensures refused { IsErrOf result NotPermitted ↔ ((moment < message.expiry) × (message.schedule < message.expiry) → ⊥) }
        ensures no_other { IsErrOf result NotBytes → ⊥ }
    {
        let was = Snapshot::of(&message);
        let chain = Chain::begin(alloc, id, moment, message)?;
        Ok(Taken {
            chain,
            moment: Snapshot::of(&moment),
            message: was,
        })
    }

    /// Its id.
    pub(crate) fn id(&self) -> MsgId
        ensures { result ≡ self.now.id }
    {
        self.chain.id()
    }

    /// Its chain.
    pub(crate) fn chain(&self) -> &Chain
        ensures id { result.now.id ≡ self.now.id }
        ensures decrees { result.now.decrees ≡ begun_chain self.now }
    {
        &self.chain
    }

    /// The same once more.
    pub(crate) fn copy(&self) -> Result<Taken, AllocError>
        ensures { IfOk result (λ taken. taken ≡ self.now) }
    {
        Ok(Taken {
            chain: self.chain.copy()?,
            moment: Snapshot::of(&self.chain.newest().moment),
            message: Snapshot::of(self.chain.submission()),
        })
    }
}
