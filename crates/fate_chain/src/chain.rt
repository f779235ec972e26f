//! Chains.

ghost use Rattle.std.specs.Prelude.{◌≡◌, ◌<◌, ◌≤◌, ◌↔◌, ◌∷◌, [], None, Some, length, pred, reverse, slice_get, IfOk, IsErrOf, IsTrue, option_map};
ghost use Rattle.mc_model.specs.message.Ids.{node_of, incarnation_of};
ghost use Rattle.mc_model.specs.message.Decree.{Taken};
ghost use Rattle.mc_model.specs.message.Submission.{Submission as SubmissionValue};
ghost use Rattle.mc_model.specs.message.Chain.{Chain as ChainValue, IsPermitted, MayExtend, taken_in, attempts_in, final_by, final_in, error_in, home_in, untold};
ghost use Rattle.fate_chain.specs.Bytes.{chain_octets, read_chain, Fits, IsSpelled, Judges};
ghost use Rattle.fate_chain.specs.Kinds.{final_of};
ghost use Rattle.fate_chain.specs.Marks.{IsStandingOf};
ghost use Rattle.fate_chain.specs.States.{state_of};
ghost use Rattle.fate_chain.specs.declared.format.Format.TheVariants.{Second};
ghost use Rattle.fate_chain.specs.declared.fault.ChainFault.TheVariants.{NotPermitted, NotBytes, Memory};

use crate::decree::{Author, Decree, Final, Kind, are_same};
use crate::fault::ChainFault;
use crate::marks::Standing;
use crate::progress::Progress;
use crate::reading::{check, decrees_of, head_at};
use crate::shared_decrees::SharedDecrees;
use crate::shared_submission::SharedSubmission;
use crate::submission::Submission;
use crate::writing::{put_chain_head, put_decrees};
use mc_types::{Moment, MsgId, NodeNo};
use pdu_tables::State;
use std::alloc::{AllocError, Global};
use std::marker::Model;

/// The decrees on one message. Contracts see them the newest first; each may follow the one before.
#[derive(Drop)]
pub struct Chain {
    id: MsgId,
    // The oldest first.
    decrees: SharedDecrees,
}

impl Model for Chain {
    ghost use Rattle.std.specs.Prelude.{reverse};
    ghost use Rattle.mc_model.specs.message.Chain.{Chain, IsPermitted};

    ghost Value = { Chain };

    ghost view = { λ c. record { id = c.id; decrees = reverse c.decrees } };

    ghost invariant = { λ c. IsPermitted c.id (reverse c.decrees) };
}

impl Chain {
    /// The chain of a message that is taken by the node and incarnation that its id names. NotPermitted if its
    /// expiry is not later than the moment, or its schedule not earlier than its expiry.
    pub fn begin(
        alloc: Global,
        id: MsgId,
        moment: Moment,
        message: Submission,
    ) -> Result<Chain, ChainFault>
        ensures id { IfOk result (λ chain. chain.id ≡ id) }
        ensures decrees { IfOk result (λ chain. chain.decrees ≡ record {
          author = record { node = node_of id; incarnation = incarnation_of id };
          moment = moment;
          kind = Taken message;
        } ∷ []) }
        ensures refused { IsErrOf result NotPermitted ↔ ((moment < message.expiry) × (message.schedule < message.expiry) → ⊥) }
        ensures no_other { IsErrOf result NotBytes → ⊥ }
    {
        if !message.terms().may_begin(moment) {
            return Err(ChainFault::NotPermitted);
        }
        let author = Author {
            node: id.node(),
            incarnation: id.incarnation(),
        };
        let mut decrees = Vec::new(alloc);
        decrees.push(Decree {
            author,
            moment,
            kind: Kind::Taken(SharedSubmission::make(alloc, message)?),
        })?;
        Ok(Chain {
            id,
            decrees: SharedDecrees::make(decrees)?,
        })
    }

    /// The message's id.
    pub fn id(&self) -> MsgId
        ensures { result ≡ self.now.id }
    {
        self.id
    }

    /// The node that took it, which its id names.
    pub fn home(&self) -> NodeNo
        ensures { result ≡ home_in self.now.decrees }
    {
        self.bounds();
        self.id.node()
    }

    /// The place in which it stands: one less than the number of its decrees, 0 to 18.
    pub fn place(&self) -> u8
        ensures place { result ≡ pred (length self.now.decrees) }
        ensures range { result ≤ 18 }
    {
        (self.decrees.list().len() - 1) as u8
    }

    /// The newest decree.
    pub fn newest(&self) -> &Decree
        ensures { slice_get self.now.decrees 0 ≡ Some result.now }
    {
        self.decrees.list().last().unwrap()
    }

    /// The newest decree but Told: that of its fate, if it has one.
    pub fn newest_untold(&self) -> &Decree
        ensures newest { slice_get (untold self.now.decrees) 0 ≡ Some result.now }
        ensures state { final_by result.now.kind None ≡ final_in self.now.decrees }
    {
        self.bounds();
        let newest = self.newest();
        match newest.kind {
            Kind::Told => self.below_newest(),
            _ => newest,
        }
    }

    /// The decree before the newest one.
    fn below_newest(&self) -> &Decree
        requires { 2 ≤ length self.now.decrees }
        ensures { slice_get self.now.decrees 1 ≡ Some result.now }
    {
        let decrees = self.decrees.list();
        &decrees[decrees.len() - 2]
    }

    /// What was taken, by its first decree.
    pub fn submission(&self) -> &Submission
        ensures { taken_in self.now.decrees ≡ Some result.now }
    {
        let first = self.decrees.list().first().unwrap();
        match &first.kind {
            Kind::Taken(message) => message.submission(),
            _ => unreachable!(),
        }
    }

    /// The state of the message: that of its fate, and ENROUTE while it has none.
    pub fn state(&self) -> State
        ensures { result ≡ state_of (final_in self.now.decrees) }
    {
        match self.newest_untold().kind {
            Kind::Fate(last, _) => last.state(),
            _ => State::Enroute,
        }
    }

    /// Its final state, if it has one.
    pub fn fate(&self) -> Option<Final>
        ensures { option_map final_of result ≡ final_in self.now.decrees }
    {
        match self.newest_untold().kind {
            Kind::Fate(last, _) => Some(last),
            _ => None,
        }
    }

    /// The error of its last failure or fate, 0 to 999, and 0 if there is none.
    pub fn error(&self) -> u16
        ensures error { result ≡ error_in self.now.decrees }
        ensures range { result ≤ 999 }
    {
        let mut error = 0;
        for decree in self.decrees.list() {
            error = decree.error_after(error);
        }
        error
    }

    /// How often it was attempted, 0 to 8.
    pub fn attempts(&self) -> u8
        ensures attempts { result ≡ attempts_in self.now.decrees }
        ensures range { result ≤ 8 }
    {
        self.standing().attempts as u8
    }

    /// What decides which decree may come next.
    fn standing(&self) -> Standing
        ensures standing { IsStandingOf self.now.decrees result }
        ensures attempts { result.attempts ≤ 8 }
    {
        match Progress::of(self.id, self.decrees.list()) {
            Progress::Stands(standing) => standing,
            Progress::Begins | Progress::Fails => unreachable!(),
        }
    }

    /// Whether the decree may come next.
    pub fn permits(&self, decree: &Decree) -> bool
        ensures { IsTrue result ↔ MayExtend (taken_in self.now.decrees) self.now.decrees decree.now }
    {
        self.standing().permits(&decree.mark())
    }

    /// The chain with one more decree at its end. NotPermitted if the decree may not come next.
    pub fn extended(&self, decree: Decree) -> Result<Chain, ChainFault>
        ensures id { IfOk result (λ chain. chain.id ≡ self.now.id) }
        ensures decrees { IfOk result (λ chain. chain.decrees ≡ decree ∷ self.now.decrees) }
        ensures refused { IsErrOf result NotPermitted ↔ (MayExtend (taken_in self.now.decrees) self.now.decrees decree → ⊥) }
        ensures no_other { IsErrOf result NotBytes → ⊥ }
    {
        if !self.permits(&decree) {
            return Err(ChainFault::NotPermitted);
        }
        let decrees = self.followed_by(decree)?;
        Ok(Chain {
            id: self.id,
            decrees: SharedDecrees::make(decrees)?,
        })
    }

    /// Its decrees, the oldest first, and this one after them.
    fn followed_by(&self, decree: Decree) -> Result<Vec<Decree>, AllocError>
        ensures { IfOk result (λ decrees. reverse decrees.items ≡ decree ∷ self.now.decrees) }
    {
        let earlier = self.decrees.list();
        let mut decrees = Vec::with_capacity(self.decrees.alloc(), earlier.len() + 1)?;
        for one in earlier {
            decrees.push(one.copy()?)?;
        }
        decrees.push(decree)?;
        Ok(decrees)
    }

    /// The same chain once more; both share their decrees. It takes no memory; an `Err` is that there are 2^63 - 1 copies.
    pub fn copy(&self) -> Result<Chain, AllocError>
        ensures { IfOk result (λ chain. chain ≡ self.now) }
    {
        Ok(Chain {
            id: self.id,
            decrees: self.decrees.share()?,
        })
    }

    /// Whether it is the same chain as the other: of the same message, with the same decrees.
    pub fn is(&self, other: &Chain) -> bool
        ensures { IsTrue result ↔ (self.now ≡ other.now) }
    {
        self.id == other.id && are_same(self.decrees.list(), other.decrees.list())
    }

    /// Its octets, format 2. Each number has its highest octet first.
    pub fn bytes(&self) -> Result<Vec<u8>, AllocError>
        ensures octets { IfOk result (λ octets. octets.items ≡ chain_octets self.now) }
        ensures fits { IfOk result (λ _. Fits Second self.now) }
    {
        let decrees = self.decrees.list();
        let mut octets = Vec::new(self.decrees.alloc());
        put_chain_head(&mut octets, self.id, decrees.len() as u16)?;
        put_decrees(&mut octets, decrees)?;
        Ok(octets)
    }

    /// The chain whose octets these are, in format 2 or in format 1, which earlier programs wrote. NotBytes if they are not the octets of an id
    /// and of decrees, from the first octet to the last; NotPermitted if they are, and the decrees are no permitted chain. Memory is taken
    /// once they are found to be a chain's.
    pub fn read(alloc: Global, octets: &[u8]) -> Result<Chain, ChainFault>
        // What is read is spelled so.
        ensures read { IfOk result (IsSpelled octets.now) }
        // Where a chain is spelled so, no other is read.
        ensures only { (chain : ChainValue) → IsSpelled octets.now chain →
            IfOk result (λ found. found ≡ chain) }
        ensures not_bytes { IsErrOf result NotBytes ↔ ((chain : ChainValue) →
            IsSpelled octets.now chain → ⊥) }
        ensures not_permitted { IsErrOf result NotPermitted ↔ ((chain : ChainValue) ×
            IsSpelled octets.now chain × (IsPermitted chain.id chain.decrees → ⊥)) }
        // Memory runs out only for what is a chain's octets.
        ensures memory { IsErrOf result Memory → (chain : ChainValue) ×
            IsSpelled octets.now chain × IsPermitted chain.id chain.decrees }
    {
        Chain::judged(alloc, octets)
    }

    /// The chain that the octets are read to.
    #[tactic(auto, unfolding(crate::specs::Bytes::read_chain))]
    fn judged(alloc: Global, octets: &[u8]) -> Result<Chain, ChainFault>
        ensures { Judges (λ chain read. read ≡ chain) result (read_chain octets.now) }
    {
        let Ok(head) = head_at(octets) else {
            return Err(ChainFault::NotBytes);
        };
        check(&head)?;
        let decrees = decrees_of(alloc, &head)?;
        Ok(Chain {
            id: head.id,
            decrees: SharedDecrees::make(decrees)?,
        })
    }

    /// The decrees, the oldest first.
    pub fn decrees(&self) -> &[Decree]
        ensures decrees { reverse result.now ≡ self.now.decrees }
        ensures permitted { IsPermitted self.now.id self.now.decrees }
    {
        self.decrees.list()
    }

    /// What a proof takes of it: it is a permitted one, stands at one of 19 places, and begins with what was taken. The call does nothing.
    pub fn bounds(&self)
        ensures permitted { IsPermitted self.now.id self.now.decrees }
        ensures place { pred (length self.now.decrees) < 19 }
        ensures taken { (taken : SubmissionValue) × (taken_in self.now.decrees ≡ Some taken) }
    {
        let _id = self.id;
    }
}
