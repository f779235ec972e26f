//! A step that waits to be committed.

ghost use Rattle.std.specs.Prelude.{◌≡◌};
ghost use Rattle.node_model.specs.Stepped.{stepped};
ghost use Rattle.node_kept.specs.Keeping.{kept_of};
ghost use Rattle.node_kept.specs.Steps.{input_of, outputs_of};

use node_kept::{Input, Kept, Outputs, Step};
use std::marker::Model;
use std::snapshot::Snapshot;
use synod_acceptor::Packet;

/// What a node is to do with an input, prepared so far that nothing but its save can fail. It changes the node once it is committed.
/// Contracts see what the node kept when it was prepared, and the input.
#[derive(Drop)]
pub struct Pending {
    pub(crate) given: Snapshot<Input>,
    pub(crate) step: Step,
    // The packet that came, if one did: only its step saves anything.
    pub(crate) packet: Option<Packet>,
    pub(crate) was: Snapshot<Kept>,
}

impl Model for Pending {
    ghost use Rattle.node_core.specs.Pendings.{Awaited};

    ghost Value = { Awaited };

    ghost use Rattle.node_kept.specs.Preparing.{IsPrepared};

    ghost view = { λ p. record { was = p.was.value; input = p.given.value } };

    ghost invariant = { λ p. IsPrepared p.was.value p.given.value p.step p.packet };
}

impl Pending {
    /// What `commit` will give.
    pub fn outputs(&self) -> &Outputs
        ensures { outputs_of result.now ≡ (stepped self.now.was.setup (kept_of self.now.was)
            (input_of self.now.was.setup (kept_of self.now.was) self.now.input)).outputs }
    {
        &self.step.outputs
    }
}
