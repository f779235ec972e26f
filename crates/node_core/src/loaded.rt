//! A node that is loaded over its store, and has not begun.

ghost use Rattle.std.specs.Prelude.{◌≡◌, [], None, IfOk, IfErr, OnOk};
ghost use Rattle.node_core.specs.Loadings.{Begins, FailsToBegin, HasLoaded, HasRaised, IsLoaded};
ghost use Rattle.node_core.specs.Nodes.{FailsToOpen};

use crate::life::Life;
use crate::node::Node;
use mc_types::Incarnation;
use node_kept::{Kept, Setup};
use stable_store::{StableStore, StoreFault};
use std::alloc::Global;
use std::marker::Model;

/// A node that is loaded over its store, and has not begun: its store has the incarnation that it had.
#[derive(Drop)]
pub struct Loaded<S: StableStore> {
    store: S,
    kept: Kept,
}

impl<S: StableStore> Model for Loaded<S> {
    ghost use Rattle.node_core.specs.Loadings.{IsReady, Loading};

    ghost Value = { Loading S };

    ghost view = { λ loaded. record { store = loaded.store; kept = loaded.kept } };

    ghost invariant = { λ loaded. IsReady (S.stored loaded.store) loaded.kept };
}

impl<S: StableStore> Loaded<S> {
    /// Loads what a store has for a node of this setup, and raises no incarnation. An `Err` is the store's fault or want of memory, and hands the store back.
    pub fn of(alloc: Global, mut store: S, setup: Setup) -> Result<Loaded<S>, (StoreFault, S)>
        ensures ok { IfOk result (IsLoaded S.stored setup store) }
        ensures err { IfErr result (λ failed. FailsToOpen failed.0 (S.stored store) (S.stored failed.1)) }
    {
        match load(alloc, &mut store, setup) {
            Ok(kept) => Ok(Loaded { store, kept }),
            Err(fault) => Err((fault, store)),
        }
    }

    /// With what it is set up.
    pub fn setup(&self) -> Setup
        ensures { result ≡ self.now.kept.setup }
    {
        self.kept.setup()
    }

    /// The node in the incarnation after the last one that is stored, which is raised. An `Err` hands the store back, as that of `open_node`.
    pub fn begin(self) -> Result<(Node<S>, Life), (StoreFault, S)>
        ensures ok { IfOk result (λ opened. Begins S.stored self opened.0 opened.1) }
        ensures finished { IfOk result (λ opened. opened.0.unfinished ≡ None) }
        ensures settled { IfOk result (λ opened. opened.0.waiting ≡ []) }
        ensures untold { IfOk result (λ opened. opened.0.stopped ≡ None) }
        ensures err { IfErr result (λ failed. FailsToBegin S.stored self failed.0 failed.1) }
    {
        let Loaded {
            mut store,
            mut kept,
        } = self;
        match raise(&mut store, &mut kept) {
            Ok(()) => {
                let life = Life::of(kept.setup().node(), kept.incarnation());
                Ok((Node::make(store, kept), life))
            }
            Err(fault) => {
                drop(kept);
                Err((fault, store))
            }
        }
    }
}

/// What a node will keep over a store, with the records that it has.
pub(crate) fn load<S: StableStore>(
    alloc: Global,
    store: &mut S,
    setup: Setup,
) -> Result<Kept, StoreFault>
    ensures ok { IfOk result (HasLoaded setup (S.stored store.old) (S.stored store.new)) }
    ensures err { IfErr result (λ fault. FailsToOpen fault (S.stored store.old) (S.stored store.new)) }
{
    let records = store.load()?;
    let kept = Kept::open(alloc, setup, Incarnation::of(1), records)?;
    Ok(kept)
}

/// Begins the next incarnation of what a node keeps over a store, which has it then.
pub(crate) fn raise<S: StableStore>(store: &mut S, kept: &mut Kept) -> Result<(), StoreFault>
    ensures ok { OnOk result (HasRaised (S.stored store.old) (S.stored store.new) kept.old kept.new) }
    ensures err { IfErr result (λ fault. FailsToOpen fault (S.stored store.old) (S.stored store.new)) }
{
    let incarnation = store.next_incarnation()?;
    kept.begin(incarnation);
    Ok(())
}
