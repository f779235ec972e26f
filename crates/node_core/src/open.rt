//! The opening of a node.

ghost use Rattle.std.specs.Prelude.{◌≡◌, [], None, IfOk, IfErr};
ghost use Rattle.stable_store.specs.Stored.{GoesOn, LeavesNext};
ghost use Rattle.node_kept.specs.Keeping.{IsOpen};
ghost use Rattle.node_core.specs.Nodes.{FailsToOpen, HasFound, IsCaused, OpensOver, StaysAt, records_in};

use crate::life::Life;
use crate::loaded::{Loaded, load, raise};
use crate::node::Node;
use node_kept::{Kept, Setup};
use stable_store::{StableStore, StoreFault};
use std::alloc::Global;

/// Opens a node over a store, in the incarnation after the last one that is stored: it keeps the records of the store and nothing else.
/// The incarnation is raised last. An `Err` is the store's fault or want of memory, and hands the store back; its records are as they
/// were, and so is its incarnation at Incarnations and Memory; at Device and Damaged it is the same or one more. Device comes only if the
/// device failed, Damaged only if none that was ever stored is, and Incarnations only if all were used.
pub fn open_node<S: StableStore>(
    alloc: Global,
    store: S,
    setup: Setup,
) -> Result<(Node<S>, Life), (StoreFault, S)>
    ensures ok { IfOk result (λ opened. OpensOver (S.stored store) setup (S.stored opened.0.store) opened.0 opened.1) }
    ensures finished { IfOk result (λ opened. opened.0.unfinished ≡ None) }
    ensures settled { IfOk result (λ opened. opened.0.waiting ≡ []) }
    ensures untold { IfOk result (λ opened. opened.0.stopped ≡ None) }
    ensures err { IfErr result (λ failed. FailsToOpen failed.0 (S.stored store) (S.stored failed.1)) }
{
    match Loaded::of(alloc, store, setup) {
        Ok(loaded) => loaded.begin(),
        Err(failed) => Err(failed),
    }
}

/// What a node keeps that opens over a store in the next incarnation, which the store has then.
pub(crate) fn begin<S: StableStore>(
    alloc: Global,
    store: &mut S,
    setup: Setup,
) -> Result<Kept, StoreFault>
    ensures ok { IfOk result (λ kept. IsOpen setup kept.incarnation (records_in kept) kept) }
    ensures found { IfOk result (HasFound (S.stored store.old) (S.stored store.new)) }
    ensures left { LeavesNext (S.stored store.old) (S.stored store.new) }
    ensures goes_on { GoesOn (S.stored store.old) (S.stored store.new) }
    ensures stays { IfErr result (λ fault. StaysAt fault (S.stored store.old) (S.stored store.new)) }
    ensures cause { IfErr result (λ fault. IsCaused fault (S.stored store.old) (S.stored store.new)) }
{
    let mut kept = load(alloc, store, setup)?;
    raise(store, &mut kept)?;
    Ok(kept)
}
