//! Laws of the runs of a node: nothing to call, but to cite.

ghost use Rattle.std.specs.Prelude.{List};
ghost use Rattle.mc_model.specs.node.Setup.{Setup};
ghost use Rattle.node_laws.specs.Runs.{IsOneOf};
ghost use Rattle.node_core.specs.Nodes.{Standing};
ghost use Rattle.node_runs.specs.Runs.{AreOneRun, Event, IsRun, IsRunOfOne, OpensNew, StartsAsOpened, StopsAsOpened};

use stable_store::StableStore;

/// Whatever comes to a node that opened over a new store, for every list of inputs, of stops in the save of a step, before it or after it, and
/// of starts, and for every kind of store: what the node keeps and gives out is a run of one actor of the model, by exact steps that it may
/// take by itself.
pub fn a_node_is_one_actor<S: StableStore>()
    ensures { (setup : Setup) → IsOneOf setup → (first : Standing S) → OpensNew setup first →
        (events : List (Event × Standing S)) → IsRun first events → IsRunOfOne setup first events }
{}

/// A node that works and is opened again started anew; and so did one that opens over its store once the node is given up, by whatever way that
/// store was opened, if nothing else is found in it than might have been.
pub fn a_start_happens<S: StableStore>()
    ensures { StartsAsOpened S.stored }
{}

/// A node that stopped in the save of a packet's step, and is opened again or given up for one that opens over its store: it stopped there, before the
/// save or after it, and started anew.
pub fn a_stop_happens<S: StableStore>()
    ensures { StopsAsOpened S.stored }
{}

/// What happens to a node over a store that was not new goes on with the run that left the store: both and the start between them are one run, of which
/// `a_node_is_one_actor` speaks.
pub fn a_node_goes_on<S: StableStore>()
    ensures { AreOneRun S }
{}
