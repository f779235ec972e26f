//! With what a part of a journal begins.

ghost use Rattle.std.specs.Prelude.{ℕ};
ghost use Rattle.mc_model.specs.cluster.Steps.{Cluster, setup_of};
ghost use Rattle.node_model.specs.Kept.{Kept};
ghost use Rattle.node_model.specs.Stepped.{opened_new};
ghost use Rattle.node_laws.specs.Clusters.{cluster_with};
ghost use Rattle.journal_parts.specs.Numbers.{Numbers, none_sent};

use std::marker::Brand;
use std::sync::ledger::Ledger;

/// With what a part of a journal begins: the cluster, what each of its nodes keeps there, how many packets have numbers, and those of them that may still come.
/// A call that passes `Brand` picks them; a program has nothing of them.
pub trait Begins: Ledger {
    ghost cluster: { Cluster };

    ghost kept: { ℕ → Kept };

    ghost numbers: { Numbers };
}

impl Begins for Brand {
    ghost cluster = { cluster_with 1 1 0 };

    ghost kept = { λ node. opened_new (setup_of (cluster_with 1 1 0) node) };

    ghost numbers = { none_sent };
}
