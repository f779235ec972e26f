//! The counts of a server in Prometheus' text format, version 0.0.4.

ghost use Rattle.std.specs.Prelude.{◌≡◌, ◌++◌, IfOk, OnOk};
ghost use Rattle.std.specs.List.{flat_map};
ghost use Rattle.status_page.specs.Texts as spec;

use crate::count::{COUNTS, Count};
use crate::node_count::{NODE_COUNTS, NodeCount};
use crate::putting::{put, put_number_between};
use crate::status::{NodeStatus, Status};
use std::alloc::{AllocError, Global};

/// What stands in the name of a metric before that of what is counted of the server.
const OF_SERVER: &str = "";

/// What stands there before that of what is counted of a node.
const OF_NODE: &str = "node_";

/// What a server tells of itself, as metrics: of each two lines, and one for each number. An `Err` is want of memory.
pub fn metrics_text(alloc: Global, status: &Status) -> Result<Vec<u8>, AllocError>
    ensures { IfOk result (λ text. text.items ≡ spec.metrics_text status.now) }
{
    let mut out = Vec::new(alloc);
    put_counts(&mut out, status, &COUNTS)?;
    put_node_counts(&mut out, &status.nodes, &NODE_COUNTS)?;
    Ok(out)
}

/// Puts the lines of all of these that are counted of the server.
fn put_counts(out: &mut Vec<u8>, status: &Status, counts: &[Count]) -> Result<(), AllocError>
    ensures { OnOk result (out.new.items ≡ out.old.items ++ flat_map (spec.count_lines status.now) counts.now) }
{
    for count in counts {
        put_count(out, status, *count)?;
    }
    Ok(())
}

/// Puts the lines of what is counted of the server.
#[tactic(auto, unfolding(crate::specs::Texts::count_lines))]
fn put_count(out: &mut Vec<u8>, status: &Status, count: Count) -> Result<(), AllocError>
    ensures { OnOk result (out.new.items ≡ out.old.items ++ spec.count_lines status.now count) }
{
    put_head(out, OF_SERVER, count.name(), count.help(), count.rises())?;
    put_metric(out, OF_SERVER, count.name(), count.rises())?;
    put_number_between(out, " ", status.value(count), "\n")
}

/// Puts the lines of all of these that are counted of nodes.
fn put_node_counts(
    out: &mut Vec<u8>,
    nodes: &[NodeStatus],
    counts: &[NodeCount],
) -> Result<(), AllocError>
    ensures { OnOk result (out.new.items ≡ out.old.items ++ flat_map (spec.node_lines nodes.now) counts.now) }
{
    for count in counts {
        put_nodes(out, nodes, *count)?;
    }
    Ok(())
}

/// Puts the lines of what is counted of nodes.
#[tactic(auto, unfolding(crate::specs::Texts::node_lines))]
fn put_nodes(out: &mut Vec<u8>, nodes: &[NodeStatus], count: NodeCount) -> Result<(), AllocError>
    ensures { OnOk result (out.new.items ≡ out.old.items ++ spec.node_lines nodes.now count) }
{
    put_head(out, OF_NODE, count.name(), count.help(), count.rises())?;
    for node in nodes {
        put_node(out, node, count)?;
    }
    Ok(())
}

/// Puts the line of what is counted of a node.
#[tactic(auto, unfolding(crate::specs::Texts::node_line))]
fn put_node(out: &mut Vec<u8>, node: &NodeStatus, count: NodeCount) -> Result<(), AllocError>
    ensures { OnOk result (out.new.items ≡ out.old.items ++ spec.node_line count node.now) }
{
    put_metric(out, OF_NODE, count.name(), count.rises())?;
    put_labelled(out, node, node.value(count))
}

/// Puts what stands behind the name of a metric on the line of a node.
#[tactic(auto, unfolding(crate::specs::Texts::labelled))]
fn put_labelled(out: &mut Vec<u8>, node: &NodeStatus, number: u64) -> Result<(), AllocError>
    ensures { OnOk result (out.new.items ≡ out.old.items ++ spec.labelled node.now number) }
{
    put_label(out, node)?;
    put_number_between(out, " ", number, "\n")
}

/// Puts the label that says of which node a number is.
#[tactic(auto, unfolding(crate::specs::Texts::node_label))]
fn put_label(out: &mut Vec<u8>, node: &NodeStatus) -> Result<(), AllocError>
    ensures { OnOk result (out.new.items ≡ out.old.items ++ spec.node_label node.now) }
{
    put_number_between(out, "{node=\"", u64::from(node.number), "\"}")
}

/// Puts the lines that tell of a metric what it is, and of which kind.
#[tactic(auto, unfolding(crate::specs::Texts::metric_head))]
fn put_head(
    out: &mut Vec<u8>,
    first: &str,
    name: &str,
    help: &str,
    rises: bool,
) -> Result<(), AllocError>
    ensures { OnOk result (out.new.items ≡ out.old.items ++ spec.metric_head (spec.metric first.now name.now rises) help.now rises) }
{
    put(out, "# HELP ")?;
    put_metric(out, first, name, rises)?;
    put(out, " ")?;
    put(out, help)?;
    put(out, "\n# TYPE ")?;
    put_metric(out, first, name, rises)?;
    put(out, if rises { " counter\n" } else { " gauge\n" })
}

/// Puts the whole name of a metric.
#[tactic(auto, unfolding(crate::specs::Texts::metric))]
fn put_metric(out: &mut Vec<u8>, first: &str, name: &str, rises: bool) -> Result<(), AllocError>
    ensures { OnOk result (out.new.items ≡ out.old.items ++ spec.metric first.now name.now rises) }
{
    put(out, "tomveul_")?;
    put(out, first)?;
    put(out, name)?;
    put(out, if rises { "_total" } else { "" })
}
