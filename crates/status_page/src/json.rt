//! The counts of a server as JSON.

ghost use Rattle.std.specs.Prelude.{◌≡◌, ◌++◌, codes, IfOk, OnOk};
ghost use Rattle.std.specs.List.{flat_map};
ghost use Rattle.status_page.specs.Counts.{count_name, count_value, node_name, node_value};
ghost use Rattle.status_page.specs.Texts as spec;

use crate::count::{COUNTS, Count};
use crate::node_count::{NODE_COUNTS, NodeCount};
use crate::putting::{put, put_number};
use crate::status::{NodeStatus, Status};
use std::alloc::{AllocError, Global};

/// What a server tells of itself, as an object of JSON, and a line feed. An `Err` is want of memory.
pub fn json_text(alloc: Global, status: &Status) -> Result<Vec<u8>, AllocError>
    ensures { IfOk result (λ text. text.items ≡ spec.json_text status.now) }
{
    let mut out = Vec::new(alloc);
    put(&mut out, "{\"program\":\"Tomveul\"")?;
    put_counts(&mut out, status, &COUNTS)?;
    put(&mut out, ",\"nodes\":[")?;
    put_nodes(&mut out, &status.nodes)?;
    put(&mut out, "]}\n")?;
    Ok(out)
}

/// Puts all of these that are counted of the server.
fn put_counts(out: &mut Vec<u8>, status: &Status, counts: &[Count]) -> Result<(), AllocError>
    ensures { OnOk result (out.new.items ≡ out.old.items
        ++ flat_map (λ count. spec.member (count_name count) (count_value status.now count)) counts.now) }
{
    for count in counts {
        put_member(out, count.name(), status.value(*count))?;
    }
    Ok(())
}

/// Puts the objects of nodes, with commas between them.
fn put_nodes(out: &mut Vec<u8>, nodes: &[NodeStatus]) -> Result<(), AllocError>
    ensures { OnOk result (out.new.items ≡ out.old.items ++ spec.node_objects nodes.now) }
{
    let Some((first, others)) = nodes.split_first() else {
        return Ok(());
    };
    put_node(out, first)?;
    put_others(out, others)
}

/// Puts the objects of nodes, a comma before each.
fn put_others(out: &mut Vec<u8>, nodes: &[NodeStatus]) -> Result<(), AllocError>
    ensures { OnOk result (out.new.items ≡ out.old.items ++ flat_map (λ node. codes "," ++ spec.node_object node) nodes.now) }
{
    for node in nodes {
        put(out, ",")?;
        put_node(out, node)?;
    }
    Ok(())
}

/// Puts the object of a node.
#[tactic(auto, unfolding(crate::specs::Texts::node_object))]
fn put_node(out: &mut Vec<u8>, node: &NodeStatus) -> Result<(), AllocError>
    ensures { OnOk result (out.new.items ≡ out.old.items ++ spec.node_object node.now) }
{
    put(out, "{\"node\":")?;
    put_number(out, u64::from(node.number))?;
    put_node_counts(out, node, &NODE_COUNTS)?;
    put(out, "}")
}

/// Puts all of these that are counted of a node.
fn put_node_counts(
    out: &mut Vec<u8>,
    node: &NodeStatus,
    counts: &[NodeCount],
) -> Result<(), AllocError>
    ensures { OnOk result (out.new.items ≡ out.old.items
        ++ flat_map (λ count. spec.member (node_name count) (node_value node.now count)) counts.now) }
{
    for count in counts {
        put_member(out, count.name(), node.value(*count))?;
    }
    Ok(())
}

/// Puts a name and its number, behind a comma.
#[tactic(auto, unfolding(crate::specs::Texts::member))]
fn put_member(out: &mut Vec<u8>, name: &str, number: u64) -> Result<(), AllocError>
    ensures { OnOk result (out.new.items ≡ out.old.items ++ spec.member name.now number) }
{
    put(out, ",\"")?;
    put(out, name)?;
    put(out, "\":")?;
    put_number(out, number)
}
