//! The counts of a server as a page of HTML.

ghost use Rattle.std.specs.Prelude.{◌≡◌, ◌++◌, codes, IfOk, OnOk};
ghost use Rattle.std.specs.List.{flat_map};
ghost use Rattle.status_page.specs.Texts as spec;

use crate::count::{COUNTS, Count};
use crate::node_count::{NODE_COUNTS, NodeCount};
use crate::putting::{put, put_between, put_number_between};
use crate::status::{NodeStatus, Status};
use std::alloc::{AllocError, Global};

/// What stands before the first row of the server.
const HEAD: &str =
    "<!DOCTYPE html>\n<html lang=\"en\"><head><meta charset=\"utf-8\"><meta http-equiv=\"refresh\" content=\"5\"><title>Tomveul</title></head>\n<body><h1>Tomveul</h1>\n<table border=\"1\">\n";

/// What a server tells of itself, as a page which a browser asks for again each five seconds. An `Err` is want of memory.
pub fn page_text(alloc: Global, status: &Status) -> Result<Vec<u8>, AllocError>
    ensures { IfOk result (λ text. text.items ≡ spec.page_text status.now) }
{
    let mut out = Vec::new(alloc);
    begin_page(&mut out)?;
    put_counts(&mut out, status, &COUNTS)?;
    go_on(&mut out)?;
    put_nodes(&mut out, &status.nodes)?;
    end_page(&mut out)?;
    Ok(out)
}

/// Puts how the page begins.
#[tactic(auto, unfolding(crate::specs::Texts::page_head))]
fn begin_page(out: &mut Vec<u8>) -> Result<(), AllocError>
    ensures { OnOk result (out.new.items ≡ out.old.items ++ spec.page_head) }
{
    put(out, HEAD)
}

/// Puts what stands between the rows of the server and those of its nodes.
#[tactic(auto, unfolding(crate::specs::Texts::page_middle))]
fn go_on(out: &mut Vec<u8>) -> Result<(), AllocError>
    ensures { OnOk result (out.new.items ≡ out.old.items ++ spec.page_middle) }
{
    put(out, "</table><br>\n<table border=\"1\">\n")
}

/// Puts how the page ends.
#[tactic(auto, unfolding(crate::specs::Texts::page_end))]
fn end_page(out: &mut Vec<u8>) -> Result<(), AllocError>
    ensures { OnOk result (out.new.items ≡ out.old.items ++ spec.page_end) }
{
    put(out, "</table></body></html>\n")
}

/// Puts the rows of all of these that are counted of the server.
fn put_counts(out: &mut Vec<u8>, status: &Status, counts: &[Count]) -> Result<(), AllocError>
    ensures { OnOk result (out.new.items ≡ out.old.items ++ flat_map (spec.count_row status.now) counts.now) }
{
    for count in counts {
        put_count(out, status, *count)?;
    }
    Ok(())
}

/// Puts the row of what is counted of the server.
#[tactic(auto, unfolding(crate::specs::Texts::count_row))]
fn put_count(out: &mut Vec<u8>, status: &Status, count: Count) -> Result<(), AllocError>
    ensures { OnOk result (out.new.items ≡ out.old.items ++ spec.count_row status.now count) }
{
    begin_row(out, count.help())?;
    put_cell(out, status.value(count))?;
    end_row(out)
}

/// Puts the rows of the nodes.
#[tactic(auto, unfolding(crate::specs::Texts::node_rows))]
fn put_nodes(out: &mut Vec<u8>, nodes: &[NodeStatus]) -> Result<(), AllocError>
    ensures { OnOk result (out.new.items ≡ out.old.items ++ spec.node_rows nodes.now) }
{
    begin_row(out, "Node")?;
    for node in nodes {
        put_cell(out, u64::from(node.number))?;
    }
    end_row(out)?;
    put_node_counts(out, nodes, &NODE_COUNTS)
}

/// Puts the rows of all of these that are counted of nodes.
fn put_node_counts(
    out: &mut Vec<u8>,
    nodes: &[NodeStatus],
    counts: &[NodeCount],
) -> Result<(), AllocError>
    ensures { OnOk result (out.new.items ≡ out.old.items ++ flat_map (spec.node_row nodes.now) counts.now) }
{
    for count in counts {
        put_node_count(out, nodes, *count)?;
    }
    Ok(())
}

/// Puts the row of what is counted of nodes.
#[tactic(auto, unfolding(crate::specs::Texts::node_row))]
fn put_node_count(
    out: &mut Vec<u8>,
    nodes: &[NodeStatus],
    count: NodeCount,
) -> Result<(), AllocError>
    ensures { OnOk result (out.new.items ≡ out.old.items ++ spec.node_row nodes.now count) }
{
    begin_row(out, count.help())?;
    for node in nodes {
        put_cell(out, node.value(count))?;
    }
    end_row(out)
}

/// Puts how a row begins.
#[tactic(auto, unfolding(crate::specs::Texts::row_begin))]
fn begin_row(out: &mut Vec<u8>, help: &str) -> Result<(), AllocError>
    ensures { OnOk result (out.new.items ≡ out.old.items ++ spec.row_begin help.now) }
{
    put_between(out, "<tr><th align=\"left\">", help, "</th>")
}

/// Puts how a row ends.
fn end_row(out: &mut Vec<u8>) -> Result<(), AllocError>
    ensures { OnOk result (out.new.items ≡ out.old.items ++ codes "</tr>\n") }
{
    put(out, "</tr>\n")
}

/// Puts a number in a row.
#[tactic(auto, unfolding(crate::specs::Texts::cell))]
fn put_cell(out: &mut Vec<u8>, number: u64) -> Result<(), AllocError>
    ensures { OnOk result (out.new.items ≡ out.old.items ++ spec.cell number) }
{
    put_number_between(out, "<td align=\"right\">", number, "</td>")
}
