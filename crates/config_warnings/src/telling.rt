//! The lines that warn.

use crate::lines::{Named, line_of};
use crate::nodes::{is_left_in_memory, share_port, share_store};
use crate::routes::is_deaf;
use crate::section::{SECTIONS, Section};
use crate::shown::Shown;
use crate::tables::{tables_in, text_at};
use crate::unknown::unknown_names;
use accounts::Accounts;
use config::{Config, NodeConfig};
use std::alloc::{AllocError, Global};
use toml::Value;

/// Of how many names that mean nothing the line is looked for: each look reads the text twice and more.
const MOST_LOOKS: usize = 20;

/// A configuration as it stands in a text.
#[derive(Clone, Copy)]
struct Source<'a> {
    alloc: Global,
    octets: &'a [u8],
    document: &'a Value,
}

/// The lines that warn, each ended by a line feed, and of how many names the line may still be looked for.
#[derive(Drop)]
struct Sheet {
    text: String,
    looks_left: usize,
}

/// What a configuration says that is no fault, and hardly meant: a line of each, which begins with `warning: ` and is ended by a line feed. `document` is the
/// table that the octets are, and `config` what they say. First come the names that mean nothing, section by section, those of the first 20 with their line if
/// it is found; then nodes that share a store or a port, or keep their records in memory beside others that have files; then routes to accounts that may not
/// receive; and last that there is no account, or no route. An `Err` is want of memory.
pub fn warnings(
    alloc: Global,
    octets: &[u8],
    document: &Value,
    config: &Config,
) -> Result<String, AllocError> {
    let source = Source {
        alloc,
        octets,
        document,
    };
    let mut sheet = Sheet {
        text: String::new(alloc),
        looks_left: MOST_LOOKS,
    };
    for section in &SECTIONS {
        add_unknown(&mut sheet, source, *section)?;
    }
    let mut text = sheet.text;
    add_nodes(alloc, &mut text, &config.nodes)?;
    add_deaf(alloc, &mut text, document, &config.accounts)?;
    add_absent(&mut text, document)?;
    Ok(text)
}

/// Adds the names in the tables of a section that mean nothing.
fn add_unknown(sheet: &mut Sheet, source: Source<'_>, section: Section) -> Result<(), AllocError> {
    for (row, table) in tables_in(source.document, section).iter().enumerate() {
        add_unknown_of(sheet, source, section, row, table)?;
    }
    Ok(())
}

/// Adds the names in a table of a section that mean nothing.
fn add_unknown_of(
    sheet: &mut Sheet,
    source: Source<'_>,
    section: Section,
    row: usize,
    table: &Value,
) -> Result<(), AllocError> {
    for name in unknown_names(source.alloc, section, table)? {
        let named = Named { section, row, name };
        add_name(sheet, source, named, table)?;
    }
    Ok(())
}

/// Adds a name of a table that means nothing there.
fn add_name(
    sheet: &mut Sheet,
    source: Source<'_>,
    named: Named<'_>,
    table: &Value,
) -> Result<(), AllocError> {
    let alloc = source.alloc;
    let shown = shown_name(alloc, named, table)?;
    let line = match sheet.looks_left.checked_sub(1) {
        Some(left) => {
            sheet.looks_left = left;
            line_of(alloc, source.octets, named)?
        }
        None => None,
    };
    let told = match line {
        Some(line) => format!(in alloc; "warning: line {line}: {shown} is not known\n")?,
        None => format!(in alloc; "warning: {shown} is not known\n")?,
    };
    sheet.text.push_str(told.as_str())
}

/// A name with what it stands in, as a place of a fault is told: `[[rout]]`, `own.idle` or `account.colour (account 2)`.
fn shown_name(alloc: Global, named: Named<'_>, table: &Value) -> Result<String, AllocError> {
    let name = Shown(named.name);
    let number = named.row.saturating_add(1);
    match named.section {
        Section::Whole => match table.get(named.name) {
            Some(Value::Table(_)) => format!(in alloc; "[{name}]"),
            Some(Value::Array(elements)) if elements.iter().all(|one| one.is_table()) => {
                format!(in alloc; "[[{name}]]")
            }
            _ => format!(in alloc; "{name}"),
        },
        Section::Nodes => format!(in alloc; "node.{name} (node {number})"),
        Section::Accounts => format!(in alloc; "account.{name} (account {number})"),
        Section::Routes => format!(in alloc; "route.{name} (route {number})"),
        Section::Own => format!(in alloc; "own.{name}"),
    }
}

/// Adds what is said of nodes.
fn add_nodes(alloc: Global, text: &mut String, nodes: &[NodeConfig]) -> Result<(), AllocError> {
    for (place, node) in nodes.iter().enumerate() {
        let number = place.saturating_add(1);
        if is_left_in_memory(nodes, node) {
            let told = format!(in alloc;
                "warning: node {number} keeps its records in memory, and others theirs in files\n"
            )?;
            text.push_str(told.as_str())?;
        }
        add_shared(alloc, text, &nodes[..place], node)?;
    }
    Ok(())
}

/// Adds what a node shares with those before it.
fn add_shared(
    alloc: Global,
    text: &mut String,
    before: &[NodeConfig],
    node: &NodeConfig,
) -> Result<(), AllocError> {
    let number = before.len().saturating_add(1);
    for (place, other) in before.iter().enumerate() {
        let first = place.saturating_add(1);
        if share_store(other, node) {
            let told = format!(in alloc; "warning: nodes {first} and {number} have one store\n")?;
            text.push_str(told.as_str())?;
        }
        if share_port(other, node) {
            let told = format!(in alloc;
                "warning: nodes {first} and {number} listen on one port\n"
            )?;
            text.push_str(told.as_str())?;
        }
    }
    Ok(())
}

/// Adds the routes to accounts that may not receive.
fn add_deaf(
    alloc: Global,
    text: &mut String,
    document: &Value,
    accounts: &Accounts,
) -> Result<(), AllocError> {
    for (place, route) in tables_in(document, Section::Routes).iter().enumerate() {
        let name = text_at(route, "account");
        if is_deaf(accounts, name) {
            let number = place.saturating_add(1);
            let account = Shown(name);
            let told = format!(in alloc;
                "warning: route {number} leads to {account}, which may not receive: its messages are never delivered\n"
            )?;
            text.push_str(told.as_str())?;
        }
    }
    Ok(())
}

/// Adds that there is no account, or no route.
fn add_absent(text: &mut String, document: &Value) -> Result<(), AllocError> {
    if tables_in(document, Section::Accounts).is_empty() {
        text.push_str("warning: there is no account: nobody may bind\n")?;
    }
    if tables_in(document, Section::Routes).is_empty() {
        text.push_str("warning: there is no route: each submit_sm is answered 0x0b\n")?;
    }
    Ok(())
}
