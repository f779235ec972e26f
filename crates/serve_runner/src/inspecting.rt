//! What a configuration means.

use crate::fault::ServeFault;
use crate::listing::{print_accounts, print_routes};
use crate::opening::{Source, read_source};
use crate::version::PROGRAM;
use config::{NodeConfig, Own};
use config_warnings::{Shown, warnings};
use std::io;
use std::rt::Files;

/// How many connections a node has at most, whatever the configuration says.
const MOST_SESSIONS: u32 = 99;

/// How many entries a part of the journal has before it is closed, if the configuration does not say it.
const PART_ENTRIES: u32 = 150_000;

/// Prints what the configuration in a file means, on standard output: its nodes, accounts and routes, and its limits as they are. What warns is printed on
/// standard error; whether there is any. An `Err` tells why the file is no configuration.
pub fn inspect<R: Files + AllocGlobal + Print + Eprint>(
    rt: &R,
    path: &str,
) -> Result<bool, ServeFault> {
    let source = read_source(rt, path)?;
    let warned = warnings(rt.alloc(), &source.octets, &source.document, &source.config)?;
    print_all(rt, &source);
    let _ = rt.eprint(warned.as_str());
    Ok(!warned.is_empty())
}

/// Prints what a configuration means.
fn print_all<R: Print>(rt: &R, source: &Source) {
    let _ = println!(rt; "{PROGRAM}");
    let _ = print_nodes(rt, &source.config.nodes);
    let _ = print_accounts(rt, &source.document);
    print_routes(rt, &source.document);
    let validity = source.config.default_validity;
    let _ = println!(rt; "a message is valid for {validity} seconds that does not say it");
    let serial = source.config.first_serial;
    let _ = println!(rt; "the first message of a node after a start has serial {serial}");
    print_limits(rt, source.own);
    match source.own.status {
        Some(address) => {
            let _ = println!(rt; "the status is served on {address}");
        }
        None => {}
    }
    match source.config.stop_after {
        0 => {}
        count => {
            let _ = println!(rt; "it ends after {count} sessions");
        }
    }
}

/// Prints where each node listens, and where its store is.
fn print_nodes<R: Print>(rt: &R, nodes: &[NodeConfig]) -> io::Result<()> {
    for (place, node) in nodes.iter().enumerate() {
        let number = place.saturating_add(1);
        let address = node.listen;
        match &node.store {
            Some(path) => {
                let path = Shown(path.as_str());
                println!(rt; "node {number} listens on {address}, store {path}")?;
            }
            None => println!(rt; "node {number} listens on {address}, store in memory")?,
        }
    }
    Ok(())
}

/// Prints the limits of sessions and of the journal.
fn print_limits<R: Print>(rt: &R, own: Own) {
    print_limit(rt, "no octet comes", own.idle_seconds);
    print_limit(rt, "nobody binds", own.bind_seconds);
    print_limit(rt, "its ESME takes nothing", own.write_seconds);
    print_linger(rt, own.linger_seconds);
    let sessions = match own.sessions {
        0 => MOST_SESSIONS,
        sessions => sessions.min(MOST_SESSIONS),
    };
    let _ = println!(rt; "a node has {sessions} connections at most");
    if own.ends_full {
        let _ = println!(rt; "it ends once its journal is full");
        return;
    }
    let entries = match own.part_entries {
        0 => PART_ENTRIES,
        entries => entries,
    };
    let _ = println!(rt; "a part of the journal is closed after {entries} steps");
}

/// Prints when attempts fail that wait for a place, if no session of their account may receive any more.
fn print_linger<R: Print>(rt: &R, seconds: u32) {
    let what = "an attempt that waits for a place fails";
    let _ = match seconds {
        0 => println!(rt; "{what} if no session of its account may receive"),
        _ => println!(rt; "{what} if no session of its account may receive for {seconds} seconds"),
    };
}

/// Prints after how many seconds a connection is ended on which something is so, if it is.
fn print_limit<R: Print>(rt: &R, what: &str, seconds: u32) {
    let _ = match seconds {
        0 => println!(rt; "a connection on which {what} is not ended for that"),
        _ => println!(rt; "a connection on which {what} for {seconds} seconds is ended"),
    };
}
