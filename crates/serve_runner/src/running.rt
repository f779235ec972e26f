//! A server from its configuration to its end.

ghost use Rattle.std.specs.Prelude.{◌≡◌, IfOk};
ghost use Rattle.server.specs.Actions.{AllBegin};
ghost use Rattle.server.specs.declared.Ending.TheVariants.{Asked};
ghost use Rattle.server.specs.Openings.{cluster_of, kept_at};
ghost use Rattle.serve_runner.specs.Beginnings.{defaults_in};

use crate::asked::Options;
use crate::fault::ServeFault;
use crate::opening::{Configured, begin_all, listen_all, load_all, open_status, read_file};
use crate::standard::fill_standard;
use crate::version::PROGRAM;
use cluster_stores::open_stores;
use config::{Config, NodeConfig};
use node_stores::NodeStore;
use server::{
    Beginning, Defaults, Doors, Ending, LAST_INCARNATION, Life, MOST_SEATS, Served, Settings, Stop,
    serve, stamp_now,
};
use std::alloc::{AllocError, Global};
use std::marker::Brand;
use std::net::{Net, TcpListener, TcpStream};
use std::rt::{Clock, Files, HostRuntime};
use std::sync::ledger::Blank;
use std::sync::{Arc, Wait};
use std::thread::Threads;

/// Serves by the configuration in a file until it ends: how many entries its journal has, in all its parts. Of several faults that keep it from serving
/// Nothing is told first, then that of the file, those of the configuration, of stores that can't be opened or are not those of this cluster, of what they
/// hold, of the listeners, and of stores that take no next incarnation. So a start that fails before uses up none. Once it serves, Ended or Journal tell why it
/// ended, if it was not asked to.
///
/// The lines that tell the version, and where nodes listen, come once all stores are open, and all nodes listen, and behind them those that warn of the
/// configuration; the line that the centre serves comes once all nodes may be served.
pub fn serve_file<
    R: Threads
        + Wait
        + Clock
        + Eprint
        + Files
        + Net<Listener = TcpListener, Stream = TcpStream>
        + AllocGlobal
        + Sync,
>(
    rt: &R,
    host: &HostRuntime,
    path: &str,
    options: Options,
    stop: Arc<Stop>,
) -> Result<u64, ServeFault> {
    let standard = fill_standard(rt)?;
    let served = serve_by(rt, host, path, options, stop);
    drop(standard);
    served
}

/// Serves so, with files that hold the numbers of standard input, output and error.
fn serve_by<
    R: Threads
        + Wait
        + Clock
        + Eprint
        + Files
        + Net<Listener = TcpListener, Stream = TcpStream>
        + AllocGlobal
        + Sync,
>(
    rt: &R,
    host: &HostRuntime,
    path: &str,
    options: Options,
    stop: Arc<Stop>,
) -> Result<u64, ServeFault> {
    let Configured {
        config,
        own,
        warned,
    } = read_file(rt, path)?;
    let alloc = rt.alloc();
    let stores = open_stores(rt, host, &config.nodes)?;
    let Some(defaults) = Defaults::make(config.first_serial, config.default_validity) else {
        return Err(ServeFault::Memory);
    };
    let loaded = load_all(alloc, stores, defaults)?;
    let entrances = listen_all(rt, alloc, &config.nodes)?;
    let status = open_status(rt, host, alloc, own.status)?;
    let (nodes, lives) = begin_all(alloc, loaded)?;
    tell_start(rt, &config, &lives);
    let _ = rt.eprint(warned.as_str());
    drop(warned);
    let beginning = Beginning {
        blank: Blank::new(MOST_SEATS),
        nodes,
    };
    let doors = Doors {
        entrances,
        lives,
        status,
    };
    let settings = Settings {
        config,
        own,
        is_quiet: options.is_quiet,
        stop,
    };
    ended(serve_over(rt, alloc, beginning, doors, settings)?)
}

/// Serves over nodes that opened.
fn serve_over<R: Threads + Wait + Clock + Eprint + Sync>(
    rt: &R,
    alloc: Global,
    beginning: Beginning<NodeStore>,
    doors: Doors,
    settings: Settings,
) -> Result<Served<NodeStore>, AllocError>
    requires parts { beginning.blank.parts ≡ 1000000 }
    requires begin { AllBegin (cluster_of beginning.nodes.items (defaults_in settings.config)) (kept_at beginning.nodes.items (defaults_in settings.config))
        beginning.nodes.items }
{
    serve::<NodeStore, Brand, R>(rt, alloc, beginning, doors, settings)
}

/// How many entries the journal of a server has that was asked to end; else why it ended.
fn ended(served: Served<NodeStore>) -> Result<u64, ServeFault>
    ensures { IfOk result (λ entries. (served.ending ≡ Asked) × (entries ≡ served.entries)) }
{
    let Served {
        ending,
        entries,
        journal,
        ..
    } = served;
    let is_closed = journal.is_some();
    drop(journal);
    match ending {
        Ending::NoPart => Err(ServeFault::Ended(ending)),
        _ if !is_closed => Err(ServeFault::Journal),
        Ending::Asked => Ok(entries),
        other => Err(ServeFault::Ended(other)),
    }
}

/// From which incarnation on of 9,999 an operator is told at each start how many are left.
const LATE_INCARNATION: u16 = 9_000;

/// Tells which program it is, and of each node where it listens, in which incarnation, and where its store is.
fn tell_start<R: Eprint + Clock>(rt: &R, config: &Config, lives: &[Life]) {
    let stamp = stamp_now(rt);
    let _ = eprintln!(rt; "{stamp} {PROGRAM}");
    for (node, life) in config.nodes.iter().zip(lives) {
        tell_node(rt, node, life);
    }
}

/// Tells where a node listens, in which incarnation, and where its store is.
fn tell_node<R: Eprint + Clock>(rt: &R, node: &NodeConfig, life: &Life) {
    let number = life.node().number();
    let incarnation = life.incarnation().number();
    let address = node.listen;
    let stamp = stamp_now(rt);
    let _ = match &node.store {
        Some(path) => {
            eprintln!(rt;
                "{stamp} node {number}: listens on {address}, incarnation {incarnation}, store {path}"
            )
        }
        None => {
            eprintln!(rt;
                "{stamp} node {number}: listens on {address}, incarnation {incarnation}, store in memory"
            )
        }
    };
    if incarnation >= LATE_INCARNATION {
        let left = LAST_INCARNATION.saturating_sub(incarnation);
        let _ = eprintln!(rt; "{stamp} node {number}: {left} incarnations are left");
    }
}
