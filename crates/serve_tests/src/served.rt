//! A server of the tests, and a client beside it.

ghost use Rattle.std.specs.Prelude.{◌≡◌};
ghost use Rattle.node_threads.specs.Actions.{AllBegin};
ghost use Rattle.node_threads.specs.Openings.{cluster_of, kept_at};
ghost use Rattle.serve_tests.specs.Beginnings.{defaults_in};

use crate::clients::{Addresses, Client};
use config::{Config, Own};
use node_threads::{Defaults, Life, Node, open_nodes, opened_nodes_begin};
use server::{Beginning, Doors, Ending, Entrance, Served, Settings, StatusDoor, Stop, serve};
use stable_store::{GroupStore, StableStore};
use std::alloc::Global;
use std::hash::RandomState;
use std::marker::Brand;
use std::net::{Net, SocketAddr, TcpListener, TcpStream};
use std::process::Abort;
use std::random::RandomSource;
use std::rt::Clock;
use std::sync::ledger::Blank;
use std::sync::{Arc, Wait};
use std::thread;
use std::thread::Threads;

/// How many parts a ledger of slips has.
const PARTS: u64 = 1_000_000;

/// What a test serves: this client, over a node whose incarnations begin with this serial, and parts of the journal of so many entries.
#[derive(Clone, Copy, Debug)]
pub struct Case {
    pub client: Client,
    pub first_serial: u32,
    pub part_entries: u32,
}

impl Case {
    /// This client, over a node and a journal as a configuration has them that does not say it.
    pub fn of(client: Client) -> Case {
        Case {
            client,
            first_serial: 1,
            part_entries: 0,
        }
    }
}

/// How a server ended, and how many parts its journal had.
#[derive(Clone, Copy, Debug, PartialEq, Eq)]
pub struct Ended {
    pub ending: Ending,
    pub parts: u64,
}

/// One node over this store.
fn opened<S: StableStore + Drop>(
    rt: &impl Abort,
    alloc: Global,
    store: S,
    defaults: Defaults,
) -> (Vec<Node<S>>, Vec<Life>)
    ensures { AllBegin (cluster_of result.0.items defaults) (kept_at result.0.items defaults) result.0.items }
{
    let mut stores = Vec::new(alloc);
    if stores.push(store).is_err() {
        panic!(rt; "memory");
    }
    opened_nodes_begin::<S>();
    match open_nodes(alloc, stores, defaults) {
        Ok(opened) => opened,
        Err(_) => panic!(rt; "it opens"),
    }
}

/// The configuration of scripts for a case, by which the server ends after its session.
fn settings(rt: &impl Abort, alloc: Global, case: Case) -> Settings {
    let config = Config::of_scripts(alloc).expect(rt, "memory");
    Settings {
        config: Config {
            stop_after: 1,
            first_serial: case.first_serial,
            ..config
        },
        own: Own {
            idle_seconds: 0,
            bind_seconds: 0,
            write_seconds: 0,
            linger_seconds: 0,
            sessions: 0,
            part_entries: case.part_entries,
            ends_full: false,
            status: None,
        },
        is_quiet: true,
        stop: Arc::new(alloc, Stop::none()).expect(rt, "memory"),
    }
}

/// A server that is to begin.
#[derive(Drop)]
struct Opening<S: GroupStore> {
    beginning: Beginning<S>,
    doors: Doors,
    settings: Settings,
}

/// What the node goes by.
fn defaults_of(rt: &impl Abort, config: &Config) -> Defaults
    ensures { result ≡ defaults_in config.now }
{
    Defaults::make(config.first_serial, config.default_validity).expect(rt, "defaults")
}

/// Where a server listens: at its node, and where it tells of itself.
#[derive(Drop)]
struct Listening {
    entrance: Entrance,
    status: StatusDoor,
}

/// A server over this store, which listens here.
fn made<S: GroupStore + Drop>(
    rt: &impl Abort,
    alloc: Global,
    store: S,
    listening: Listening,
    case: Case,
) -> Opening<S>
    ensures parts { result.beginning.blank.parts ≡ 1000000 }
    ensures begin { AllBegin (cluster_of result.beginning.nodes.items (defaults_in result.settings.config))
        (kept_at result.beginning.nodes.items (defaults_in result.settings.config)) result.beginning.nodes.items }
{
    let Listening { entrance, status } = listening;
    let mut entrances = Vec::new(alloc);
    entrances.push(entrance).expect(rt, "memory");
    let settings = settings(rt, alloc, case);
    let defaults = defaults_of(rt, &settings.config);
    let (nodes, lives) = opened(rt, alloc, store, defaults);
    Opening {
        beginning: Beginning {
            blank: Blank::new(PARTS),
            nodes,
        },
        doors: Doors {
            entrances,
            lives,
            status: Some(status),
        },
        settings,
    }
}

/// How a server ends.
fn finished<S: GroupStore + Send + Sync + Drop, R: Threads + Wait + Eprint + Clock + Abort + Sync>(
    rt: &R,
    alloc: Global,
    start: Opening<S>,
) -> Ended
    requires parts { start.beginning.blank.parts ≡ 1000000 }
    requires begin { AllBegin (cluster_of start.beginning.nodes.items (defaults_in start.settings.config))
        (kept_at start.beginning.nodes.items (defaults_in start.settings.config)) start.beginning.nodes.items }
{
    let Opening {
        beginning,
        doors,
        settings,
    } = start;
    match serve::<S, Brand, R>(rt, alloc, beginning, doors, settings) {
        Ok(
            Served {
                ending,
                parts,
                journal,
                ..
            },
        ) => {
            assert!(rt; journal.is_some());
            drop(journal);
            Ended { ending, parts }
        }
        Err(_) => panic!(rt; "memory"),
    }
}

/// A server listens on ports that are free: where, and at which addresses.
fn free_ports<R: Abort + Net<Listener = TcpListener, Stream = TcpStream> + RandomSource>(
    rt: &R,
    alloc: Global,
) -> (Listening, Addresses) {
    let (entrance, node) = open_port(rt, alloc);
    let (asked, status) = open_port(rt, alloc);
    let door = StatusDoor {
        entrance: asked,
        keys: RandomState::new(rt).expect(rt, "keys"),
    };
    let listening = Listening {
        entrance,
        status: door,
    };
    (listening, Addresses { node, status })
}

/// An entrance on a port that is free, and its address.
fn open_port<R: Abort + Net<Listener = TcpListener, Stream = TcpStream>>(
    rt: &R,
    alloc: Global,
) -> (Entrance, SocketAddr) {
    let listener = TcpListener::bind(rt, "127.0.0.1:0").expect(rt, "a port");
    let address = listener.local_addr().expect(rt, "an address");
    let entrance = Entrance::open(rt, alloc, listener).expect(rt, "an entrance");
    (entrance, address)
}

/// What the client of a case hears, and how the server ends over this store once its session has.
pub fn served<
    S: GroupStore + Send + Sync + Drop,
    R: Threads
        + Wait
        + Eprint
        + Clock
        + Abort
        + Net<Listener = TcpListener, Stream = TcpStream>
        + RandomSource
        + Sync,
>(rt: &R, alloc: Global, store: S, case: Case) -> (Vec<Vec<u8>>, Ended) {
    let (listening, addresses) = free_ports(rt, alloc);
    let start = made(rt, alloc, store, listening, case);
    thread::scope(
        thread::scope_env(),
        rt,
        move |scope| -> (Vec<Vec<u8>>, Ended)
            requires { (start.beginning.blank.parts ≡ 1000000)
                × AllBegin (cluster_of start.beginning.nodes.items (defaults_in start.settings.config))
                (kept_at start.beginning.nodes.items (defaults_in start.settings.config)) start.beginning.nodes.items }
        {
            let client = scope.spawn(move || case.client.heard(rt, alloc, addresses));
            let ended = finished(rt, alloc, start);
            match client {
                Ok(client) => (client.join(rt), ended),
                Err(_) => panic!(rt; "a thread"),
            }
        },
    )
}
