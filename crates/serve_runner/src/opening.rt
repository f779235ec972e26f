//! What a server needs before it serves: its configuration, its nodes over their stores, and where they listen.

ghost use Rattle.std.specs.Prelude.{◌≡◌, IfOk, length};
ghost use Rattle.node_stores.specs.Stores.{kept_in};
ghost use Rattle.server.specs.Loadings.{AreLoaded, BeginAJournal};

use crate::fault::ServeFault;
use cluster_stores::StoresFault;
use config::{Config, ConfigFault, NodeConfig, Own, read_config, read_own};
use config_warnings::warnings;
use node_stores::NodeStore;
use server::{
    Defaults, Entrance, Life, Loaded, Node, StartFault, StatusDoor, begin_nodes, load_nodes,
};
use std::alloc::{AllocError, Global};
use std::hash::RandomState;
use std::net::{Net, SocketAddr, SocketAddrV4, TcpListener, TcpStream};
use std::rt::{Files, HostRuntime};
use std::{fs, io};
use toml::Value;

/// A configuration, with the text that was read.
#[derive(Drop)]
pub(crate) struct Source {
    pub(crate) config: Config,
    pub(crate) own: Own,
    pub(crate) octets: Vec<u8>,
    /// The table that the octets are.
    pub(crate) document: Value,
}

/// What the configuration in a file says.
#[derive(Drop)]
pub(crate) struct Configured {
    pub(crate) config: Config,
    pub(crate) own: Own,
    /// The lines that warn of what is hardly meant.
    pub(crate) warned: String,
}

/// The configuration in a file, with its text. File, then NotToml or Config, then Own, if there is none; else an `Err` is want of memory.
pub(crate) fn read_source<R: Files + AllocGlobal>(
    rt: &R,
    path: &str,
) -> Result<Source, ServeFault> {
    let alloc = rt.alloc();
    let octets = match fs::read(rt, path) {
        Ok(octets) => octets,
        Err(error) => return Err(ServeFault::File(String::from_str(alloc, path)?, error)),
    };
    let config = match read_config(alloc, &octets) {
        Ok(config) => config,
        Err(ConfigFault::NotToml) => return Err(not_toml(alloc, &octets)?),
        Err(fault) => return Err(ServeFault::Config(fault)),
    };
    let own = match read_own(alloc, &octets) {
        Ok(own) => own,
        Err(fault) => return Err(ServeFault::Own(fault)),
    };
    match toml::table_from_slice(alloc, &octets) {
        Ok(members) => Ok(Source {
            config,
            own,
            octets,
            document: Value::Table(members),
        }),
        Err(_) => Err(ServeFault::Memory),
    }
}

/// Why octets are no TOML, and where.
fn not_toml(alloc: Global, octets: &[u8]) -> Result<ServeFault, AllocError> {
    match toml::table_from_slice(alloc, octets) {
        Err(error) if !error.is_memory() => Ok(ServeFault::NotToml(toml_text(alloc, error)?)),
        _ => Ok(ServeFault::Memory),
    }
}

/// The place of an error of TOML, and what went wrong there, in one line: `line 3, column 14: unclosed array`.
fn toml_text(alloc: Global, error: toml::de::Error) -> Result<String, AllocError> {
    let told = format!(in alloc; "{error}")?;
    let place = match told.as_str().split_once('\n') {
        Some((place, _)) => place,
        None => "",
    };
    let place = place.strip_prefix("TOML parse error at ").unwrap_or(place);
    let message = error.message();
    format!(in alloc; "{place}: {message}")
}

/// The configuration in a file, and the lines that warn of it. The faults are those of `read_source`.
pub(crate) fn read_file<R: Files + AllocGlobal>(
    rt: &R,
    path: &str,
) -> Result<Configured, ServeFault> {
    let Source {
        config,
        own,
        octets,
        document,
    } = read_source(rt, path)?;
    let warned = warnings(rt.alloc(), &octets, &document, &config)?;
    Ok(Configured {
        config,
        own,
        warned,
    })
}

/// The nodes, loaded over these stores, that of node 1 first. Store tells of the first that can't be loaded.
pub(crate) fn load_all(
    alloc: Global,
    stores: Vec<NodeStore>,
    defaults: Defaults,
) -> Result<Vec<Loaded<NodeStore>>, ServeFault>
    ensures { IfOk result (λ loaded. AreLoaded kept_in (length stores.items) defaults stores.items loaded.items) }
{
    match load_nodes(alloc, stores, defaults) {
        Ok(loaded) => Ok(loaded),
        Err(fault) => Err(fault_of(fault)),
    }
}

/// The nodes that were loaded, in their next incarnations, and their lives. Store tells of the first that has none left, or whose device failed.
pub(crate) fn begin_all(
    alloc: Global,
    loaded: Vec<Loaded<NodeStore>>,
) -> Result<(Vec<Node<NodeStore>>, Vec<Life>), ServeFault>
    ensures { IfOk result (λ opened. BeginAJournal kept_in loaded.items opened.0.items) }
{
    match begin_nodes(alloc, loaded) {
        Ok(opened) => Ok(opened),
        Err(fault) => Err(fault_of(fault)),
    }
}

/// Why a server does not serve whose nodes do not open.
fn fault_of(fault: StartFault) -> ServeFault {
    match fault {
        StartFault::Open(node, fault) => ServeFault::Stores(StoresFault::Store(
            node.number(),
            fault,
        )),
        StartFault::Nodes | StartFault::Memory => ServeFault::Memory,
    }
}

/// Where the nodes listen, that of node 1 first. Listen tells of the first address that can't be listened on.
pub(crate) fn listen_all<R: Net<Listener = TcpListener, Stream = TcpStream>>(
    rt: &R,
    alloc: Global,
    nodes: &[NodeConfig],
) -> Result<Vec<Entrance>, ServeFault> {
    let mut entrances = Vec::with_capacity(alloc, nodes.len())?;
    for node in nodes {
        match listen_at(rt, alloc, node.listen) {
            Ok(entrance) => entrances.push(entrance)?,
            Err(error) => return Err(ServeFault::Listen(node.listen, error)),
        }
    }
    Ok(entrances)
}

/// Where the server tells of itself, if this address says it. Status tells that it can't be listened on.
pub(crate) fn open_status<R: Net<Listener = TcpListener, Stream = TcpStream>>(
    rt: &R,
    host: &HostRuntime,
    alloc: Global,
    address: Option<SocketAddrV4>,
) -> Result<Option<StatusDoor>, ServeFault> {
    let Some(address) = address else {
        return Ok(None);
    };
    match status_at(rt, host, alloc, address) {
        Ok(door) => Ok(Some(door)),
        Err(error) => Err(ServeFault::Status(address, error)),
    }
}

/// Where the server tells of itself, at this address.
fn status_at<R: Net<Listener = TcpListener, Stream = TcpStream>>(
    rt: &R,
    host: &HostRuntime,
    alloc: Global,
    address: SocketAddrV4,
) -> io::Result<StatusDoor> {
    Ok(StatusDoor {
        entrance: listen_at(rt, alloc, address)?,
        keys: RandomState::new(host)?,
    })
}

/// Where a node listens, at this address.
fn listen_at<R: Net<Listener = TcpListener, Stream = TcpStream>>(
    rt: &R,
    alloc: Global,
    address: SocketAddrV4,
) -> io::Result<Entrance> {
    let listener = TcpListener::bind(rt, SocketAddr::from(address))?;
    Entrance::open(rt, alloc, listener)
}
