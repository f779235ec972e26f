//! Where a server of the tests is at home: its configuration in a file, and its stores.

use std::alloc::Global;
use std::fs;
use std::net::{Ipv4Addr, Net, SocketAddr, SocketAddrV4, TcpListener, TcpStream};
use std::process::Abort;
use std::rt::HostRuntime;

/// The configuration, and the files of both stores with their logs.
pub const CONFIG: &str = "serve_runner_tests.toml";

const STORES: [&str; 4] = [
    "serve_runner_tests_1.db",
    "serve_runner_tests_1.db-wal",
    "serve_runner_tests_2.db",
    "serve_runner_tests_2.db-wal",
];

/// Behind the nodes.
const ACCOUNTS: &str = "\
[[account]]
system_id = \"sme1\"
password = \"pw1\"
transmit = true
receive = true
[[account]]
system_id = \"sme2\"
password = \"pw2\"
transmit = true
receive = true
[[route]]
prefix = \"2\"
account = \"sme2\"
[[route]]
prefix = \"\"
account = \"sme1\"
";

/// Where the nodes listen, node 1 first.
pub type Addresses = [SocketAddr; 2];

/// A free port of this machine.
fn free_address<R: Abort + Net<Listener = TcpListener, Stream = TcpStream>>(rt: &R) -> SocketAddr {
    let listener = TcpListener::bind(rt, "127.0.0.1:0").expect(rt, "a port");
    listener.local_addr().expect(rt, "an address")
}

/// Two free ports of this machine.
pub fn addresses<R: Abort + Net<Listener = TcpListener, Stream = TcpStream>>(rt: &R) -> Addresses {
    [free_address(rt), free_address(rt)]
}

/// A server listens at these addresses, and not at 127.0.0.2 of this machine: their ports are free there.
pub fn assert_alone<R: Abort + Net<Listener = TcpListener, Stream = TcpStream>>(
    rt: &R,
    addresses: Addresses,
) {
    let elsewhere = Ipv4Addr::new(127, 0, 0, 2);
    for address in addresses {
        let other = SocketAddr::from(SocketAddrV4::new(elsewhere, address.port()));
        let listener = TcpListener::bind(rt, other).expect(rt, "a free port elsewhere");
        drop(listener);
    }
}

/// What an earlier run left is removed.
pub fn clear(host: &HostRuntime) {
    let _ = fs::remove_file(host, CONFIG);
    for path in STORES {
        let _ = fs::remove_file(host, path);
    }
}

/// Writes the configuration of two nodes over their stores, that listen here.
pub fn configure(rt: &impl Abort, host: &HostRuntime, alloc: Global, addresses: Addresses) {
    let [first, second] = addresses;
    let text = format!(in alloc;
        "system_id = \"CENTRE\"\ndefault_validity = 259200\n\
         [[node]]\nnumber = 1\nlisten = \"{first}\"\nstore = \"serve_runner_tests_1.db\"\n\
         [[node]]\nnumber = 2\nlisten = \"{second}\"\nstore = \"serve_runner_tests_2.db\"\n{ACCOUNTS}"
    );
    let text = text.expect(rt, "memory");
    fs::write(host, CONFIG, text.as_bytes()).expect(rt, "a file");
}
