//! A server that is served from a file twice, over the same stores.

use crate::client::Clients;
use crate::home::{Addresses, CONFIG, addresses, assert_alone, clear, configure};
use crate::plays::{FIRST, SECOND};
use serve_runner::{Options, Stop, serve_file};
use std::alloc::Global;
use std::net::{Net, TcpListener, TcpStream};
use std::process::Abort;
use std::rt::{Clock, Files, HostRuntime};
use std::sync::{Arc, Wait};
use std::thread;
use std::thread::Threads;

/// Clients do what these lines say, and the server listens at no other address.
fn talked<R: Abort + Clock + Net<Listener = TcpListener, Stream = TcpStream>>(
    rt: &R,
    alloc: Global,
    addresses: Addresses,
    lines: &str,
) {
    let mut clients = Clients::of(addresses);
    for line in lines.lines() {
        clients.play(rt, alloc, line);
    }
    drop(clients);
    assert_alone(rt, addresses);
}

/// Serves by the configuration in the file while clients do what these lines say, and asks the server to end. It ends well, and its journal has entries.
fn served<
    R: Threads
        + Wait
        + Clock
        + Eprint
        + Abort
        + Files
        + Net<Listener = TcpListener, Stream = TcpStream>
        + AllocGlobal
        + Sync,
>(rt: &R, host: &HostRuntime, addresses: Addresses, lines: &'static str) {
    let alloc = rt.alloc();
    let stop = Arc::new(alloc, Stop::none()).expect(rt, "memory");
    let theirs = Arc::try_clone(&stop).expect(rt, "a share");
    let options = Options {
        is_quiet: true,
        is_until_end: false,
    };
    let entries = thread::scope(thread::scope_env(), rt, move |scope| -> u64 {
        let clients = scope.spawn(move || {
            talked(rt, alloc, addresses, lines);
            stop.ask();
        });
        let ended = serve_file(rt, host, CONFIG, options, theirs);
        match clients {
            Ok(clients) => clients.join(rt),
            Err(_) => panic!(rt; "a thread"),
        }
        match ended {
            Ok(entries) => entries,
            Err(_) => panic!(rt; "it ends well"),
        }
    });
    assert!(rt; entries > 0);
}

#[test]
fn a_server_goes_on_over_its_files(rt: HostRuntime) {
    clear(&rt);
    let addresses = addresses(&rt);
    configure(&rt, &rt, rt.alloc(), addresses);
    served(&rt, &rt, addresses, FIRST);
    served(&rt, &rt, addresses, SECOND);
    clear(&rt);
}
