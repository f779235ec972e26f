//! The end of standard input, at which a server is asked to end.

use serve_runner::Stop;
use std::io::Read;
use std::rt::HostRuntime;
use std::sync::Arc;
use std::thread;
use std::thread::Threads;

/// What a server is asked to end by: the end of standard input, if it is to end with that. None if there is no memory for it, or no thread that reads.
pub fn ends_with_input<R: Threads>(
    rt: &R,
    host: &HostRuntime,
    is_until_end: bool,
) -> Option<Arc<Stop>> {
    let stop = Arc::new(host.alloc(), Stop::none()).ok()?;
    if is_until_end {
        let theirs = Arc::try_clone(&stop).ok()?;
        let mut input = host.stdin();
        let reading = thread::spawn(rt, move || {
            read_to_end(&mut input);
            theirs.ask();
        });
        let _ = reading.ok()?;
    }
    Some(stop)
}

/// Reads and drops what comes, until it ends or can't be read.
fn read_to_end<I: Read>(input: &mut I) {
    let mut octets = [0u8; 1024];
    for _ in 0..u64::MAX {
        match input.read(&mut octets) {
            Ok(0) | Err(_) => return,
            Ok(_) => {}
        }
    }
}
