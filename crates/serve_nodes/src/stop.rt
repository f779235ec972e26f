//! What a server is asked to end by.

use serve_sessions::Signal;
use std::sync::atomic::{AtomicBool, Ordering};

/// What a server is asked to end by, from any thread, also before it begins.
#[derive(Drop)]
pub struct Stop {
    is_asked: AtomicBool,
    // What the thread waits on that watches the server.
    pub signal: Signal,
}

impl Stop {
    /// It is not asked.
    pub fn none() -> Stop {
        Stop {
            is_asked: AtomicBool::new(false),
            signal: Signal::silent(),
        }
    }

    /// The server is to end, with `Ending::Asked`, unless it ends for another reason. It does not wait for that.
    pub fn ask(&self) {
        self.is_asked.store(true, Ordering::SeqCst);
        self.signal.ring();
    }

    /// Whether it is asked.
    pub fn is_asked(&self) -> bool {
        self.is_asked.load(Ordering::SeqCst)
    }
}
