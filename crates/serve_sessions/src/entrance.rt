//! Where a node listens.

use mio::unix::SourceFd;
use mio::{Events, Interest, Poll, Token, Waker};
use std::alloc::Global;
use std::io;
use std::net::{Net, SocketAddr, TcpListener, TcpStream};
use std::os::fd::AsRawFd;
use std::sync::{Mutex, Wait};

/// Under which number it is told that somebody connects.
const KNOCKS: Token = Token(0);

/// Under which number it is told that the thread that listens is to wake.
const WAKES: Token = Token(1);

/// How many of these are told at a time.
const MOST_EVENTS: usize = 2;

/// Where a node listens: who connects there is let in by one thread, which sleeps until somebody does, or until it is woken.
#[derive(Drop)]
pub struct Entrance {
    listener: TcpListener,
    asleep: Mutex<Sleep>,
    waker: Waker,
}

/// What the thread that listens sleeps by.
#[derive(Drop)]
struct Sleep {
    poll: Poll,
    events: Events,
}

impl Entrance {
    /// Where this listener is. An `Err` is that of the system, as that too many files are open, or OutOfMemory.
    pub fn open<N: Net>(net: &N, alloc: Global, listener: TcpListener) -> io::Result<Entrance> {
        listener.set_nonblocking(true)?;
        let poll = Poll::new(net)?;
        let waker = Waker::new(poll.registry(), WAKES)?;
        let file = listener.as_raw_fd();
        poll.registry()
            .register(&mut SourceFd(&file), KNOCKS, Interest::READABLE)?;
        let events = Events::with_capacity(alloc, MOST_EVENTS)?;
        Ok(Entrance {
            listener,
            asleep: Mutex::new(Sleep { poll, events }),
            waker,
        })
    }

    /// Who has connected, and from where. WouldBlock if nobody has that was not let in.
    pub fn let_in(&self) -> io::Result<(TcpStream, SocketAddr)> {
        self.listener.accept()
    }

    /// Sleeps until somebody connects behind the last time that nobody had, or until it is woken.
    pub fn sleep<R: Wait>(&self, rt: &R) -> io::Result<()> {
        let mut asleep = self.asleep.lock(rt);
        let Sleep { poll, events } = &mut *asleep;
        poll.poll(events, None)
    }

    /// The thread that listens wakes, if it sleeps, and else does not sleep the next time.
    pub fn wake(&self) {
        let _ = self.waker.wake();
    }
}
