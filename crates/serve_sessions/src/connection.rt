//! A connection with an ESME.

ghost use Rattle.std.specs.Prelude.{◌≡◌, ◌==◌, ◌+◌, ◌≤◌, ◌↔◌, IsTrue};

use crate::berth::Berth;
use crate::clock::milliseconds_since;
use crate::inbox::{Inbox, Next};
use crate::notice::{Name, Reason, Whom};
use crate::signal::Signal;
use config::Own;
use connection_parts::{Frame, Job, Outbox, Withdrawal};
use octet_io::CountedWriter;
use std::alloc::{AllocError, Global};
use std::io::ErrorKind;
use std::net::{Shutdown, SocketAddr, TcpStream};
use std::rt::Clock;
use std::sync::atomic::{AtomicBool, Ordering};
use std::sync::{Condvar, Mutex, Wait};
use std::time::{Duration, Instant};

/// How many deliveries of a connection are under way at most: as many as its window has places.
pub const WORKERS: usize = 10;

/// For how long it is waited that what waits on a connection goes out, once its session is over, in milliseconds.
const LAST_PATIENCE: u64 = 30_000;

/// For how long it is looked whether a stream stands on which a read failed, in milliseconds.
const PROBE: u64 = 1;

/// A stream to an ESME, from where it is, and for how many seconds a read and a write on it wait: 0 for ever.
#[derive(Drop)]
pub struct Wire {
    pub stream: TcpStream,
    pub address: SocketAddr,
    pub idle_seconds: u32,
    pub write_seconds: u32,
}

impl Wire {
    /// A stream from this address, by the limits of the configuration.
    pub fn of(stream: TcpStream, address: SocketAddr, own: &Own) -> Wire
        ensures idle { result.idle_seconds ≡ own.now.idle_seconds }
        ensures write { result.write_seconds ≡ own.now.write_seconds }
    {
        Wire {
            stream,
            address,
            idle_seconds: own.idle_seconds,
            write_seconds: own.write_seconds,
        }
    }
}

/// A connection with an ESME: its stream, what came and waits to be served, what waits to be written, and the places of its workers. Threads share it: who
/// reads and who writes from its begin to its end, who serves and the workers in each life of their node.
#[derive(Drop)]
pub struct Connection {
    /// Which of all connections it is: no other has its number, though a later session may have the number of its session.
    serial: u64,
    /// When it began, in seconds since 1970.
    begun: u32,
    pub(crate) wire: Wire,
    /// The account of its session, once somebody has bound.
    account: Mutex<Option<Name>>,
    inbox: Mutex<Inbox>,
    came: Condvar,
    outbox: Mutex<Outbox>,
    changed: Condvar,
    /// Whether nothing is written any more, and what wakes who waits for that.
    is_through: AtomicBool,
    through: Signal,
    berths: Vec<Berth>,
    /// Whether who serves and the workers rest, until the next life of their node.
    rests: AtomicBool,
    /// Whether somebody serves in this life of its node.
    is_attended: AtomicBool,
}

impl Connection {
    /// The connection of the session of a number, over this wire, on which nothing waits. An `Err` is want of memory.
    pub fn make(
        alloc: Global,
        number: u8,
        serial: u64,
        begun: u32,
        wire: Wire,
    ) -> Result<Connection, AllocError> {
        let mut berths = Vec::with_capacity(alloc, WORKERS)?;
        for _ in 0..WORKERS {
            berths.push(Berth::free())?;
        }
        Ok(Connection {
            serial,
            begun,
            wire,
            account: Mutex::new(None),
            inbox: Mutex::new(Inbox::make(alloc)?),
            came: Condvar::new(),
            outbox: Mutex::new(Outbox::make(alloc, number)?),
            changed: Condvar::new(),
            is_through: AtomicBool::new(false),
            through: Signal::silent(),
            berths,
            rests: AtomicBool::new(false),
            is_attended: AtomicBool::new(false),
        })
    }

    /// Whether it is that connection.
    pub fn is(&self, other: &Connection) -> bool
        ensures { result ≡ (self.now.serial == other.now.serial) }
    {
        self.serial == other.serial
    }

    /// Whether it began so many seconds before this moment, in seconds since 1970, or earlier.
    pub fn has_lasted(&self, seconds: u32, now: u32) -> bool
        ensures { IsTrue result ↔ (self.now.begun + seconds ≤ now) }
    {
        u64::from(self.begun) + u64::from(seconds) <= u64::from(now)
    }

    // Whose it is.

    /// Somebody has bound, for this account.
    pub fn bind<R: Wait>(&self, rt: &R, account: Name) {
        *self.account.lock(rt) = Some(account);
    }

    /// Whose session it is, and from where.
    pub fn whom<R: Wait>(&self, rt: &R) -> Whom {
        let account = *self.account.lock(rt);
        Whom {
            account,
            address: self.wire.address,
        }
    }

    // What comes.

    /// Waits until another PDU may be read; whether one may.
    pub(crate) fn may_read<R: Wait>(&self, rt: &R) -> bool {
        let inbox = self.inbox.lock(rt);
        let inbox = self.came.wait_while(rt, inbox, |inbox| !inbox.has_room());
        !inbox.is_shut()
    }

    /// The octets of a PDU came.
    pub(crate) fn take_in<R: Wait>(&self, rt: &R, frame: Vec<u8>) {
        self.inbox.lock(rt).put(frame);
        self.came.notify_all();
    }

    /// Nothing more comes, for this reason.
    pub(crate) fn end_input<R: Wait>(&self, rt: &R, reason: Reason) {
        self.inbox.lock(rt).end(reason);
        self.came.notify_all();
    }

    /// What comes next, for which it waits; Rest if that is to wait for the next life of the node.
    pub fn next<R: Wait>(&self, rt: &R) -> Next {
        let inbox = self.inbox.lock(rt);
        let mut inbox = self
            .came
            .wait_while(rt, inbox, |inbox| inbox.is_idle() && !self.is_resting());
        if self.is_resting() {
            return Next::Rest;
        }
        let next = inbox.next();
        drop(inbox);
        self.came.notify_all();
        next
    }

    /// Why a read failed: if it may not wait for ever, the stream stands, and nothing has come since, it waited for too long.
    pub(crate) fn read_failure(&self) -> Reason {
        if self.wire.idle_seconds == 0 {
            return Reason::Failed;
        }
        let stream = &self.wire.stream;
        let _ = stream.set_read_timeout(Some(Duration::from_millis(PROBE)));
        match stream.peek(&mut [0]) {
            Err(error)
                if error.kind() == ErrorKind::WouldBlock || error.kind() == ErrorKind::TimedOut => {
                Reason::Idle
            }
            _ => Reason::Failed,
        }
    }

    /// Who reads reads its end; what waits to be written goes out.
    pub fn stop_reading(&self) {
        let _ = self.wire.stream.shutdown(Shutdown::Read);
    }

    // What goes out.

    /// The deliver_sm of an attempt that is given up does not go out any more: it is taken back if it waits. If it is being written, the connection is lost:
    /// who takes nothing for so long gets no more of it. Whether it was taken back.
    pub fn take_back<R: Wait>(&self, rt: &R, sequence: u32) -> bool {
        let withdrawal = self.outbox.lock(rt).take_back(sequence);
        self.changed.notify_all();
        if withdrawal == Withdrawal::UnderWay {
            self.lose(rt, Reason::Deaf);
        }
        withdrawal == Withdrawal::Withdrawn
    }

    /// A frame of its session is to go out, behind those that wait; the deliver_sm of an attempt may be taken back. If too many wait, the connection is lost.
    /// One of another session does not go out.
    pub fn post<R: Wait>(&self, rt: &R, frame: Frame) {
        let (is_put, is_shut) = {
            let mut outbox = self.outbox.lock(rt);
            (outbox.put(frame), outbox.is_shut())
        };
        self.changed.notify_all();
        if !is_put && !is_shut {
            self.lose(rt, Reason::Crowded);
        }
    }

    /// Waits until so few PDUs wait to be written that the next one of the ESME may be served, or that is to wait for the next life of the node.
    pub fn wait_to_serve<R: Wait>(&self, rt: &R) {
        let outbox = self.outbox.lock(rt);
        drop(
            self.changed.wait_while(rt, outbox, |outbox| {
                !outbox.has_room() && !self.is_resting()
            }),
        );
    }

    /// Writes what waits, and waits for more, until nothing is to come any more. A write that fails loses the connection.
    pub fn write_all<R: Wait + Clock>(&self, rt: &R) {
        let mut writer = CountedWriter::make(&self.wire.stream);
        for _ in rt.forever() {
            let Some(frame) = self.next_frame(rt) else {
                break;
            };
            let begun = Instant::now(rt).ok();
            if writer.write_all(frame.octets()).is_err() {
                self.lose(rt, self.write_failure(rt, &begun));
            }
        }
        let _ = self.wire.stream.shutdown(Shutdown::Both);
        self.is_through.store(true, Ordering::SeqCst);
        self.through.ring();
    }

    /// Why a write failed that began then: it waited for too long, if it may not wait for ever and waited for as long as it may.
    fn write_failure<R: Clock>(&self, rt: &R, begun: &Option<Instant>) -> Reason {
        let most = u64::from(self.wire.write_seconds).saturating_mul(1_000);
        if most > 0 && milliseconds_since(rt, begun) >= most {
            Reason::Deaf
        } else {
            Reason::Failed
        }
    }

    /// Waits until the session is over and what waited has gone out. What did not 30 seconds after its end is dropped, whatever the limit of a write: else an
    /// ESME that takes nothing would keep a thread for each session that it had.
    pub(crate) fn see_off<R: Wait + Clock>(&self, rt: &R) {
        let outbox = self.outbox.lock(rt);
        drop(
            self.changed
                .wait_while(rt, outbox, |outbox| !outbox.is_shut()),
        );
        let is_through = self.through.wait_until(
            rt,
            LAST_PATIENCE,
            &|| self.is_through.load(Ordering::SeqCst),
        );
        if !is_through {
            self.lose(rt, Reason::Deaf);
        }
    }

    /// The next PDU to be written, for which it waits; none once nothing is to come any more. The one before it is written.
    fn next_frame<R: Wait>(&self, rt: &R) -> Option<Frame> {
        let mut outbox = self.outbox.lock(rt);
        outbox.written();
        let mut outbox = self
            .changed
            .wait_while(rt, outbox, |outbox| outbox.is_idle());
        let frame = outbox.take();
        drop(outbox);
        self.changed.notify_all();
        frame
    }

    // Its end, and its rest.

    /// Nothing more is to be served, nor to be written but what waits, and no worker delivers on it any more. Who reads reads its end.
    pub fn finish<R: Wait>(&self, rt: &R) {
        self.inbox.lock(rt).cut();
        self.came.notify_all();
        self.outbox.lock(rt).shut();
        self.changed.notify_all();
        self.shut_berths(rt);
        self.stop_reading();
    }

    /// The connection is lost, for this reason, if it has not ended: what waits to be written is dropped, and nothing more comes.
    pub fn lose<R: Wait>(&self, rt: &R, reason: Reason) {
        self.end_input(rt, reason);
        self.outbox.lock(rt).cut();
        self.changed.notify_all();
        self.shut_berths(rt);
        let _ = self.wire.stream.shutdown(Shutdown::Both);
    }

    /// Who serves and the workers are to rest, once they are through with what they do.
    pub fn rest<R: Wait>(&self, rt: &R) {
        self.rests.store(true, Ordering::SeqCst);
        drop(self.inbox.lock(rt));
        self.came.notify_all();
        drop(self.outbox.lock(rt));
        self.changed.notify_all();
        for berth in &self.berths {
            berth.wake(rt);
        }
    }

    /// Another life of the node begins, in which nobody serves yet.
    pub fn go_on(&self) {
        self.rests.store(false, Ordering::SeqCst);
        self.is_attended.store(false, Ordering::SeqCst);
    }

    /// Somebody is to serve, if nobody does yet; whether that is so.
    pub fn begin_attending(&self) -> bool {
        !self.is_attended.swap(true, Ordering::SeqCst)
    }

    /// Whether who serves and the workers rest.
    pub(crate) fn is_resting(&self) -> bool {
        self.rests.load(Ordering::SeqCst)
    }

    // Its workers.

    fn shut_berths<R: Wait>(&self, rt: &R) {
        for berth in &self.berths {
            berth.shut(rt);
        }
    }

    /// The place of a worker that is free; none if no one is.
    pub fn free_place<R: Wait>(&self, rt: &R) -> Option<usize> {
        self.berths.iter().position(|berth| berth.is_free(rt))
    }

    /// Gives a delivery to the worker of a place, if it is free; whether it is given.
    pub fn give<R: Wait>(&self, rt: &R, place: usize, job: Job) -> bool {
        self.berth(place).is_some_and(|berth| berth.give(rt, job))
    }

    /// The next delivery for the worker of a place of this number; it waits for one. None if the place is shut, or the worker is to rest.
    pub fn next_job<R: Wait>(&self, rt: &R, place: usize) -> Option<Job> {
        self.berth(place)?.next_job(rt, &self.rests)
    }

    /// The worker's place of this number, below 10.
    pub fn berth(&self, place: usize) -> Option<&Berth> {
        self.berths.get(place)
    }
}
