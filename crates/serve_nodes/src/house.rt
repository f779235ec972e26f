//! What stays of a server through all parts of its journal.

use crate::doors::StatusDoor;
use crate::ending::{End, Ending};
use crate::pace::Pace;
use crate::station::{Station, Wake};
use crate::stop::Stop;
use config::{Config, Own};
use connection_parts::{Tally, Timepiece};
use mc_types::{Moment, NodeNo};
use pdu_codec::SystemId;
use serve_sessions::{Log, Notice, Reason, VisibleText, milliseconds, milliseconds_since};
use status_page::Status;
use std::alloc::{AllocError, Global};
use std::rt::Clock;
use std::sync::atomic::{AtomicBool, AtomicU64, Ordering};
use std::sync::{Arc, Mutex, Wait};
use std::thread;
use std::time::{Duration, Instant};
use waiting_messages::Spread;

/// What stays of a server through all parts of its journal: what it is run by, and its nodes with their sessions.
#[derive(Drop)]
pub struct House {
    pub alloc: Global,
    pub config: Config,
    pub own: Own,
    pub stations: Vec<Station>,
    pub log: Log,
    pub end: End,
    /// What it is asked to end by, which wakes the thread that watches it.
    pub stop: Arc<Stop>,
    pub counters: Counters,
    pub pace: Pace,
    /// Where it tells of itself, if anywhere.
    pub status_door: Option<StatusDoor>,
    /// When it began, by the clock that rises alone; none if that can't be read.
    pub begun: Option<Instant>,
    pub timepiece: Mutex<Timepiece>,
}

/// How long what waits on sessions goes out once the server ended between two parts, in milliseconds.
const LAST_PAUSE: u64 = 200;

/// What is counted of all nodes.
#[derive(Drop)]
pub struct Counters {
    /// How many connections there were.
    connections: AtomicU64,
    /// How many sessions have ended.
    ended: AtomicU64,
    /// The greatest number of a packet that nodes were told of.
    newest: AtomicU64,
    /// When counts were told, in milliseconds since the server began.
    told: AtomicU64,
    /// How often there was no memory for what was asked for, since that was told.
    wants: AtomicU64,
    /// How often it was told that there was none.
    told_wants: AtomicU64,
    /// How many ask what the server tells of itself.
    asking: AtomicU64,
    /// Whether it was told that all nodes may be served.
    serves: AtomicBool,
    /// How many parts of the journal were closed, the entries of the last one and of all, and the final states that were told before it.
    parts: AtomicU64,
    entries: AtomicU64,
    all_entries: AtomicU64,
    fates: AtomicU64,
}

impl Counters {
    /// None yet.
    pub fn none() -> Counters {
        Counters {
            connections: AtomicU64::new(0),
            ended: AtomicU64::new(0),
            newest: AtomicU64::new(0),
            told: AtomicU64::new(0),
            wants: AtomicU64::new(0),
            told_wants: AtomicU64::new(0),
            asking: AtomicU64::new(0),
            serves: AtomicBool::new(false),
            parts: AtomicU64::new(0),
            entries: AtomicU64::new(0),
            all_entries: AtomicU64::new(0),
            fates: AtomicU64::new(0),
        }
    }

    /// The number of another connection, which no other has.
    pub fn next_connection(&self) -> u64 {
        self.connections.fetch_add(1, Ordering::SeqCst)
    }

    /// Whether counts were told so many milliseconds ago or more, at this moment, in milliseconds since the server began: they are told now then.
    pub fn are_due(&self, now: u64, gap: u64) -> bool {
        let is_due = now >= self.told.load(Ordering::SeqCst).saturating_add(gap);
        if is_due {
            self.told.store(now, Ordering::SeqCst);
        }
        is_due
    }

    /// Another part of the journal was closed, with so many entries.
    pub fn close_part(&self, entries: u64) {
        let _ = self.parts.fetch_add(1, Ordering::SeqCst);
        self.entries.store(entries, Ordering::SeqCst);
        let _ = self.all_entries.fetch_add(entries, Ordering::SeqCst);
    }

    /// How many parts of the journal were closed.
    pub fn parts(&self) -> u64 {
        self.parts.load(Ordering::SeqCst)
    }

    /// How many entries they have together.
    pub fn all_entries(&self) -> u64 {
        self.all_entries.load(Ordering::SeqCst)
    }

    /// Somebody asks what the server tells of itself; false, and nobody does, if so many do already.
    pub fn begin_asking(&self, most: u64) -> bool {
        let is_let_in = self.asking.fetch_add(1, Ordering::SeqCst) < most;
        if !is_let_in {
            self.end_asking();
        }
        is_let_in
    }

    /// One who asked is through.
    pub fn end_asking(&self) {
        let _ = self.asking.fetch_sub(1, Ordering::SeqCst);
    }

    /// Another session has ended: how many have.
    fn count_end(&self) -> u64 {
        self.ended.fetch_add(1, Ordering::SeqCst).saturating_add(1)
    }
}

impl House {
    /// Why the server ends.
    pub fn ending<R: Wait>(&self, rt: &R) -> Ending {
        self.end.get(rt).unwrap_or(Ending::Asked)
    }

    /// Whether the server ends.
    pub fn is_over<R: Wait>(&self, rt: &R) -> bool {
        self.end.get(rt).is_some()
    }

    /// The server ends for this reason, if it does not for another: all that wait wake.
    pub fn end_by<R: Wait>(&self, rt: &R, ending: Ending) {
        self.end.set(rt, ending);
        self.rouse();
        for station in &self.stations {
            station.entrance.wake();
        }
        if let Some(door) = &self.status_door {
            door.entrance.wake();
        }
    }

    /// The threads that run nodes or watch the server wake, and those in which nodes tick.
    fn rouse(&self) {
        self.stop.signal.ring();
        for station in &self.stations {
            station.rouse();
        }
    }

    /// A node may be served: the threads that wait for that wake.
    pub fn tell_nodes(&self) {
        for station in &self.stations {
            station.news.ring();
        }
    }

    /// The step with this number was taken, behind which so many packets had been sent before, and it sent so many more: it counts in the part of the journal,
    /// and the packets that it sent are handed in to all nodes.
    pub fn ring<R: Wait>(&self, rt: &R, number: u64, before: u64, sent: u64) {
        if self.pace.note(number) {
            self.stop.signal.ring();
        }
        if sent == 0 {
            return;
        }
        let newest = before.saturating_add(sent);
        let _ = self.counters.newest.fetch_max(newest, Ordering::SeqCst);
        for station in &self.stations {
            station.wake(rt, Wake::Sent(newest));
        }
    }

    /// A packet has come to the node of a station: who ticks there is woken if something is due behind it, and who waits for it with rounds.
    pub fn pass(&self, at: &Station, number: u64) {
        if at.bell.awaits(number) {
            at.bell.ring();
        }
        for station in &self.stations {
            if station.rounds.awaits(number) {
                station.bell.ring();
            }
        }
    }

    /// A message of this node for an account became due with this packet: where the account may receive, an attempt is begun at once. If it may at several nodes,
    /// one begins it, that of the message or the first behind it: else they would begin the same one at odds.
    pub fn call<R: Wait>(&self, rt: &R, home: NodeNo, target: &SystemId, number: u64) {
        let first = usize::from(home.number()).saturating_sub(1);
        let behind = self.stations.iter().skip(first);
        for station in behind.chain(self.stations.iter().take(first)) {
            if station.site.lock(rt).is_up(target) {
                station.bell.call(number);
                return;
            }
        }
    }

    /// Which accounts are up at which nodes. It takes the locks of all sites, one after another. An `Err` is want of memory.
    pub fn spread<R: Wait>(&self, rt: &R) -> Result<Spread, AllocError> {
        let mut up = Vec::new(self.alloc);
        for station in &self.stations {
            let accounts = station.site.lock(rt).accounts_up()?;
            up.push(accounts)?;
        }
        Ok(Spread::of(up))
    }

    /// The greatest number of a packet that nodes were told of.
    pub fn newest(&self) -> u64 {
        self.counters.newest.load(Ordering::SeqCst)
    }

    /// How many packets have come to nodes, to each counted for itself.
    pub fn come(&self) -> u64 {
        let mut come = 0u64;
        for station in &self.stations {
            come = come.saturating_add(station.next.load(Ordering::SeqCst));
        }
        come
    }

    /// Whether each packet up to this number has come to all nodes.
    pub fn have_come(&self, newest: u64) -> bool {
        self.stations
            .iter()
            .all(|station| station.next.load(Ordering::SeqCst) > newest)
    }

    /// Whether each node below this one may be served.
    pub fn have_begun<R: Wait>(&self, rt: &R, node: NodeNo) -> bool {
        self.stations.iter().all(|station| station.node.number() >= node.number()
            || station.course_now(rt).serves())
    }

    /// Tells the operator that the centre serves, once all its nodes may be served for the first time.
    pub fn tell_serving<R: Wait + Eprint + Clock>(&self, rt: &R) {
        let may_serve = self
            .stations
            .iter()
            .all(|station| station.course_now(rt).serves());
        if !may_serve || self.counters.serves.swap(true, Ordering::SeqCst) {
            return;
        }
        let nodes = self.stations.len();
        let system_id = VisibleText(self.config.system_id.octets());
        let word = if nodes == 1 { "node" } else { "nodes" };
        self.log.must_tell(
            rt,
            format_args!("serving: system_id {system_id}, {nodes} {word}"),
        );
    }

    /// Tells the operator of a session.
    pub fn tell<R: Wait + Eprint + Clock>(&self, rt: &R, node: NodeNo, number: u8, notice: Notice) {
        let node = node.number();
        self.log
            .line(rt, format_args!("node {node} session {number}: {notice}"));
        drop(notice);
    }

    /// Another session has ended: after so many as the configuration says, the server ends.
    pub fn count_end<R: Wait>(&self, rt: &R) {
        let ended = self.counters.count_end();
        if self.config.stop_after > 0 && ended >= self.config.stop_after {
            self.end_by(rt, Ending::Asked);
        }
    }

    /// How many final states its nodes told.
    pub fn fates<R: Wait>(&self, rt: &R) -> u64 {
        let mut fates = 0u64;
        for station in &self.stations {
            fates = fates.saturating_add(station.site.lock(rt).tally.fates);
        }
        fates
    }

    /// The number of the first packet that some node was not handed.
    pub fn first_left(&self) -> u64 {
        let mut first = u64::MAX;
        for station in &self.stations {
            first = first.min(station.next.load(Ordering::SeqCst));
        }
        first
    }

    /// The threads of its nodes rest, once they are through with what they do.
    pub fn rest(&self) {
        self.pace.rest();
        self.rouse();
    }

    /// If the part of the journal has come so far, deliveries are waited for, and then the threads of the nodes rest.
    pub fn keep_pace<R: Wait>(&self, rt: &R) {
        if self.pace.presses() || (self.pace.holds() && !self.carries(rt)) {
            self.rest();
        }
    }

    /// The moment that the server goes by. It tells the operator if the clock of the system has stepped.
    pub fn now<R: Wait + Eprint + Clock>(&self, rt: &R) -> Moment {
        let steady = milliseconds_since(rt, &self.begun);
        let system = milliseconds(rt);
        let mut piece = self.timepiece.lock(rt);
        let has_stepped = piece.read(steady, system);
        let moment = piece.moment();
        drop(piece);
        if has_stepped {
            let (ours, theirs) = (u64::from(moment.seconds()), system / 1_000);
            self.log.must_tell(
                rt,
                format_args!(
                    "clock: the system's has stepped to {theirs}, and the server goes by {ours}; it follows in ten minutes if that stays so"
                ),
            );
        }
        moment
    }

    /// Whether a delivery is under way at some node.
    fn carries<R: Wait>(&self, rt: &R) -> bool {
        self.stations
            .iter()
            .any(|station| station.site.lock(rt).carries_some())
    }

    /// The server ends, if it did not yet, and so do the sessions that are left if it ended between two parts: what waits on them goes out for a moment, and
    /// then they are cut.
    pub fn end_all<R: Wait + Clock>(&self, rt: &R) {
        self.end_by(rt, Ending::Asked);
        if self
            .stations
            .iter()
            .all(|station| station.site.lock(rt).is_empty())
        {
            return;
        }
        for station in &self.stations {
            station.site.lock(rt).finish_all(rt);
        }
        thread::sleep(rt, Duration::from_millis(LAST_PAUSE));
        for station in &self.stations {
            station.site.lock(rt).lose_all(rt, Reason::CentreEnds);
        }
    }

    /// Tells the operator of the part of the journal that was closed last, and that the next one goes on at this moment, in milliseconds since 1970.
    pub fn tell_part<R: Wait + Eprint + Clock>(&self, rt: &R, now: u64) {
        let pause = now.saturating_sub(self.pace.stands_since());
        let cut = self.pace.go_on();
        let told = self.fates(rt);
        let fates = told.saturating_sub(self.counters.fates.swap(told, Ordering::SeqCst));
        let part = self.counters.parts.load(Ordering::SeqCst);
        let entries = self.counters.entries.load(Ordering::SeqCst);
        self.log.line(
            rt,
            format_args!(
                "part {part}: entries {entries}, final states told {fates}, deliveries cut short {cut}, closed in {pause} ms"
            ),
        );
    }

    /// There was no memory for what was asked for.
    pub fn want(&self) {
        let _ = self.counters.wants.fetch_add(1, Ordering::SeqCst);
    }

    /// Tells the operator how often there was no memory since this was told last, if that was so.
    pub fn tell_wants<R: Wait + Eprint + Clock>(&self, rt: &R) {
        let wants = self.counters.wants.swap(0, Ordering::SeqCst);
        let _ = self.counters.told_wants.fetch_add(wants, Ordering::SeqCst);
        if wants > 0 {
            self.log.must_tell(
                rt,
                format_args!("memory: {wants} times there was not enough for what was asked for"),
            );
        }
    }

    /// What the server tells of itself. It takes no lock that is held for long: of sites it has what stood there behind the last ticks. An `Err` is want of
    /// memory.
    pub fn status<R: Wait + Clock>(&self, rt: &R) -> Result<Status, AllocError> {
        let mut nodes = Vec::with_capacity(self.alloc, self.stations.len())?;
        for station in &self.stations {
            nodes.push(station.status(rt, self.config.first_serial))?;
        }
        let counters = &self.counters;
        let wants = counters.wants.load(Ordering::SeqCst);
        Ok(Status {
            serving: counters.serves.load(Ordering::SeqCst) && !self.is_over(rt),
            seconds: milliseconds_since(rt, &self.begun) / 1_000,
            connections: counters.connections.load(Ordering::SeqCst),
            ended: counters.ended.load(Ordering::SeqCst),
            packets: self.newest(),
            parts: counters.parts(),
            entries: self.pace.entries(),
            closed_entries: counters.all_entries(),
            wants: wants.saturating_add(counters.told_wants.load(Ordering::SeqCst)),
            nodes,
        })
    }

    /// Tells the operator what went on so far.
    pub fn tell_counts<R: Wait + Eprint + Clock>(&self, rt: &R) {
        let mut sum = Tally::zero();
        let mut sessions = 0usize;
        let mut waiting = 0usize;
        for station in &self.stations {
            let site = station.site.lock(rt);
            sum = sum.plus(site.tally);
            sessions = sessions.saturating_add(site.len());
            waiting = waiting.saturating_add(site.waiting());
        }
        let Tally {
            submits,
            deliveries,
            receipts,
            refused,
            ..
        } = sum;
        self.log.line(
            rt,
            format_args!(
                "counts: sessions {sessions}, submits {submits}, deliveries {deliveries}, receipts {receipts}, refused {refused}, waiting {waiting}"
            ),
        );
    }
}
