//! A node of the server, as its threads share it.

use crate::bell::Bell;
use crate::course::{Course, Need};
use crate::gauge::Gauge;
use crate::rounds::Rounds;
use crate::site::Site;
use crossbeam_channel::{Receiver, Sender};
use mc_types::NodeNo;
use node_core::Life;
use serve_sessions::{Entrance, Signal};
use status_page::NodeStatus;
use std::sync::atomic::{AtomicU64, Ordering};
use std::sync::{Mutex, Wait};

/// What wakes the thread that hands in a node's packets.
#[derive(Clone, Copy, Debug, PartialEq, Eq)]
pub enum Wake {
    /// Packets up to this number have been sent.
    Sent(u64),
    /// The node's life ends.
    End,
}

/// A node of the server, as its threads share it: where it listens, what stands at it under a lock, how its packets are told of, the number of the next packet
/// that it is handed, and how far it is.
#[derive(Drop)]
pub struct Station {
    pub node: NodeNo,
    pub entrance: Entrance,
    pub site: Mutex<Site>,
    pub wakes: Sender<Wake>,
    pub woken: Receiver<Wake>,
    pub next: AtomicU64,
    /// How far it is in its incarnation.
    pub course: Mutex<Course>,
    /// How far the rounds are that its last tick began.
    pub rounds: Rounds,
    /// What wakes the thread in which it ticks.
    pub bell: Bell,
    /// What wakes the thread that runs it: somebody connected, a session ended, a node may be served, or its life is over.
    pub news: Signal,
    /// Its life, unless its thread has it.
    pub life: Mutex<Option<Life>>,
    /// What is told of it.
    pub gauge: Gauge,
}

impl Station {
    /// How far it is in its incarnation, as it is now.
    pub fn course_now<R: Wait>(&self, rt: &R) -> Course {
        *self.course.lock(rt)
    }

    /// It is to start anew for this reason.
    pub fn need<R: Wait>(&self, rt: &R, need: Need) {
        self.course.lock(rt).need(need);
        self.rouse();
    }

    /// The thread that runs it wakes, and the one in which it ticks.
    pub fn rouse(&self) {
        self.news.ring();
        self.bell.ring();
    }

    /// What is told of it, whose incarnations begin with this serial.
    pub fn status<R: Wait>(&self, rt: &R, first_serial: u32) -> NodeStatus {
        let course = self.course_now(rt);
        NodeStatus {
            serving: course.serves(),
            serials_left: course.serials_left(first_serial),
            packets: self.next.load(Ordering::SeqCst).saturating_sub(1),
            ..self.gauge.status(rt)
        }
    }

    /// Wakes the thread that hands in its packets. If there is no memory for it, the next one that wakes it tells of these packets, too.
    pub fn wake<R: Wait>(&self, rt: &R, wake: Wake) {
        let _ = self.wakes.send(rt, wake);
    }
}
