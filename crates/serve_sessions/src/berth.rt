//! A worker's place on a connection, under its lock.

use crate::staffed_place::StaffedPlace;
use connection_parts::Job;
use esme_service::HeardPdu;
use std::sync::atomic::{AtomicBool, Ordering};
use std::sync::{Condvar, Mutex, Wait};

/// A worker's place on a connection, under its lock: who has a delivery gives it there, and who reads what the ESME answers tells it there.
#[derive(Drop)]
pub struct Berth {
    held: Mutex<StaffedPlace>,
    changed: Condvar,
}

impl Berth {
    /// A place whose worker is not there yet.
    pub(crate) fn free() -> Berth {
        Berth {
            held: Mutex::new(StaffedPlace::free()),
            changed: Condvar::new(),
        }
    }

    /// The worker of the place is there: it takes what is given, until it asks for a delivery and there is none.
    pub fn start<R: Wait>(&self, rt: &R) {
        self.held.lock(rt).staff();
    }

    /// Whether a delivery can be given to the worker of the place.
    pub(crate) fn is_free<R: Wait>(&self, rt: &R) -> bool {
        self.held.lock(rt).is_free()
    }

    /// Gives a delivery to the worker of the place, if it is there and free; whether it is given.
    pub(crate) fn give<R: Wait>(&self, rt: &R, job: Job) -> bool {
        let mut held = self.held.lock(rt);
        let is_given = held.give(job);
        drop(held);
        if is_given {
            self.changed.notify_all();
        }
        is_given
    }

    /// The next delivery that is given; it waits for one. None once the place is shut, or workers rest: the worker is not there any more then.
    pub(crate) fn next_job<R: Wait>(&self, rt: &R, rests: &AtomicBool) -> Option<Job> {
        let held = self.held.lock(rt);
        let mut held = self.changed.wait_while(rt, held, |held| {
            held.place.is_idle() && !rests.load(Ordering::SeqCst)
        });
        held.take()
    }

    /// Who waits looks again whether it has to.
    pub(crate) fn wake<R: Wait>(&self, rt: &R) {
        drop(self.held.lock(rt));
        self.changed.notify_all();
    }

    /// Whether the deliver_sm may go out now; an answer to it counts from then on.
    pub(crate) fn send<R: Wait>(&self, rt: &R) -> bool {
        self.held.lock(rt).place.send()
    }

    /// What the ESME answered to the deliver_sm that went out; it waits for that. None if it is given up.
    pub(crate) fn answered<R: Wait>(&self, rt: &R) -> Option<HeardPdu> {
        let held = self.held.lock(rt);
        let mut held = self.changed.wait_while(rt, held, |held| held.place.waits());
        held.place.told()
    }

    /// The ESME answered to what was pushed with this sequence_number.
    pub fn tell<R: Wait>(&self, rt: &R, sequence: u32, pdu: HeardPdu) {
        if self.held.lock(rt).place.answer(sequence, pdu) {
            self.changed.notify_all();
        }
    }

    /// What was pushed with this sequence_number gets no answer any more.
    pub fn give_up<R: Wait>(&self, rt: &R, sequence: u32) {
        if self.held.lock(rt).place.give_up(sequence) {
            self.changed.notify_all();
        }
    }

    /// What was pushed by the delivery of the place gets no answer any more; whether there is one that is not over.
    pub fn give_up_any<R: Wait>(&self, rt: &R) -> bool {
        let mut held = self.held.lock(rt);
        let Some(job) = held.place.job() else {
            return false;
        };
        let is_given_up = held.place.give_up(job.pushed.sequence());
        drop(held);
        self.changed.notify_all();
        is_given_up
    }

    /// The worker is through with its delivery: the place is free.
    pub fn end<R: Wait>(&self, rt: &R) {
        self.held.lock(rt).place.end();
    }

    /// No delivery is given any more, and nobody waits.
    pub(crate) fn shut<R: Wait>(&self, rt: &R) {
        self.held.lock(rt).place.shut();
        self.changed.notify_all();
    }
}
