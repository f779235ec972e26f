//! A worker's place on a connection.

ghost use Rattle.std.specs.Prelude.{◌≡◌};
ghost use Rattle.connection_parts.specs.Places as places;

use esme_service::{HeardPdu, PushedOn};
use mc_types::Slot;
use std::marker::Model;
use std::mem;

/// A delivery that a worker is to make: the slot of the attempt, where its deliver_sm was pushed, and whether its text is too long for a
/// short_message.
#[derive(Clone, Copy, Debug, PartialEq, Eq)]
pub struct Job {
    pub slot: Slot,
    pub pushed: PushedOn,
    pub long: bool,
}

/// How far a worker's delivery has come.
#[derive(Drop)]
enum Step {
    /// There is none.
    Free,
    /// The worker is to take it.
    Given(Job),
    /// The worker is to take it, but it is over already: it ends without an answer.
    Spoilt(Job),
    /// Its deliver_sm is not sent yet.
    Taken(Job),
    /// Its deliver_sm may have gone out, and is not answered yet.
    Sent(Job),
    /// It is over, with the answer of the ESME if there was one.
    Told(Option<HeardPdu>),
}

impl Step {
    /// The job that waits to be taken.
    fn given(&self) -> Option<Job>
        ensures { result ≡ places.job_given self.now }
    {
        match self {
            Step::Given(job) | Step::Spoilt(job) => Some(*job),
            _ => None,
        }
    }

    /// The job that is not over.
    fn job(&self) -> Option<Job>
        ensures { result ≡ places.job_of self.now }
    {
        match self {
            Step::Given(job) | Step::Taken(job) | Step::Sent(job) => Some(*job),
            Step::Free | Step::Spoilt(_) | Step::Told(_) => None,
        }
    }

    /// The step once its job is over with this answer: one that is not taken yet is taken first.
    fn over(&self, answer: Option<HeardPdu>) -> Step
        ensures { result ≡ places.over self.now answer }
    {
        if let Step::Given(job) = self {
            drop(answer);
            return Step::Spoilt(*job);
        }
        Step::Told(answer)
    }

    /// Whether the job that is not over has this sequence_number.
    fn has(&self, sequence: u32) -> bool
        ensures { result ≡ places.has self.now sequence }
    {
        self.job()
            .is_some_and(|job| job.pushed.sequence() == sequence)
    }
}

/// A worker's place on a connection: free, or the one delivery that it makes. It may be shut.
///
/// A worker has one delivery at a time: the job is given to it, it takes the job, sends the deliver_sm, is told how that ended, and ends. An
/// answer counts only if the deliver_sm went out before.
#[derive(Drop)]
pub struct Place {
    step: Step,
    is_shut: bool,
}

impl Model for Place {
    ghost use Rattle.connection_parts.specs.Places.{Place};

    ghost Value = { Place };

    ghost view = { λ place. record { step = place.step; is_shut = place.is_shut } };
}

impl Place {
    /// The place goes on to a step. The step before is let go by a call, since the walk over what it holds is then made once.
    fn go(&mut self, step: Step)
        ensures { self.new ≡ record self.old { step = step } }
    {
        drop(mem::replace(&mut self.step, step));
    }

    /// A place that is free, and not shut.
    pub fn free() -> Place
        ensures { result ≡ places.free }
    {
        Place {
            step: Step::Free,
            is_shut: false,
        }
    }

    /// Whether a job can be given: the place is free, and not shut.
    pub fn is_free(&self) -> bool
        ensures { result ≡ places.is_free self.now }
    {
        matches!(self.step, Step::Free) && !self.is_shut
    }

    /// Gives a job. False, and nothing changes, if the place is not free, or shut.
    pub fn give(&mut self, job: Job) -> bool
        ensures given { result ≡ places.is_free self.old }
        ensures after { self.new ≡ places.given self.old job }
    {
        let is_free = self.is_free();
        if is_free {
            self.go(Step::Given(job));
        }
        is_free
    }

    /// Whether the worker has to wait: no job is given to it, and the place is not shut.
    pub fn is_idle(&self) -> bool
        ensures { result ≡ places.is_free self.now }
    {
        self.is_free()
    }

    /// The worker takes the job that is given to it; none, and nothing changes, if none is. One that is over already ends then, and its deliver_sm does not
    /// go out.
    pub fn take(&mut self) -> Option<Job>
        ensures job { result ≡ places.job_given self.old.step }
        ensures after { self.new ≡ places.taken self.old }
    {
        let given = self.step.given()?;
        let step = match self.step {
            Step::Given(job) => Step::Taken(job),
            _ => Step::Told(None),
        };
        self.go(step);
        Some(given)
    }

    /// Whether the deliver_sm may go out: the job is taken, and the place is not shut. Then it counts as sent; else nothing changes.
    pub fn send(&mut self) -> bool
        ensures sent { result ≡ places.can_send self.old }
        ensures after { self.new ≡ places.sent self.old }
    {
        if self.is_shut {
            return false;
        }
        let Step::Taken(job) = self.step else {
            return false;
        };
        self.go(Step::Sent(job));
        true
    }

    /// Whether who delivers has to wait: the deliver_sm is sent and not answered, and the place is not shut.
    pub fn waits(&self) -> bool
        ensures { result ≡ places.waits self.now }
    {
        matches!(self.step, Step::Sent(_)) && !self.is_shut
    }

    /// An answer came with this sequence_number. It concludes a job that has this number: with the PDU, if the deliver_sm was sent; else without
    /// it, since nothing can answer what was not sent. False, and nothing changes, if no such job is under way; the PDU is dropped then.
    pub fn answer(&mut self, sequence: u32, pdu: HeardPdu) -> bool
        ensures concluded { result ≡ places.has self.old.step sequence }
        ensures after { self.new ≡ places.answered self.old sequence pdu }
    {
        let is_concluded = self.step.has(sequence);
        let answer = matches!(self.step, Step::Sent(_)).then_some(pdu);
        if is_concluded {
            let step = self.step.over(answer);
            self.go(step);
        } else {
            drop(answer);
        }
        is_concluded
    }

    /// Nobody waits any more for the answer with this sequence_number: a job that has it ends without one. False, and nothing changes, if no such
    /// job is under way.
    pub fn give_up(&mut self, sequence: u32) -> bool
        ensures given_up { result ≡ places.has self.old.step sequence }
        ensures after { self.new ≡ places.given_up self.old sequence }
    {
        let is_given_up = self.step.has(sequence);
        if is_given_up {
            let step = self.step.over(None);
            self.go(step);
        }
        is_given_up
    }

    /// The job that is not over, if there is one.
    pub fn job(&self) -> Option<Job>
        ensures { result ≡ places.job_of self.now.step }
    {
        self.step.job()
    }

    /// The answer with which the job ended, which is given once; none if it ended without one, or has not ended.
    pub fn told(&mut self) -> Option<HeardPdu>
        ensures answer { result ≡ places.answer_of self.old.step }
        ensures after { self.new ≡ places.told self.old }
    {
        match &mut self.step {
            Step::Told(answer) => answer.take(),
            _ => None,
        }
    }

    /// The worker is through with its job: the place is free. If it is shut it stays so.
    pub fn end(&mut self)
        ensures { self.new ≡ places.ended self.old }
    {
        self.go(Step::Free);
    }

    /// Shuts the place: no job is given any more, and nobody waits. A job that is not over ends without an answer.
    pub fn shut(&mut self)
        ensures { self.new ≡ places.shut self.old }
    {
        self.is_shut = true;
        if self.step.job().is_some() {
            let step = self.step.over(None);
            self.go(step);
        }
    }

    /// Whether the place is shut.
    pub fn is_shut(&self) -> bool
        ensures { result ≡ self.now.is_shut }
    {
        self.is_shut
    }
}
