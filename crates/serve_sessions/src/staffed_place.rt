//! A worker's place on a connection, and whether its worker is there.

ghost use Rattle.std.specs.Prelude.{◌≡◌, false, true};
ghost use Rattle.connection_parts.specs.Places as places;
ghost use Rattle.serve_sessions.specs.StaffedPlaces.{given, is_free, taken};

use connection_parts::{Job, Place};

/// A place, and whether its worker is there: a delivery that nobody takes would be under way for ever.
#[derive(Drop)]
pub(crate) struct StaffedPlace {
    pub(crate) place: Place,
    has_worker: bool,
}

impl StaffedPlace {
    /// A free place whose worker is not there yet.
    pub(crate) fn free() -> StaffedPlace
        ensures { result ≡ record { place = places.free; has_worker = false } }
    {
        StaffedPlace {
            place: Place::free(),
            has_worker: false,
        }
    }

    /// Its worker is there.
    pub(crate) fn staff(&mut self)
        ensures { self.new ≡ record self.old { has_worker = true } }
    {
        self.has_worker = true;
    }

    /// Whether a delivery can be given.
    pub(crate) fn is_free(&self) -> bool
        ensures { result ≡ is_free self.now }
    {
        self.has_worker && self.place.is_free()
    }

    /// Gives a delivery to its worker. False, and nothing changes, if the worker is not there, or the place is not free.
    pub(crate) fn give(&mut self, job: Job) -> bool
        ensures given { result ≡ is_free self.old }
        ensures after { self.new ≡ given self.old job }
    {
        self.has_worker && self.place.give(job)
    }

    /// The worker takes the delivery that is given. If there is none, it is not there any more.
    pub(crate) fn take(&mut self) -> Option<Job>
        ensures job { result ≡ places.job_given self.old.place.step }
        ensures after { self.new ≡ taken self.old }
    {
        let job = self.place.take();
        self.has_worker = job.is_some();
        job
    }
}
