//! The seats of the server's threads.

use node_workers::{Begins, Cluster, Seat};
use stable_store::GroupStore;
use std::alloc::Global;
use std::sync::{Mutex, Wait};

/// The seats that no thread has, and how many some have.
#[derive(Drop)]
struct Seats<L: Begins> {
    free: Vec<Seat<L>>,
    lent: usize,
}

/// The seats of the server's threads: each takes one as it begins, and gives it back as it ends.
#[derive(Drop)]
pub(crate) struct SeatPool<L: Begins> {
    seats: Mutex<Seats<L>>,
}

impl<L: Begins> SeatPool<L> {
    /// No seat.
    pub(crate) fn none(alloc: Global) -> SeatPool<L> {
        SeatPool {
            seats: Mutex::new(Seats {
                free: Vec::new(alloc),
                lent: 0,
            }),
        }
    }

    /// A seat of the cluster. There is room for it as it comes back. None if there is no memory, or no seat is left.
    pub(crate) fn take<S: GroupStore, R: Wait>(
        &self,
        rt: &R,
        cluster: &Cluster<S, L>,
    ) -> Option<Seat<L>> {
        let mut guard = self.seats.lock(rt);
        let seats = &mut *guard;
        let seat = match seats.free.pop() {
            Some(seat) => seat,
            None => new_seat(rt, cluster, seats)?,
        };
        seats.lent = seats.lent.saturating_add(1);
        Some(seat)
    }

    /// A seat comes back, in room that was made for it.
    pub(crate) fn give_back<R: Wait>(&self, rt: &R, seat: Seat<L>) {
        let mut guard = self.seats.lock(rt);
        let seats = &mut *guard;
        seats.lent = seats.lent.saturating_sub(1);
        let _ = seats.free.push(seat);
    }

    /// All seats, once no thread has one.
    pub(crate) fn into_seats(self) -> Vec<Seat<L>> {
        let SeatPool { seats } = self;
        let Seats { free, .. } = seats.into_inner();
        free
    }
}

/// Another seat of the cluster, with room for all as they come back.
fn new_seat<S: GroupStore, L: Begins, R: Wait>(
    rt: &R,
    cluster: &Cluster<S, L>,
    seats: &mut Seats<L>,
) -> Option<Seat<L>> {
    seats.free.reserve(seats.lent.saturating_add(1)).ok()?;
    cluster.seat(rt).ok()
}
