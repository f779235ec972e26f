//! What the threads of a node share in one of its lives.

ghost use Rattle.std.specs.Prelude.{◌≡◌};

use crate::shared::Shared;
use crate::trouble::Trouble;
use mc_types::{MsgId, NodeNo};
use node_workers::{Attempt, Begins, Life, Seat, Slip};
use serve_nodes::{Ending, House, Need, Site, Station};
use serve_sessions::{Notice, Whom};
use stable_store::GroupStore;
use std::alloc::AllocError;
use std::rt::Clock;
use std::sync::Wait;

/// How many messages a tick looks at that may be granted, while a look is under way.
pub(crate) const FEW_LOOKS: usize = 1_000;

/// More than a node has messages.
pub(crate) const ALL_LOOKS: usize = usize::MAX;

/// What the threads of a node share in one of its lives.
#[derive(Drop)]
pub(crate) struct Shift<'a, S: GroupStore, L: Begins, R> {
    pub(crate) rt: &'a R,
    pub(crate) shared: &'a Shared<S, L>,
    pub(crate) station: &'a Station,
    pub(crate) life: &'a Life,
}

impl<S: GroupStore, L: Begins, R: Wait + Eprint + Clock> Shift<'_, S, L, R> {
    /// The node.
    pub(crate) fn node(&self) -> NodeNo
        ensures { result ≡ self.now.station.now.node }
    {
        self.station.node
    }

    /// Whether the life is over, or rests: the node is to start anew, the part of the journal is closed, or the server ends.
    pub(crate) fn is_over(&self) -> bool {
        let house = &self.shared.house;
        self.station.course_now(self.rt).wanted().is_some()
            || house.pace.rests()
            || house.is_over(self.rt)
    }

    /// Whether no delivery is to be begun.
    pub(crate) fn holds(&self) -> bool {
        let house = &self.shared.house;
        house.pace.holds() || self.is_over()
    }

    /// Whether the node has few serials left.
    pub(crate) fn has_few_serials(&self) -> bool {
        let first = self.shared.house.config.first_serial;
        self.shared.house.pace.goes_on() && self.station.course_now(self.rt).has_few_serials(first)
    }

    /// What follows from a refusal of the cluster.
    pub(crate) fn meet(&self, trouble: Trouble) {
        match trouble {
            Trouble::Full if self.shared.house.pace.goes_on() => self.shared.house.rest(),
            Trouble::Full => self.shared.house.end_by(self.rt, Ending::Full),
            Trouble::Store => self.station.need(self.rt, Need::Store),
            Trouble::Memory => self.shared.house.want(),
            Trouble::Nothing => {}
        }
    }

    /// Tells the operator of a session, and whose it is.
    pub(crate) fn tell(&self, number: u8, notice: Notice) {
        let whom = self.station.site.lock(self.rt).whom(self.rt, number);
        self.tell_of(number, notice, whom);
    }

    /// Tells the operator of a session, and that it is theirs, if there is one.
    pub(crate) fn tell_of(&self, number: u8, notice: Notice, whom: Option<Whom>) {
        let house = &self.shared.house;
        let Some(whom) = whom else {
            house.tell(self.rt, self.station.node, number, notice);
            return;
        };
        let node = self.station.node.number();
        house.log.line(
            self.rt,
            format_args!("node {node} session {number}: {notice}; {whom}"),
        );
        drop(notice);
    }

    /// Tells the operator of the node.
    pub(crate) fn tell_node(&self, what: &str) {
        let node = self.station.node.number();
        let log = &self.shared.house.log;
        log.line(self.rt, format_args!("node {node}: {what}"));
    }

    /// A seat for a thread. None if there is no memory, or none is left.
    pub(crate) fn seat(&self) -> Option<Seat<L>> {
        self.shared.seats.take(self.rt, &self.shared.cluster)
    }

    /// The seat of a thread that ends.
    pub(crate) fn give_back(&self, seat: Seat<L>) {
        self.shared.seats.give_back(self.rt, seat);
    }

    /// Has the workers of a node deliver what waits there, unless deliveries are held back. A refusal is told.
    pub(crate) fn feed(&self, site: &mut Site) -> Result<(), Trouble> {
        if self.holds() {
            return Ok(());
        }
        site.lanes.tidy();
        for place in 0..site.lanes.len() {
            self.feed_lane(site, place)?;
        }
        Ok(())
    }

    /// Has workers deliver what waits for the account of a session. A refusal is told.
    pub(crate) fn feed_session(&self, site: &mut Site, number: u8) -> Result<(), Trouble> {
        let place = site.lane_of(number);
        self.feed_at(site, place)
    }

    /// Has workers deliver what waits in a lane, if it is one, unless deliveries are held back. A refusal is told.
    pub(crate) fn feed_at(&self, site: &mut Site, place: Option<usize>) -> Result<(), Trouble> {
        match place {
            Some(place) if !self.holds() => self.feed_lane(site, place),
            _ => Ok(()),
        }
    }

    /// Has workers deliver what waits in a lane, what came first before the others, up to the first message of each kind for which no worker is free.
    fn feed_lane(&self, site: &mut Site, place: usize) -> Result<(), Trouble> {
        for _ in 0..ALL_LOOKS {
            let long = site.lanes.begins_long(place);
            if !self.feed_front(site, place, long)? && !self.feed_front(site, place, !long)? {
                break;
            }
        }
        Ok(())
    }

    /// Has a worker deliver the first message of a kind in a lane; whether it waits no more.
    fn feed_front(&self, site: &mut Site, place: usize, long: bool) -> Result<bool, Trouble> {
        let Some(id) = site.lanes.first(place, long) else {
            return Ok(false);
        };
        if !self.need_not_wait(site, id)? {
            return Ok(false);
        }
        site.lanes.take_off(place, long);
        Ok(true)
    }

    /// Has a worker deliver a message that waits; whether it need not wait any more, since one does, or since it is not to be delivered now.
    fn need_not_wait(&self, site: &mut Site, id: MsgId) -> Result<bool, Trouble> {
        if site.carries(id) {
            return Ok(true);
        }
        match self.shared.cluster.attempt(self.rt, self.node(), id)? {
            Some(attempt) => Ok(site.deliver(
                self.rt,
                attempt.slot,
                &attempt.account,
                attempt.long,
            )?),
            None => Ok(true),
        }
    }

    /// An attempt may have been chosen for a message: if it may be granted, a worker delivers it, or it waits for one.
    pub(crate) fn hear_of(&self, site: &mut Site, id: MsgId) -> Result<(), Trouble> {
        if site.sees_to(id) {
            return Ok(());
        }
        let Some(attempt) = self.shared.cluster.attempt(self.rt, self.node(), id)? else {
            return Ok(());
        };
        if self.holds() || site.lanes.holds(&attempt.account, attempt.long) {
            keep(site, attempt)?;
            return Ok(());
        }
        self.offer(site, attempt)
    }

    /// Has a worker deliver an attempt that may be granted, if none of its kind waits for its account, behind those of the other kind; it waits if none is free.
    fn offer(&self, site: &mut Site, attempt: Attempt) -> Result<(), Trouble> {
        if site.lanes.holds(&attempt.account, !attempt.long) {
            let place = site.lanes.place_of(&attempt.account);
            keep(site, attempt)?;
            return self.feed_at(site, place);
        }
        if !site.deliver(self.rt, attempt.slot, &attempt.account, attempt.long)? {
            keep(site, attempt)?;
        }
        Ok(())
    }

    /// Looks for messages that may be granted and that do not wait, from where the last look stopped, or from the first one on. It looks at so many messages at
    /// most, up to the last one. A refusal is told, and the look goes on behind it later.
    pub(crate) fn look(&self, site: &mut Site, most: usize) -> Result<(), Trouble> {
        for _ in 0..most {
            if !self.look_at_one(site)? {
                break;
            }
        }
        Ok(())
    }

    /// Hears of the next message that may be granted. `false` if none is left: the look is over.
    fn look_at_one(&self, site: &mut Site) -> Result<bool, Trouble> {
        let cluster = &self.shared.cluster;
        let Some(id) = cluster.grantable_after(self.rt, self.node(), site.fed())? else {
            site.feed_from(None);
            return Ok(false);
        };
        site.feed_from(Some(id));
        self.hear_of(site, id)?;
        Ok(true)
    }
}

/// An attempt that may be granted waits for a worker. An `Err` is want of memory.
fn keep(site: &mut Site, attempt: Attempt) -> Result<(), AllocError> {
    let Attempt {
        slot,
        account,
        long,
    } = attempt;
    site.keep(slot.id, account, long)
}

/// A step was taken: it counts in the part of the journal, and the packets that it sent are handed in to all nodes.
pub(crate) fn ring<R: Wait>(rt: &R, house: &House, slip: &Slip) {
    let sent = slip.outputs().packets.len() as u64;
    house.ring(rt, slip.number(), slip.packets_before(), sent);
}
