//! From when and up to when a message may be delivered.

ghost use Rattle.std.specs.Prelude.{◌≡◌, IfOk};

use mc_types::Moment;
use pdu_codec::Message;
use pdu_tables::Status;
use smpp_time::read_time;
use std::marker::Model;

/// From when and up to when a message may be delivered.
#[derive(Clone, Copy)]
pub(crate) struct Times {
    schedule: Moment,
    expiry: Moment,
}

impl Model for Times {
    ghost use Rattle.desk.specs.Times.{Times};

    ghost Value = { Times };

    ghost view = { λ times. record { schedule = times.schedule; expiry = times.expiry } };

    ghost inverse = { λ times. record { schedule = times.schedule; expiry = times.expiry } };
}

impl Times {
    ghost use Rattle.desk.specs.Times.{schedule_from, expiry_from, in_order, times_of, AreToCome};

    /// Those of a message that comes now, which is valid for so many seconds if it asks for nothing else; or the status
    /// that refuses them: a schedule or a validity that can't be read, an expiry that has come, a schedule that is not
    /// before the expiry.
    pub(crate) fn of(validity: u32, now: Moment, message: &Message) -> Result<Times, Status>
        ensures judged { result ≡ times_of validity now message.now }
        ensures to_come { IfOk result (λ times. AreToCome now times) }
    {
        let Ok(schedule) = read_time(message.schedule_delivery_time.octets(), now) else {
            return Err(Status::InvalidSchedule);
        };
        let Ok(expiry) = read_time(message.validity_period.octets(), now) else {
            return Err(Status::InvalidExpiry);
        };
        let schedule = schedule_from(now, schedule);
        let expiry = expiry_from(validity, schedule, expiry);
        Times { schedule, expiry }.in_order(now)
    }

    /// These, if they are to come.
    fn in_order(self, now: Moment) -> Result<Times, Status>
        ensures judged { result ≡ in_order now self }
        ensures to_come { IfOk result (λ times. AreToCome now times) }
    {
        if self.expiry <= now {
            return Err(Status::InvalidExpiry);
        }
        if self.expiry <= self.schedule {
            return Err(Status::InvalidSchedule);
        }
        Ok(self)
    }

    pub(crate) fn schedule(self) -> Moment
        ensures { result ≡ self.schedule }
    {
        self.schedule
    }

    pub(crate) fn expiry(self) -> Moment
        ensures { result ≡ self.expiry }
    {
        self.expiry
    }
}

ghost use Rattle.desk.specs.Times.{schedule_from, expiry_from};

/// Now, or the later moment that a schedule names.
fn schedule_from(now: Moment, named: Option<Moment>) -> Moment
    ensures { result ≡ schedule_from now named }
{
    match named {
        None => now,
        Some(moment) => moment.max(now),
    }
}

/// The moment that a validity names, or so many seconds after the schedule.
fn expiry_from(validity: u32, schedule: Moment, named: Option<Moment>) -> Moment
    ensures { result ≡ expiry_from validity schedule named }
{
    match named {
        None => schedule.later(validity),
        Some(moment) => moment,
    }
}
