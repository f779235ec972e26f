//! What a node does with a request that comes and waits.

ghost use Rattle.std.specs.Prelude.{◌≡◌, false, suc, length, IfOk};
ghost use Rattle.mc_model.specs.node.Room.{is_busy};
ghost use Rattle.mc_model.specs.node.Effect.{next_serial};
ghost use Rattle.node_model.specs.Ticks.{on_arrival};
ghost use Rattle.waiting_requests.specs.Submits.{IsNumberedBy};
ghost use Rattle.waiting_requests.specs.Waiting.{IsSince, request_of};
ghost use Rattle.node_kept.specs.Arriving.{HasSerial};
ghost use Rattle.node_kept.specs.Keeping.{AreOwn, kept_of};
ghost use Rattle.node_kept.specs.Steps.{IsStep};

use crate::kept::Kept;
use crate::queue_change::QueueChange;
use crate::step::Step;
use std::alloc::AllocError;
use waiting_requests::{Held, Request};

impl Kept {
    /// The step in which a request comes: it waits under the next ticket. A submit_sm starts the round by which its message is taken, and
    /// another request asks its question.
    #[inline(never)]
    pub(crate) fn on_arrival(&self, request: Request) -> Result<Step, AllocError>
        requires own { AreOwn self.now }
        requires room { is_busy (length self.now.queue) (suc self.now.given) ≡ false }
        requires serial { HasSerial self.now.serial request }
        requires numbered { IsNumberedBy self.now.setup.node self.now.incarnation (request_of request) }
        requires since { IsSince self.now.clock request }
        ensures { IfOk result (IsStep self.now (on_arrival self.now.setup (kept_of self.now) (request_of request))) }
    {
        let serial = self.serial_after(&request);
        let ticket = self.next_ticket();
        let held = Held::begin(ticket, self.clock(), request);
        let next = held.chain()?;
        let question = held.asked(self.node(), self.incarnation());
        let id = held.id();
        let held = Box::new(self.alloc, held)?;
        let mut step = self.starting(id, next)?;
        step.outputs.send(question)?;
        step.outputs.ticket = Some(ticket);
        step.next.serial = serial;
        step.next.given = ticket;
        step.next.queue = QueueChange::Push(held);
        Ok(step)
    }

    /// The serial of the next message once this request has come.
    fn serial_after(&self, request: &Request) -> u32
        requires { HasSerial self.now.serial request.now }
        ensures { result ≡ next_serial (request_of request.now) self.now.serial }
    {
        match request {
            Request::Submit(_) => self.serial() + 1,
            _ => self.serial(),
        }
    }
}
