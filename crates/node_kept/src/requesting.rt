//! What a node does with a request.

ghost use Rattle.std.specs.Prelude.{◌≡◌, ◌≤◌, ◌<◌, IfOk};
ghost use Rattle.mc_model.specs.message.Ids.{incarnation_of, node_of};
ghost use Rattle.node_model.specs.Stepped.{refused_with, stepped_up};
ghost use Rattle.pdu_tables.specs.StatusCodes.{status_code};
ghost use Rattle.desk.specs.Admissions.{MayWait, asked_of};
ghost use Rattle.waiting_requests.specs.Submits.{IsNumberedBy};
ghost use Rattle.waiting_requests.specs.Waiting.{IsSince, request_of};
ghost use Rattle.node_kept.specs.Arriving.{HasSerial};
ghost use Rattle.node_kept.specs.Keeping.{AreOwn, kept_of};
ghost use Rattle.desk.specs.Arrivals.{door_at, next_id, requested};
ghost use Rattle.node_kept.specs.Steps.{IsStep};

use crate::kept::Kept;
use crate::step::Step;
use desk::{Admitted, Door, Request as Asked};
use fate_chain::{ChainFault, Submission};
use mc_types::MsgId;
use pdu_codec::SystemId;
use pdu_tables::Status;
use std::alloc::AllocError;
use waiting_requests::{Request, Taken};

impl Kept {
    /// What it does with a request of an account: it refuses it at once, or lets it wait.
    #[inline(never)]
    pub(crate) fn on_request(&self, account: &SystemId, request: Asked) -> Result<Step, AllocError>
        requires { AreOwn self.now }
        ensures { IfOk result (IsStep self.now (stepped_up self.now.setup (kept_of self.now)
            (requested self.now.setup (kept_of self.now) account.now request))) }
    {
        match self.door().admit(account, request)? {
            Err(status) => Ok(self.refusing(status)),
            Ok(admitted) => {
                let request = self.waiting(admitted)?;
                self.on_arrival(request)
            }
        }
    }

    /// What is looked at when a request comes.
    fn door(&self) -> Door
        ensures { result ≡ door_at self.now.setup (kept_of self.now) }
    {
        Door {
            clock: self.clock(),
            validity: self.setup.default_validity,
            serial: self.serial(),
            busy: self.is_busy(),
        }
    }

    /// The step in which a request is refused at once.
    fn refusing(&self, status: Status) -> Step
        ensures { IsStep self.now (refused_with (kept_of self.now) (status_code status)) result }
    {
        let mut step = self.same();
        step.outputs.refused = Some(status);
        step
    }

    /// The request that waits for one that was admitted: a submit_sm gets the next id.
    fn waiting(&self, admitted: Admitted) -> Result<Request, AllocError>
        requires own { AreOwn self.now }
        requires waits { MayWait (door_at self.now.setup (kept_of self.now)) admitted }
        ensures asked { IfOk result (λ request. request_of request ≡ asked_of (next_id self.now.setup (kept_of self.now)) admitted) }
        ensures serial { IfOk result (HasSerial self.now.serial) }
        ensures numbered { IfOk result (λ request. IsNumberedBy self.now.setup.node self.now.incarnation (request_of request)) }
        ensures since { IfOk result (IsSince self.now.clock) }
    {
        match admitted {
            Admitted::Submit(message) => {
                let taken = self.taking(message)?;
                Ok(Request::Submit(taken))
            }
            Admitted::Query {
                id,
                account,
                source,
            } => Ok(Request::Query {
                id,
                account,
                source,
            }),
            Admitted::Cancel {
                id,
                account,
                source,
                destination,
            } => Ok(Request::Cancel {
                id,
                account,
                source,
                destination,
            }),
        }
    }

    /// The message of a submit_sm that comes now, under the next id.
    fn taking(&self, message: Submission) -> Result<Taken, AllocError>
        requires own { AreOwn self.now }
        requires serial { self.now.serial ≤ 99999 }
        requires expiry { self.now.clock < message.expiry }
        requires schedule { message.schedule < message.expiry }
        ensures taken { IfOk result (λ taken. taken ≡ record { id = next_id self.now.setup (kept_of self.now); moment = self.now.clock; message = message }) }
        ensures node { IfOk result (λ taken. node_of taken.id ≡ self.now.setup.node) }
        ensures incarnation { IfOk result (λ taken. incarnation_of taken.id ≡ self.now.incarnation) }
    {
        let id = MsgId::make(self.node(), self.incarnation(), self.serial()).unwrap();
        match Taken::make(self.alloc, id, self.clock(), message) {
            Ok(taken) => Ok(taken),
            Err(ChainFault::Memory) => Err(AllocError),
            Err(_) => unreachable!(),
        }
    }
}
