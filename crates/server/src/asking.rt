//! A request of a session goes to its node.

ghost use Rattle.std.specs.Prelude.{◌≡◌};
ghost use Rattle.server.specs.Handing.{HandsIn};

use crate::shift::{Shift, ring};
use desk::Request;
use esme_site::{Steps, Taken};
use node_workers::{Action, Begins, Refusal, Seat};
use pdu_codec::SystemId;
use stable_store::GroupStore;
use std::rt::Clock;
use std::sync::Wait;

impl<S: GroupStore, L: Begins, R: Wait + Eprint + Clock> Steps<Shift<'_, S, L, R>> for Seat<L> {
    type Fault = Refusal;

    ghost took = { λ before shift account request taken after. HandsIn before.slips shift.station.now.node account request taken after.slips };

    ghost refused = { λ before fault after. after.slips ≡ before.slips };

    /// The packets that the step sent are handed in to all nodes, and a message_id is counted that it gave.
    fn request(
        &mut self,
        shift: &Shift<'_, S, L, R>,
        account: SystemId,
        request: Request,
    ) -> Result<Taken, Refusal> {
        let is_message = matches!(&request, Request::Submit(..));
        let action = Action::Request {
            node: shift.node(),
            account,
            request,
        };
        let slip = shift.shared.cluster.act(shift.rt, self, action)?;
        ring(shift.rt, &shift.shared.house, &slip);
        let outputs = slip.outputs();
        let taken = Taken {
            ticket: outputs.ticket,
            refused: outputs.refused,
        };
        if is_message && taken.ticket.is_some() {
            shift.station.course.lock(shift.rt).count_serial();
        }
        Ok(taken)
    }
}
