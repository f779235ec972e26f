//! Steps of a node.

ghost use Rattle.std.specs.Prelude.{List, Option, ℕ, IfErr, IfOk};
ghost use Rattle.desk.specs.declared.request.Request.{Request as Asks};
ghost use Rattle.esme_site.specs.declared.steps.Taken.{Taken};

use desk::Request;
use pdu_codec::SystemId;
use pdu_tables::Status;

/// What a node makes of a request in the step in which it comes.
#[derive(Clone, Copy, Debug, PartialEq, Eq)]
pub struct Taken {
    /// The ticket under which the request waits, if it does.
    pub ticket: Option<u64>,
    /// The status with which it is refused, if it is.
    pub refused: Option<Status>,
}

/// What takes the steps of nodes, at a place: a world, at a node of it; or a thread's seat, at a node of a cluster.
pub trait Steps<At> {
    /// Why a step is not taken.
    type Fault;

    /// Between two states this request of an account was handed in once, at this place, and this is what the node made of it.
    ghost took: { Self → At → List ℕ → Asks → Taken → Self → Type 0 };

    /// Between two states no step was taken of what was handed in, for this reason.
    ghost refused: { Self → Self.Fault → Self → Type 0 };

    /// Hands in a request of an account: what the node makes of it. After an `Err` no step was taken.
    fn request(
        &mut self,
        at: &At,
        account: SystemId,
        request: Request,
    ) -> Result<Taken, Self::Fault>
        ensures took { IfOk result (λ taken. took self.old at.now account request taken self.new) }
        ensures err { IfErr result (λ fault. refused self.old fault self.new) };
}
