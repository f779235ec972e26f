//! What is handed in to a node.

ghost use Rattle.std.specs.Prelude.{◌≡◌};
ghost use Rattle.journal_parts.specs.Faults.{IsCopied};
ghost use Rattle.journal_parts.specs.Members.{IsAct};
ghost use Rattle.journal_parts.specs.Taking.{node_at};
ghost use Rattle.node_threads.specs.Actions.{step_of};

use desk::Request;
use journal_parts::{Reach, Step};
use mc_types::{Moment, NodeNo};
use pdu_codec::SystemId;

/// What is handed in to a node, but for what is done in a life of it: a packet, a request, a tick.
#[derive(Drop)]
pub enum Action {
    /// The packet with this number comes to a node.
    Deliver {
        number: u64,
        node: NodeNo,
    },
    /// A request of an account comes to a node: a submit_sm, with the account that a route leads to, if one does, a query_sm or a cancel_sm.
    Request {
        node: NodeNo,
        account: SystemId,
        request: Request,
    },
    /// Time passes at a node: the moment, with the accounts of which a session may receive there, and the messages of which an attempt may begin.
    Tick {
        node: NodeNo,
        moment: Moment,
        reach: Reach,
    },
}

impl Action {
    /// The node to which it is handed in.
    pub fn node(&self) -> NodeNo
        ensures { result ≡ node_at (step_of self.now) }
    {
        match self {
            Action::Deliver { node, .. }
            | Action::Request { node, .. }
            | Action::Tick { node, .. } => *node,
        }
    }

    /// The step that it is.
    pub fn into_step(self) -> Step
        ensures step { result ≡ step_of self }
        ensures act { IsAct result }
        ensures copied { IsCopied result }
    {
        match self {
            Action::Deliver { number, node } => Step::Deliver { number, node },
            Action::Request {
                node,
                account,
                request,
            } => Step::Request {
                node,
                account,
                request,
            },
            Action::Tick {
                node,
                moment,
                reach,
            } => Step::Tick {
                node,
                moment,
                reach,
            },
        }
    }
}
