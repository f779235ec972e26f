//! What is done at a node.

ghost use Rattle.std.specs.Prelude.{◌≡◌, ◌↔◌, IfOk, IsTrue};
ghost use Rattle.node_entry.specs.Copies.{IsCopy};
ghost use Rattle.node_entry.specs.declared.step.Step.TheVariants as steps;

use delivery::Outcome;
use desk::Request;
use mc_types::{Moment, MsgId, NodeNo, Slot};
use node_core::{Found, Reach};
use pdu_codec::SystemId;
use std::alloc::AllocError;

/// What is done at a node, in a world or in threads: one step of one node.
#[derive(Drop)]
pub enum Step {
    /// The packet with this number comes to a node.
    Deliver {
        number: u64,
        node: NodeNo,
    },
    /// A request of an account comes to a node: a submit_sm, with the account that a route leads to, if one does, a query_sm or a
    /// cancel_sm.
    Request {
        node: NodeNo,
        account: SystemId,
        request: Request,
    },
    /// Time passes at a node: the moment, with the accounts of which a session may receive there, and the messages of which an attempt may begin.
    Tick {
        node: NodeNo,
        moment: Moment,
        reach: Reach,
    },
    /// The attempt in which the known chain of a message ends is asked for at a node.
    Grant {
        node: NodeNo,
        id: MsgId,
    },
    /// What came of the attempt in a slot.
    Answered {
        node: NodeNo,
        slot: Slot,
        outcome: Outcome,
    },
    /// The packet with this number comes to a node, which stops in the save of that step: before it, or after it; if it saves nothing, at
    /// the end of the step. Nothing is sent, and the node is down.
    Crash {
        node: NodeNo,
        number: u64,
        found: Found,
    },
    /// A node starts anew, in its next incarnation, with its stable records and nothing else.
    Restart {
        node: NodeNo,
    },
}

impl Step {
    /// Whether the other is the same step; of a tick, with the same accounts in the same order. It takes no memory.
    pub fn is(&self, other: &Step) -> bool
        ensures { IsTrue result ↔ IsCopy self.now other.now }
    {
        match self {
            Step::Deliver { number, node } => other.is_delivery(*number, *node),
            Step::Request {
                node,
                account,
                request,
            } => other.is_request(*node, account, request),
            Step::Tick {
                node,
                moment,
                reach,
            } => other.is_tick(*node, *moment, reach),
            Step::Grant { node, id } => other.is_grant(*node, *id),
            Step::Answered {
                node,
                slot,
                outcome,
            } => other.is_answer(*node, *slot, *outcome),
            Step::Crash {
                node,
                number,
                found,
            } => other.is_crash(*node, *number, *found),
            Step::Restart { node } => other.is_restart(*node),
        }
    }

    /// Whether it is this Deliver.
    fn is_delivery(&self, packet: u64, at: NodeNo) -> bool
        ensures { IsTrue result ↔ (self.now ≡ steps.Deliver packet at) }
    {
        match self {
            Step::Deliver { number, node } => *number == packet && *node == at,
            _ => false,
        }
    }

    /// Whether it is this Request.
    fn is_request(&self, at: NodeNo, sender: &SystemId, asked: &Request) -> bool
        ensures { IsTrue result ↔ (self.now ≡ steps.Request at sender.now asked.now) }
    {
        match self {
            Step::Request {
                node,
                account,
                request,
            } => { *node == at && account.octets() == sender.octets() && request.is(asked) }
            _ => false,
        }
    }

    /// Whether it is this Tick.
    fn is_tick(&self, at: NodeNo, then: Moment, told: &Reach) -> bool
        ensures { IsTrue result ↔ IsCopy (steps.Tick at then told.now) self.now }
    {
        match self {
            Step::Tick {
                node,
                moment,
                reach,
            } => *node == at && *moment == then && told.is(reach),
            _ => false,
        }
    }

    /// Whether it is this Grant.
    fn is_grant(&self, at: NodeNo, message: MsgId) -> bool
        ensures { IsTrue result ↔ (self.now ≡ steps.Grant at message) }
    {
        match self {
            Step::Grant { node, id } => *node == at && *id == message,
            _ => false,
        }
    }

    /// Whether it is this Answered.
    fn is_answer(&self, at: NodeNo, attempt: Slot, came: Outcome) -> bool
        ensures { IsTrue result ↔ (self.now ≡ steps.Answered at attempt came) }
    {
        match self {
            Step::Answered {
                node,
                slot,
                outcome,
            } => *node == at && *slot == attempt && *outcome == came,
            _ => false,
        }
    }

    /// Whether it is this Crash.
    fn is_crash(&self, at: NodeNo, packet: u64, left: Found) -> bool
        ensures { IsTrue result ↔ (self.now ≡ steps.Crash at packet left) }
    {
        match self {
            Step::Crash {
                node,
                number,
                found,
            } => *node == at && *number == packet && *found == left,
            _ => false,
        }
    }

    /// Whether it is this Restart.
    fn is_restart(&self, at: NodeNo) -> bool
        ensures { IsTrue result ↔ (self.now ≡ steps.Restart at) }
    {
        match self {
            Step::Restart { node } => *node == at,
            _ => false,
        }
    }

    /// The same step once more. An `Err` is want of memory.
    pub fn copy(&self) -> Result<Step, AllocError>
        ensures { IfOk result (IsCopy self.now) }
    {
        Ok(match self {
            Step::Deliver { number, node } => Step::Deliver {
                number: *number,
                node: *node,
            },
            Step::Request {
                node,
                account,
                request,
            } => request_copied(*node, account, request)?,
            Step::Tick {
                node,
                moment,
                reach,
            } => Step::Tick {
                node: *node,
                moment: *moment,
                reach: reach.copy()?,
            },
            Step::Grant { node, id } => Step::Grant {
                node: *node,
                id: *id,
            },
            Step::Answered {
                node,
                slot,
                outcome,
            } => Step::Answered {
                node: *node,
                slot: *slot,
                outcome: *outcome,
            },
            Step::Crash {
                node,
                number,
                found,
            } => Step::Crash {
                node: *node,
                number: *number,
                found: *found,
            },
            Step::Restart { node } => Step::Restart { node: *node },
        })
    }
}

/// The same request of an account once more.
fn request_copied(node: NodeNo, account: &SystemId, request: &Request) -> Result<Step, AllocError>
    ensures { IfOk result (IsCopy (steps.Request node account.now request.now)) }
{
    Ok(Step::Request {
        node,
        account: account.copy()?,
        request: request.copy()?,
    })
}
