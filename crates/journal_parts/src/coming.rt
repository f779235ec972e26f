//! What comes to a node by a step.

ghost use Rattle.std.specs.Prelude.{IfOk, None, OnErr};
ghost use Rattle.journal_parts.specs.Faults.{IsCopied};
ghost use Rattle.journal_parts.specs.Members.{CanBeTaken, ComesWith};

use node_core::Input;
use node_entry::Step;
use std::alloc::AllocError;
use synod_acceptor::Packet;

/// What comes to a node by a step, with the packet that comes, if one does. An `Err` is want of memory, which a grant and what came of an attempt do not take.
pub(crate) fn input_by(step: &Step, packet: &Option<Packet>) -> Result<Input, AllocError>
    requires { CanBeTaken step.now packet.now }
    ensures comes { IfOk result (ComesWith step.now packet.now) }
    ensures copied { OnErr result (IsCopied step.now) }
{
    if let Some(packet) = packet {
        return Ok(Input::Packet(packet.copy()?));
    }
    match step {
        Step::Grant { id, .. } => Ok(Input::Grant(*id)),
        Step::Answered { slot, outcome, .. } => Ok(Input::Answered(*slot, *outcome)),
        _ => copied_by(step),
    }
}

/// A copy of the request or the tick that comes by a step. An `Err` is want of memory.
fn copied_by(step: &Step) -> Result<Input, AllocError>
    requires copied { IsCopied step.now }
    requires taken { CanBeTaken step.now None }
    ensures { IfOk result (ComesWith step.now None) }
{
    match step.copy()? {
        Step::Request {
            account,
            request,
            ..
        } => Ok(Input::Request(account, request)),
        Step::Tick { moment, reach, .. } => Ok(Input::Tick(moment, reach)),
        _ => unreachable!(),
    }
}
