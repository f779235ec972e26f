//! What a step gives out.

ghost use Rattle.std.specs.Prelude.{◌≡◌, ◌++◌, ◌≤◌, length};
ghost use Rattle.node_runs.specs.Steps.{outputs_of};
ghost use Rattle.node_model.specs.Outputs.{nothing};
ghost use Rattle.world.specs.Runs.{IsGiven};

use fate_chain::Chain;
use node_runs::Outputs;
use pdu_tables::Status;
use sim_net::Packets;
use std::alloc::Global;
use waiting_requests::Reply;

/// What a step gives out, the oldest first, but for its packets, which are among those that were sent.
#[derive(Drop)]
pub struct Given {
    /// The ticket under which the request waits that came.
    pub ticket: Option<u64>,
    /// The status with which the request that came is refused.
    pub refused: Option<Status>,
    /// The replies to requests that waited.
    pub replies: Vec<Reply>,
    /// For each receipt that is due, the chain of its message.
    pub receipts: Vec<Chain>,
    /// The chain that ends in the attempt that is granted.
    pub granted: Option<Chain>,
    /// How many packets it sent; they have the next numbers.
    pub packets: usize,
}

impl Given {
    /// Nothing. It takes no memory.
    pub(crate) fn nothing(alloc: Global) -> Given
        ensures { IsGiven result nothing }
    {
        Given {
            ticket: None,
            refused: None,
            replies: Vec::new(alloc),
            receipts: Vec::new(alloc),
            granted: None,
            packets: 0,
        }
    }

    /// What a node gave out: its packets are sent, for which there is room.
    #[inline(always)]
    pub(crate) fn send(outputs: Outputs, packets: &mut Packets) -> Given
        requires { length outputs.packets.items ≤ packets.old.room }
        ensures given { IsGiven result (outputs_of outputs) }
        ensures granted { result.granted ≡ outputs.granted }
        ensures sent { packets.new.sent ≡ packets.old.sent ++ outputs.packets.items }
    {
        let Outputs {
            ticket,
            refused,
            packets: sent,
            replies,
            receipts,
            granted,
        } = outputs;
        let count = sent.len();
        packets.add(sent);
        Given {
            ticket,
            refused,
            replies,
            receipts,
            granted,
            packets: count,
        }
    }
}
