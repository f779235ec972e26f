//! Copies of what a step gives out.

ghost use Rattle.std.specs.Prelude.{◌≡◌, IfOk};

use fate_chain::Chain;
use std::alloc::AllocError;
use synod_acceptor::Packet;
use waiting_requests::Reply;

/// The same packets once more.
pub fn packets_copied(packets: &Vec<Packet>) -> Result<Vec<Packet>, AllocError>
    ensures { IfOk result (λ copies. copies.items ≡ packets.now.items) }
{
    let mut copies = Vec::with_capacity(*packets.allocator(), packets.len())?;
    for packet in packets {
        copies.push(packet.copy()?)?;
    }
    Ok(copies)
}

/// The same replies once more.
pub fn replies_copied(replies: &Vec<Reply>) -> Result<Vec<Reply>, AllocError>
    ensures { IfOk result (λ copies. copies.items ≡ replies.now.items) }
{
    let mut copies = Vec::with_capacity(*replies.allocator(), replies.len())?;
    for reply in replies {
        copies.push(reply.copy()?)?;
    }
    Ok(copies)
}

/// The same chains once more.
pub fn chains_copied(chains: &Vec<Chain>) -> Result<Vec<Chain>, AllocError>
    ensures { IfOk result (λ copies. copies.items ≡ chains.now.items) }
{
    let mut copies = Vec::with_capacity(*chains.allocator(), chains.len())?;
    for chain in chains {
        copies.push(chain.copy()?)?;
    }
    Ok(copies)
}
