//! All packets that were sent.

ghost use Rattle.std.specs.Prelude.{◌≡◌, ◌≤◌, ◌<◌, ◌++◌, [], length, IfSome, OnErr, OnOk};
ghost use Rattle.std.specs.Option.{option_copied};
ghost use Rattle.mc_model.specs.synod.Lists.{In};
ghost use Rattle.sim_net.specs.Network.{numbered};

use std::alloc::{AllocError, Global};
use std::marker::Model;
use std::mem;
use synod_acceptor::Packet;

/// Every packet that the nodes of a cluster sent, each once, numbered from 1 in the order of sending. Each may come to any of the
/// nodes, any number of times or never.
#[derive(Drop)]
pub struct Packets {
    // The oldest first.
    sent: Vec<Packet>,
}

impl Model for Packets {
    ghost use Rattle.std.specs.Prelude.{◌-◌};
    ghost use Rattle.std.specs.Vec.{vec_capacity, vec_len};
    ghost use Rattle.sim_net.specs.Network.{Network};

    ghost Value = { Network };

    ghost view = { λ p. record {
      sent = p.sent.items;
      room = vec_capacity p.sent - vec_len p.sent;
    } };
}

impl Packets {
    /// No packet was sent yet. It takes no memory.
    pub fn none(alloc: Global) -> Packets
        ensures { result.sent ≡ [] }
    {
        Packets {
            sent: Vec::new(alloc),
        }
    }

    /// How many were sent.
    pub fn len(&self) -> usize
        ensures { result ≡ length self.now.sent }
    {
        self.sent.len()
    }

    /// The packet with this number, if one has it. It takes no memory.
    #[tactic(auto, using(crate::proofs::Numbers::numbered_in))]
    pub fn get(&self, number: u64) -> Option<&Packet>
        ensures packet { option_copied result ≡ numbered self.now.sent number }
        ensures sent { IfSome result (λ packet. In packet.now self.now.sent) }
    {
        let packet = self.find(number)?;
        Some(packet)
    }

    /// The same, by its place alone.
    fn find(&self, number: u64) -> Option<&Packet>
        ensures { option_copied result ≡ numbered self.now.sent number }
    {
        let place = number.checked_sub(1)?;
        self.sent.get(place as usize)
    }

    /// Makes room for so many more packets, and for as many as there are at least, if there is no room for them. It changes nothing; an
    /// `Err` is want of memory.
    pub fn make_room(&mut self, more: usize) -> Result<(), AllocError>
        ensures room { OnOk result (more ≤ self.new.room) }
        ensures grows { self.old.room < more → OnOk result (length self.old.sent ≤ self.new.room) }
        ensures enough { more ≤ self.old.room → self.new.room ≡ self.old.room }
        ensures memory { OnErr result (self.old.room < more) }
        ensures sent { self.new.sent ≡ self.old.sent }
    {
        let length = self.sent.len();
        if more <= self.sent.capacity() - length {
            return Ok(());
        }
        let Some(least) = length.checked_add(more) else {
            return Err(AllocError);
        };
        let mut wider = Vec::with_capacity(
            *self.sent.allocator(),
            least.max(length.saturating_mul(2)),
        )?;
        if wider.append(&mut self.sent).is_err() {
            unreachable!();
        }
        mem::swap(&mut self.sent, &mut wider);
        Ok(())
    }

    /// These packets were sent next, in this order. There is room for them, so it takes no memory.
    pub fn add(&mut self, packets: Vec<Packet>)
        requires { length packets.items ≤ self.old.room }
        ensures sent { self.new.sent ≡ self.old.sent ++ packets.items }
    {
        let mut packets = packets;
        if self.sent.append(&mut packets).is_err() {
            unreachable!();
        }
    }

    /// The packets that were sent elsewhere were sent next, in their order; there none is left. An `Err` is want of memory, which comes only if there is no
    /// room for them; then nothing changes.
    pub fn take_from(&mut self, elsewhere: &mut Packets) -> Result<(), AllocError>
        ensures sent { OnOk result (self.new.sent ≡ self.old.sent ++ elsewhere.old.sent) }
        ensures none { OnOk result (elsewhere.new.sent ≡ []) }
        ensures stays { OnErr result (self.new.sent ≡ self.old.sent) }
        ensures waits { OnErr result (elsewhere.new.sent ≡ elsewhere.old.sent) }
        ensures memory { OnErr result (self.old.room < length elsewhere.old.sent) }
    {
        self.sent.append(&mut elsewhere.sent)
    }
}
