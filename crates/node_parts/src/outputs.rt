//! What a step gives out.

ghost use Rattle.std.specs.Prelude.{◌≡◌, ◌↔◌, [], ◌++◌, None, Some, IfOk, IsTrue, OnOk};
ghost use Rattle.node_parts.specs.Copies.{AreAlike};
ghost use Rattle.node_parts.specs.Lists.{listed};

use crate::comparing::{are_same, is_same_grant};
use crate::copies::{chains_copied, packets_copied, replies_copied};
use fate_chain::Chain;
use pdu_tables::Status;
use std::alloc::{AllocError, Global};
use synod_acceptor::Packet;
use waiting_requests::Reply;

/// What a step gives out, the oldest first.
#[derive(Drop)]
pub struct Outputs {
    /// The ticket under which the request waits that came.
    pub ticket: Option<u64>,
    /// The status with which the request that came is refused.
    pub refused: Option<Status>,
    /// The packets that it sends, each to all nodes.
    pub packets: Vec<Packet>,
    /// The replies to requests that waited.
    pub replies: Vec<Reply>,
    /// For each receipt that is due, the chain of its message.
    pub receipts: Vec<Chain>,
    /// The chain that ends in the attempt that is granted.
    pub granted: Option<Chain>,
}

impl Outputs {
    /// Nothing. It takes no memory.
    #[inline(always)]
    pub fn nothing(alloc: Global) -> Outputs
        ensures ticket { result.ticket ≡ None }
        ensures refused { result.refused ≡ None }
        ensures packets { result.packets.items ≡ [] }
        ensures replies { result.replies.items ≡ [] }
        ensures receipts { result.receipts.items ≡ [] }
        ensures granted { result.granted ≡ None }
    {
        Outputs {
            ticket: None,
            refused: None,
            packets: Vec::new(alloc),
            replies: Vec::new(alloc),
            receipts: Vec::new(alloc),
            granted: None,
        }
    }

    /// These packets and replies. It takes no memory.
    pub fn telling(alloc: Global, packets: Vec<Packet>, replies: Vec<Reply>) -> Outputs
        ensures ticket { result.ticket ≡ None }
        ensures refused { result.refused ≡ None }
        ensures packets { result.packets ≡ packets }
        ensures replies { result.replies ≡ replies }
        ensures receipts { result.receipts.items ≡ [] }
        ensures granted { result.granted ≡ None }
    {
        Outputs {
            ticket: None,
            refused: None,
            packets,
            replies,
            receipts: Vec::new(alloc),
            granted: None,
        }
    }

    /// The chain of an attempt that is granted. It takes no memory.
    pub fn granting(alloc: Global, chain: Chain) -> Outputs
        ensures ticket { result.ticket ≡ None }
        ensures refused { result.refused ≡ None }
        ensures packets { result.packets.items ≡ [] }
        ensures replies { result.replies.items ≡ [] }
        ensures receipts { result.receipts.items ≡ [] }
        ensures granted { result.granted ≡ Some chain }
    {
        Outputs {
            ticket: None,
            refused: None,
            packets: Vec::new(alloc),
            replies: Vec::new(alloc),
            receipts: Vec::new(alloc),
            granted: Some(chain),
        }
    }

    /// Whether the other outputs are alike: what they have is the same, in the same order. It takes no memory.
    pub fn is(&self, other: &Outputs) -> bool
        ensures { IsTrue result ↔ AreAlike self.now other.now }
    {
        self.ticket == other.ticket
            && self.refused == other.refused
            && are_same(&self.packets, &other.packets)
            && are_same(&self.replies, &other.replies)
            && are_same(&self.receipts, &other.receipts)
            && is_same_grant(&self.granted, &other.granted)
    }

    /// The same outputs once more. An `Err` is want of memory.
    #[inline(never)]
    pub fn copy(&self) -> Result<Outputs, AllocError>
        ensures { IfOk result (AreAlike self.now) }
    {
        let granted = match &self.granted {
            Some(chain) => Some(chain.copy()?),
            None => None,
        };
        Ok(Outputs {
            ticket: self.ticket,
            refused: self.refused,
            packets: packets_copied(&self.packets)?,
            replies: replies_copied(&self.replies)?,
            receipts: chains_copied(&self.receipts)?,
            granted,
        })
    }

    /// A packet and a receipt, as far as there are any.
    pub fn of(
        alloc: Global,
        packet: Option<Packet>,
        receipt: Option<Chain>,
    ) -> Result<Outputs, AllocError>
        ensures ticket { IfOk result (λ outputs. outputs.ticket ≡ None) }
        ensures refused { IfOk result (λ outputs. outputs.refused ≡ None) }
        ensures packets { IfOk result (λ outputs. outputs.packets.items ≡ listed packet) }
        ensures replies { IfOk result (λ outputs. outputs.replies.items ≡ []) }
        ensures receipts { IfOk result (λ outputs. outputs.receipts.items ≡ listed receipt) }
        ensures granted { IfOk result (λ outputs. outputs.granted ≡ None) }
    {
        let mut outputs = Outputs::nothing(alloc);
        if let Some(packet) = packet {
            outputs.packets.push(packet)?;
        }
        if let Some(chain) = receipt {
            outputs.receipts.push(chain)?;
        }
        Ok(outputs)
    }

    /// Sends a packet besides, if there is one.
    pub fn send(&mut self, packet: Option<Packet>) -> Result<(), AllocError>
        ensures packets { OnOk result (self.new.packets.items ≡ self.old.packets.items ++ listed packet) }
        ensures ticket { self.new.ticket ≡ self.old.ticket }
        ensures refused { self.new.refused ≡ self.old.refused }
        ensures replies { self.new.replies ≡ self.old.replies }
        ensures receipts { self.new.receipts ≡ self.old.receipts }
        ensures granted { self.new.granted ≡ self.old.granted }
    {
        if let Some(packet) = packet {
            self.packets.push(packet)?;
        }
        Ok(())
    }
}
