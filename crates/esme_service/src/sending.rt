//! What goes out on a session by what the node gave out.

ghost use Rattle.std.specs.Prelude.{◌≡◌, IfOk, None, Ok, option_map};

use crate::delivering::{delivery_octets, receipt_octets};
use crate::owner::Owner;
use crate::pushed_on::PushedOn;
use crate::response::reply_octets;
use fate_chain::Chain;
use std::alloc::{AllocError, Global};
use waiting_requests::Reply;

/// What goes out on a session by what the node gave out. It takes no memory; its octets do.
#[derive(Drop)]
pub enum Sending {
    /// The response to a request that waited (SMPP 3.4, sections 4.4.2, 4.8.2 and 4.9.2).
    Reply(Owner, Reply),
    /// The deliver_sm of the attempt in which a chain ends (section 4.6.1).
    Attempt(PushedOn, Chain),
    /// The deliver_sm of the receipt by a chain (appendix B).
    Receipt(PushedOn, Chain),
}

impl Sending {
    ghost use Rattle.esme_service.specs.Sendings.{AreOctetsOf, HasNoPdu, number_of};

    /// The number of the session on which it goes out.
    pub fn number(&self) -> u8
        ensures { result ≡ number_of self.now }
    {
        match self {
            Sending::Reply(owner, _) => owner.number,
            Sending::Attempt(pushed, _) | Sending::Receipt(pushed, _) => pushed.number,
        }
    }

    /// The octets of its PDU: none if it is an attempt whose chain ends in none, or a receipt whose chain has no fate or for which none
    /// was asked; then it takes no memory. An `Err` is want of memory.
    pub fn octets(&self, alloc: Global) -> Result<Option<Vec<u8>>, AllocError>
        ensures octets { IfOk result (λ octets. AreOctetsOf self.now (option_map (λ vec. vec.items) octets)) }
        ensures none { HasNoPdu self.now → result ≡ Ok None }
    {
        match self {
            Sending::Reply(owner, reply) => Ok(Some(reply_octets(alloc, owner.request, reply)?)),
            Sending::Attempt(pushed, chain) => delivery_octets(alloc, *pushed, chain),
            Sending::Receipt(pushed, chain) => receipt_octets(alloc, *pushed, chain),
        }
    }
}
