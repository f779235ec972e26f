//! What an account is limited to.

ghost use Rattle.std.specs.Prelude.{◌≡◌, [], None};

use crate::net::Net;
use crate::password_hash::PasswordHash;
use crate::sender_pattern::SenderPattern;
use std::alloc::Global;
use std::net::IpAddr;

/// What an account is limited to (own). An empty list and a number of 0 limit nothing.
#[derive(Drop)]
pub struct Limits {
    /// From where it may bind.
    pub from: Vec<Net>,
    /// How many sessions of it may be bound at a node.
    pub sessions: u32,
    /// How many submit_sm of it are taken in a second.
    pub per_second: u32,
    /// Which source_addr its submit_sm may have.
    pub senders: Vec<SenderPattern>,
    /// The hash of its password, in place of the password.
    pub password: Option<PasswordHash>,
}

impl Limits {
    ghost use Rattle.account_limits.specs.Limits.{AreNoLimits, admits_address, admits_sender, admits_session};

    /// No limits. It takes no memory.
    pub fn none(alloc: Global) -> Limits
        ensures { AreNoLimits result }
    {
        Limits {
            from: Vec::new(alloc),
            sessions: 0,
            per_second: 0,
            senders: Vec::new(alloc),
            password: None,
        }
    }

    /// Whether a session may bind from an address.
    pub fn admits_address(&self, address: &IpAddr) -> bool
        ensures { result ≡ admits_address self.now.from.items address.now }
    {
        match self.from.as_slice() {
            [] => true,
            nets => is_in_any(nets, address),
        }
    }

    /// Whether one more session may bind where so many are bound.
    pub fn admits_session(&self, bound: u32) -> bool
        ensures { result ≡ admits_session self.now.sessions bound }
    {
        self.sessions == 0 || bound < self.sessions
    }

    /// Whether a submit_sm may have a source_addr.
    pub fn admits_sender(&self, source: &[u8]) -> bool
        ensures { result ≡ admits_sender self.now.senders.items source.now }
    {
        match self.senders.as_slice() {
            [] => true,
            senders => is_any_of(senders, source),
        }
    }
}

ghost use Rattle.std.specs.List.{list_any};
ghost use Rattle.account_limits.specs.Nets.{is_in};
ghost use Rattle.account_limits.specs.Senders.{admits_source};

/// Whether an address is in one of some nets.
fn is_in_any(nets: &[Net], address: &IpAddr) -> bool
    ensures { result ≡ list_any (λ net. is_in net address.now) nets.now }
{
    nets.iter().any(|net| net.contains(address))
}

/// Whether a source_addr is one of some senders.
fn is_any_of(senders: &[SenderPattern], source: &[u8]) -> bool
    ensures { result ≡ list_any (λ sender. admits_source sender source.now) senders.now }
{
    senders.iter().any(|sender| sender.admits(source))
}
