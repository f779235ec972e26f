//! What nodes send to one another.

ghost use Rattle.std.specs.Prelude.{◌≡◌, ◌&&◌, ◌==◌, ◌↔◌, IfOk, IsSome, IsTrue, OnErr};
ghost use Rattle.synod_acceptor.specs.Packets.{CarriesVote, packet_of};
ghost use Rattle.synod_acceptor.specs.declared.packet.Packet.TheVariants as packets;

use crate::vote::{Report, Vote};
use mc_types::{Ballot, Incarnation, MsgId, NodeNo, Slot};
use std::alloc::AllocError;
use std::marker::Model;

/// By what the questions of one request are known: the node and the incarnation in which it waits, and its ticket there.
#[derive(Clone, Copy, Debug, PartialEq, Eq)]
pub struct Name {
    pub node: NodeNo,
    pub incarnation: Incarnation,
    pub ticket: u64,
}

impl Model for Name {
    ghost use Rattle.mc_model.specs.synod.Packet.{Name};

    ghost Value = { Name };

    ghost view = { λ n. record { node = n.node; incarnation = n.incarnation; ticket = n.ticket } };

    ghost inverse = { λ n. record { node = n.node; incarnation = n.incarnation; ticket = n.ticket } };
}

impl Name {
    /// Whether the request waits at this node in this incarnation: a question of an older one is nobody's any more.
    pub fn is_of(self, node: NodeNo, incarnation: Incarnation) -> bool
        ensures { result ≡ ((self.node == node) && (self.incarnation == incarnation)) }
    {
        self.node == node && self.incarnation == incarnation
    }
}

/// What a node sends to all nodes (Paxos Made Simple, sections 2.2 and 2.3, and the questions of a read), with its sender. A
/// vote stands in the slot of its chain, so no packet can lie about that.
#[derive(Drop)]
pub enum Packet {
    /// Asks for a promise at a ballot.
    Prepare {
        from: NodeNo,
        slot: Slot,
        ballot: Ballot,
    },
    /// Promises to vote below the ballot no more, and reports the vote of the slot.
    Promise {
        from: NodeNo,
        ballot: Ballot,
        report: Report,
    },
    /// Asks for a vote.
    Propose {
        from: NodeNo,
        vote: Vote,
    },
    /// Tells of a vote.
    Voted {
        from: NodeNo,
        vote: Vote,
    },
    /// Refuses what was asked at a ballot, for a promise at another.
    Refused {
        from: NodeNo,
        slot: Slot,
        ballot: Ballot,
        promised: Ballot,
    },
    /// Asks how far the chain of a message has come.
    Ask {
        from: NodeNo,
        id: MsgId,
        name: Name,
    },
    /// Tells it: the vote at the highest place with a vote, if any.
    Tell {
        from: NodeNo,
        name: Name,
        told: Option<Vote>,
    },
}

impl Packet {
    /// Whether it is the same packet as the other. It takes no memory.
    pub fn is(&self, other: &Packet) -> bool
        ensures { IsTrue result ↔ (self.now ≡ other.now) }
    {
        match self {
            Packet::Prepare { from, slot, ballot } => other.is_prepare(*from, *slot, *ballot),
            Packet::Promise {
                from,
                ballot,
                report,
            } => other.is_promise(*from, *ballot, report),
            Packet::Propose { from, vote } => other.is_propose(*from, vote),
            Packet::Voted { from, vote } => other.is_voted(*from, vote),
            Packet::Refused {
                from,
                slot,
                ballot,
                promised,
            } => other.is_refused(*from, *slot, *ballot, *promised),
            Packet::Ask { from, id, name } => other.is_ask(*from, *id, *name),
            Packet::Tell { from, name, told } => other.is_tell(*from, *name, told),
        }
    }

    /// Whether it is this Prepare.
    fn is_prepare(&self, sender: NodeNo, place: Slot, number: Ballot) -> bool
        ensures { IsTrue result ↔ (self.now ≡ packets.Prepare sender place number) }
    {
        match self {
            Packet::Prepare { from, slot, ballot } => *from == sender
                && *slot == place
                && *ballot == number,
            _ => false,
        }
    }

    /// Whether it is this Promise.
    fn is_promise(&self, sender: NodeNo, number: Ballot, reported: &Report) -> bool
        ensures { IsTrue result ↔ (self.now ≡ packets.Promise sender number reported.now) }
    {
        match self {
            Packet::Promise {
                from,
                ballot,
                report,
            } => *from == sender && *ballot == number && report.is(reported),
            _ => false,
        }
    }

    /// Whether it is this Propose.
    fn is_propose(&self, sender: NodeNo, cast: &Vote) -> bool
        ensures { IsTrue result ↔ (self.now ≡ packets.Propose sender cast.now) }
    {
        match self {
            Packet::Propose { from, vote } => *from == sender && vote.is(cast),
            _ => false,
        }
    }

    /// Whether it is this Voted.
    fn is_voted(&self, sender: NodeNo, cast: &Vote) -> bool
        ensures { IsTrue result ↔ (self.now ≡ packets.Voted sender cast.now) }
    {
        match self {
            Packet::Voted { from, vote } => *from == sender && vote.is(cast),
            _ => false,
        }
    }

    /// Whether it is this Refused.
    fn is_refused(&self, sender: NodeNo, place: Slot, number: Ballot, higher: Ballot) -> bool
        ensures { IsTrue result ↔ (self.now ≡ packets.Refused sender place number higher) }
    {
        match self {
            Packet::Refused {
                from,
                slot,
                ballot,
                promised,
            } => { *from == sender && *slot == place && *ballot == number && *promised == higher },
            _ => false,
        }
    }

    /// Whether it is this Ask.
    fn is_ask(&self, sender: NodeNo, message: MsgId, asked: Name) -> bool
        ensures { IsTrue result ↔ (self.now ≡ packets.Ask sender message asked) }
    {
        match self {
            Packet::Ask { from, id, name } => *from == sender && *id == message && *name == asked,
            _ => false,
        }
    }

    /// Whether it is this Tell.
    fn is_tell(&self, sender: NodeNo, asked: Name, other: &Option<Vote>) -> bool
        ensures { IsTrue result ↔ (self.now ≡ packets.Tell sender asked other.now) }
    {
        match self {
            Packet::Tell { from, name, told } => *from == sender
                && *name == asked
                && is_told(told, other),
            _ => false,
        }
    }

    /// The same packet once more. An `Err` is want of memory, which only a packet that carries a vote needs.
    pub fn copy(&self) -> Result<Packet, AllocError>
        ensures copy { IfOk result (λ copy. copy ≡ self.now) }
        ensures memory { OnErr result (CarriesVote (packet_of self.now)) }
    {
        match self {
            Packet::Prepare { from, slot, ballot } => Ok(Packet::Prepare {
                from: *from,
                slot: *slot,
                ballot: *ballot,
            }),
            Packet::Promise {
                from,
                ballot,
                report,
            } => promise_copied(*from, *ballot, report),
            Packet::Propose { from, vote } => propose_copied(*from, vote),
            Packet::Voted { from, vote } => voted_copied(*from, vote),
            Packet::Refused {
                from,
                slot,
                ballot,
                promised,
            } => Ok(Packet::Refused {
                from: *from,
                slot: *slot,
                ballot: *ballot,
                promised: *promised,
            }),
            Packet::Ask { from, id, name } => Ok(Packet::Ask {
                from: *from,
                id: *id,
                name: *name,
            }),
            Packet::Tell { from, name, told } => tell_copied(*from, *name, told),
        }
    }
}

/// The same Promise once more.
fn promise_copied(from: NodeNo, ballot: Ballot, report: &Report) -> Result<Packet, AllocError>
    ensures copy { IfOk result (λ copy. copy ≡ packets.Promise from ballot report.now) }
    ensures memory { OnErr result (CarriesVote (packet_of (packets.Promise from ballot report.now))) }
{
    Ok(Packet::Promise {
        from,
        ballot,
        report: report.copy()?,
    })
}

/// The same Propose once more.
fn propose_copied(from: NodeNo, vote: &Vote) -> Result<Packet, AllocError>
    ensures { IfOk result (λ copy. copy ≡ packets.Propose from vote.now) }
{
    Ok(Packet::Propose {
        from,
        vote: vote.copy()?,
    })
}

/// The same Voted once more.
fn voted_copied(from: NodeNo, vote: &Vote) -> Result<Packet, AllocError>
    ensures { IfOk result (λ copy. copy ≡ packets.Voted from vote.now) }
{
    Ok(Packet::Voted {
        from,
        vote: vote.copy()?,
    })
}

/// The same Tell once more.
fn tell_copied(from: NodeNo, name: Name, told: &Option<Vote>) -> Result<Packet, AllocError>
    ensures copy { IfOk result (λ copy. copy ≡ packets.Tell from name told.now) }
    ensures memory { OnErr result (CarriesVote (packet_of (packets.Tell from name told.now))) }
{
    Ok(Packet::Tell {
        from,
        name,
        told: told_copied(told)?,
    })
}

/// Whether both are the same vote, or none.
fn is_told(told: &Option<Vote>, other: &Option<Vote>) -> bool
    ensures { IsTrue result ↔ (told.now ≡ other.now) }
{
    match (told, other) {
        (Some(vote), Some(other)) => vote.is(other),
        (None, None) => true,
        _ => false,
    }
}

/// The same vote once more, if there is one.
fn told_copied(told: &Option<Vote>) -> Result<Option<Vote>, AllocError>
    ensures copy { IfOk result (λ copy. copy ≡ told.now) }
    ensures memory { OnErr result (IsSome told.now) }
{
    match told {
        Some(vote) => Ok(Some(vote.copy()?)),
        None => Ok(None),
    }
}
