//! A reader of journals, which looks for what must not be in one. It goes by the entries alone, and plays nothing again.

use delivery::Outcome;
use desk::Request;
use fate_chain::{Author, Chain, Final, Kind};
use mc_types::{MsgId, NodeNo, Slot};
use node_core::Outputs;
use node_threads::Entry;
use pdu_tables::Status;
use std::alloc::Global;
use std::process::Abort;
use waiting_requests::{Answer, Reply};
use world::Step;

/// What must not be in a journal, and of which message it is.
#[derive(Clone, Copy, Debug, PartialEq, Eq)]
pub enum Wrong {
    /// Two final states are told of it.
    TwoFates(MsgId),
    /// An attempt of it is granted behind a final state that was told, as by ESME_ROK to its cancel_sm.
    GrantBehindAFate(MsgId),
    /// It is told to be DELIVERED, and its fate does not stand behind an attempt that was granted, and answered ESME_ROK in the same life of its node.
    NoDelivery(MsgId),
    /// A second receipt of it is given out.
    TwoReceipts(MsgId),
    /// A query_sm that came behind a final state of it is shown another one, or none.
    OtherFate(MsgId),
    /// A request that came behind ESME_ROK to its submit_sm is answered that there is no such message.
    NoSuchMessage(MsgId),
}

/// How often a reader looked at what.
#[derive(Clone, Copy, Debug, PartialEq, Eq)]
pub struct Looks {
    /// Final states that were told.
    pub fates: u32,
    /// ESME_ROK to a cancel_sm.
    pub cancels: u32,
    /// Attempts that were granted.
    pub grants: u32,
    /// Receipts that tell DELIVERED.
    pub deliveries: u32,
    /// Answers to a query_sm that came behind a final state of its message.
    pub queries: u32,
    /// Answers to a request that came behind ESME_ROK to the submit_sm of its message.
    pub accepted: u32,
}

/// What was told of a message so far.
#[derive(Clone, Copy)]
struct Told {
    id: MsgId,
    accepted: bool,
    fate: Option<Final>,
    has_receipt: bool,
}

/// A request that waits at a node under a ticket, and what had been told of its message when it came.
#[derive(Clone, Copy)]
struct Asked {
    node: NodeNo,
    ticket: u64,
    told: Told,
}

/// An attempt that was granted, in the slot that its chain ends in, and whether it was answered ESME_ROK in the same life of its node.
#[derive(Clone, Copy)]
struct Attempted {
    slot: Slot,
    author: Author,
    delivered: bool,
}

/// Reads entries, the oldest first.
#[derive(Drop)]
pub struct Reader {
    told: Vec<Told>,
    asked: Vec<Asked>,
    attempted: Vec<Attempted>,
    pub looks: Looks,
    pub wrong: Vec<Wrong>,
}

impl Reader {
    /// A reader who read nothing.
    pub fn new(alloc: Global) -> Reader {
        Reader {
            told: Vec::new(alloc),
            asked: Vec::new(alloc),
            attempted: Vec::new(alloc),
            looks: Looks {
                fates: 0,
                cancels: 0,
                grants: 0,
                deliveries: 0,
                queries: 0,
                accepted: 0,
            },
            wrong: Vec::new(alloc),
        }
    }

    /// Reads the next entry.
    pub fn read(&mut self, rt: &impl Abort, entry: &Entry) {
        let outputs = &entry.done.outputs;
        match &entry.done.step {
            Step::Request { node, request, .. } => {
                self.read_request(rt, *node, request, outputs);
                self.read_told(rt, *node, outputs);
            }
            Step::Answered {
                node,
                slot,
                outcome,
            } => {
                if *outcome == Outcome::Delivered {
                    self.read_delivery(*node, *slot);
                }
                self.read_told(rt, *node, outputs);
            }
            Step::Deliver { node, .. } | Step::Tick { node, .. } | Step::Crash { node, .. } => {
                self.read_told(rt, *node, outputs);
            }
            Step::Grant { .. } => self.read_grant(rt, outputs),
            Step::Restart { node } => self.end_life(*node),
        }
    }

    /// A query_sm or cancel_sm that waits, or is refused at once.
    fn read_request(
        &mut self,
        rt: &impl Abort,
        node: NodeNo,
        request: &Request,
        outputs: &Outputs,
    ) {
        let Some(id) = id_in(request) else {
            return;
        };
        let told = self.told_of(id);
        if told.accepted && outputs.refused == Some(Status::InvalidMessageId) {
            self.find(rt, Wrong::NoSuchMessage(id));
        }
        if let Some(ticket) = outputs.ticket {
            let asked = Asked { node, ticket, told };
            self.asked.push(asked).expect(rt, "memory");
        }
    }

    /// The replies and the receipts that a node gave out.
    fn read_told(&mut self, rt: &impl Abort, node: NodeNo, outputs: &Outputs) {
        for reply in outputs.replies.as_slice() {
            self.read_reply(rt, node, reply);
        }
        self.read_receipts(rt, outputs);
    }

    fn read_reply(&mut self, rt: &impl Abort, node: NodeNo, reply: &Reply) {
        if let Some(asked) = self.answered(node, reply.ticket()) {
            self.compare(rt, &asked.told, reply.answer());
        }
        match reply.answer() {
            Answer::Accepted => self.accept(rt, reply.id()),
            Answer::Removed(chain) => {
                self.looks.cancels = self.looks.cancels.saturating_add(1);
                self.state(rt, chain);
            }
            Answer::Shown(chain) => self.state(rt, chain),
            _ => {}
        }
    }

    fn read_receipts(&mut self, rt: &impl Abort, outputs: &Outputs) {
        for chain in outputs.receipts.as_slice() {
            if chain.fate() == Some(Final::Delivered) {
                self.looks.deliveries = self.looks.deliveries.saturating_add(1);
            }
            self.state(rt, chain);
            self.receive(rt, chain.id());
        }
    }

    /// A receipt is given out.
    fn receive(&mut self, rt: &impl Abort, id: MsgId) {
        let before = self.told_of(id);
        if before.has_receipt {
            self.find(rt, Wrong::TwoReceipts(id));
        }
        self.tell(
            rt,
            Told {
                has_receipt: true,
                ..before
            },
        );
    }

    /// What a request is answered, of whose message so much had been told when it came.
    fn compare(&mut self, rt: &impl Abort, told: &Told, answer: &Answer) {
        if told.accepted {
            self.looks.accepted = self.looks.accepted.saturating_add(1);
            if matches!(answer, Answer::Unknown) {
                self.find(rt, Wrong::NoSuchMessage(told.id));
            }
        }
        if let Answer::Shown(chain) = answer {
            if told.fate.is_some() {
                self.looks.queries = self.looks.queries.saturating_add(1);
                if chain.fate() != told.fate {
                    self.find(rt, Wrong::OtherFate(told.id));
                }
            }
        }
    }

    /// The final state that a chain tells, if it has one.
    fn state(&mut self, rt: &impl Abort, chain: &Chain) {
        let Some(fate) = chain.fate() else {
            return;
        };
        self.looks.fates = self.looks.fates.saturating_add(1);
        if fate == Final::Delivered && !self.is_delivered(chain) {
            self.find(rt, Wrong::NoDelivery(chain.id()));
        }
        let before = self.told_of(chain.id());
        match before.fate {
            Some(other) if other != fate => self.find(rt, Wrong::TwoFates(chain.id())),
            _ => self.tell(
                rt,
                Told {
                    fate: Some(fate),
                    ..before
                },
            ),
        }
    }

    fn accept(&mut self, rt: &impl Abort, id: MsgId) {
        let before = self.told_of(id);
        self.tell(
            rt,
            Told {
                accepted: true,
                ..before
            },
        );
    }

    /// Whether the fate of a chain stands behind an attempt that was granted, and answered ESME_ROK.
    fn is_delivered(&self, chain: &Chain) -> bool {
        let Some(slot) = attempt_before_fate(chain) else {
            return false;
        };
        let author = chain.newest_untold().author;
        for attempted in self.attempted.as_slice() {
            if attempted.slot == slot && attempted.author == author && attempted.delivered {
                return true;
            }
        }
        false
    }

    fn read_grant(&mut self, rt: &impl Abort, outputs: &Outputs) {
        let Some(chain) = &outputs.granted else {
            return;
        };
        self.looks.grants = self.looks.grants.saturating_add(1);
        let id = chain.id();
        if self.told_of(id).fate.is_some() {
            self.find(rt, Wrong::GrantBehindAFate(id));
        }
        let attempted = Attempted {
            slot: Slot {
                id,
                place: chain.place(),
            },
            author: chain.newest().author,
            delivered: false,
        };
        self.attempted.push(attempted).expect(rt, "memory");
    }

    /// ESME_ROK to the attempt in a slot, which a node was granted.
    fn read_delivery(&mut self, node: NodeNo, slot: Slot) {
        for attempted in self.attempted.as_mut_slice() {
            if attempted.author.node == node && attempted.slot == slot {
                attempted.delivered = true;
            }
        }
    }

    /// A node starts anew: no request waits there, and no attempt that was granted may be answered.
    fn end_life(&mut self, node: NodeNo) {
        self.asked.retain(&|asked: &Asked| asked.node != node);
        self.attempted.retain(&|attempted: &Attempted| attempted.delivered
            || attempted.author.node != node);
    }

    /// The request that waited at a node under a ticket, and waits no more.
    fn answered(&mut self, node: NodeNo, ticket: u64) -> Option<Asked> {
        for place in 0..self.asked.len() {
            let asked = self.asked.get(place)?;
            if asked.node == node && asked.ticket == ticket {
                return Some(self.asked.swap_remove(place));
            }
        }
        None
    }

    /// What was told of a message so far.
    fn told_of(&self, id: MsgId) -> Told {
        for told in self.told.as_slice() {
            if told.id == id {
                return *told;
            }
        }
        Told {
            id,
            accepted: false,
            fate: None,
            has_receipt: false,
        }
    }

    /// Keeps what was told of a message.
    fn tell(&mut self, rt: &impl Abort, now: Told) {
        for told in self.told.as_mut_slice() {
            if told.id == now.id {
                *told = now;
                return;
            }
        }
        self.told.push(now).expect(rt, "memory");
    }

    fn find(&mut self, rt: &impl Abort, wrong: Wrong) {
        self.wrong.push(wrong).expect(rt, "memory");
    }
}

/// The message that a query_sm or a cancel_sm names.
fn id_in(request: &Request) -> Option<MsgId> {
    match request {
        Request::Submit(..) => None,
        Request::Ask(query) => MsgId::read(query.message_id.octets()).ok(),
        Request::Cancel(cancel) => MsgId::read(cancel.message_id.octets()).ok(),
    }
}

/// The slot of the attempt that is the last decree before the fate of a chain, if it is one.
fn attempt_before_fate(chain: &Chain) -> Option<Slot> {
    let fate = match chain.newest().kind {
        Kind::Told => chain.place().checked_sub(1)?,
        _ => chain.place(),
    };
    let place = fate.checked_sub(1)?;
    match chain.decrees().get(place as usize)?.kind {
        Kind::Attempt(_) => Some(Slot {
            id: chain.id(),
            place,
        }),
        _ => None,
    }
}
