//! The journal of all nodes, under its lock.

ghost use Rattle.std.specs.Prelude.{◌≡◌, ◌⊎◌, ◌↔◌, ◌+◌, ◌-◌, ◌≤◌, ◌<◌, [], ◌∷◌, ◌++◌, false, true, IfErr};
ghost use Rattle.std.specs.Prelude.{List, IsErrOf, IfOk, IfSome, IfNone, IsNone, IsSome, OnErr, OnOk, OnSome, IsTrue, length, map, option_map, None, Some};
ghost use Rattle.std.specs.Arc.{arc_value};
ghost use Rattle.std.specs.Option.{option_copied};
ghost use Rattle.synod_acceptor.specs.Packets.{packet_of};
ghost use Rattle.mc_model.specs.synod.Lists.{In};
ghost use Rattle.journal_laws.specs.Journals.{Entry as Written, HasItsNumber};
ghost use Rattle.journal_parts.specs.Batches.{Covers};
ghost use Rattle.journal_parts.specs.Entries.{IsSound, entry_of, number_by};
ghost use Rattle.journal_parts.specs.Members.{CanBeTaken, IsAct, IsNewest};
ghost use Rattle.journal_parts.specs.Numbers.{RiseWithin, none_sent};
ghost use Rattle.journal_parts.specs.Registers.{AsksInVain, CameFrom, ComesAsNumbered, HasEntered, HasPacket, IsAbsent, IsAskedFor, IsUnsent, MayEnter};
ghost use Rattle.journal_parts.specs.Registers.{EntersEach, EntersFront, EntersThose, carried_under, packet_under, sent_under};
ghost use Rattle.journal_parts.specs.declared.carried.Carried.{Carried as Again};
ghost use Rattle.journal_parts.specs.declared.refusal.Refusal.TheVariants.{Broken, Full, Memory, NoSuchPacket};

use crate::batch::{Batch, MOST_AT_ONCE};
use crate::begins::Begins;
use crate::carried::Carried;
use crate::claim::{Claim, Claims};
use crate::copies::EntryCopies;
use crate::entry::Entry;
use crate::marks::Marks;
use crate::member::Member;
use crate::noted::Noted;
use crate::refusal::Refusal;
use crate::seat::Seat;
use crate::slip::Slip;
use node_entry::Step;
use stable_store::StableStore;
use std::alloc::{AllocError, Global};
use std::collections::VecDeque;
use std::marker::Model;
use std::sync::ledger::{Blank, Book, Share};
use synod_acceptor::Packet;

/// How many entries a journal has at most.
pub const MOST_ENTRIES: usize = 200_000;

/// How many seats a cluster gives at most.
pub const MOST_SEATS: u64 = 1_000_000;

/// The journal of all nodes, in the order in which their steps were taken. Each packet has the number under which it was sent, from 1. Contracts see the
/// entries, the packets of earlier parts that may still come, for how many more entries there is room, how many calls have claimed some, and how many seats are
/// left.
#[derive(Drop)]
pub struct Register<L: Begins> {
    // Room for all entries is made as it opens.
    pub(crate) noted: Vec<Noted>,
    claims: usize,
    // The packets of earlier parts that may still come, by ascending numbers.
    pub(crate) carried: Vec<Carried>,
    // How many packets have numbers.
    pub(crate) sent: u64,
    book: Book<L>,
    seats: Share<L>,
    seats_left: u64,
    // One for each entry that there is room for.
    pub(crate) marks: Marks,
}

impl<L: Begins> Model for Register<L> {
    ghost use Rattle.std.specs.Prelude.{◌≡◌, ◌≤◌, ◌+◌, ◌-◌};
    ghost use Rattle.std.specs.Vec.{vec_capacity, vec_len};
    ghost use Rattle.journal_parts.specs.Registers.{IsRegister, Registered, entries_of};

    ghost Value = { Registered };

    ghost view = { λ r. record {
      entries = entries_of r.noted.items;
      carried = r.carried.items;
      claims = r.claims;
      room = vec_capacity r.noted - vec_len r.noted;
      seats = r.seats_left;
    } };

    ghost invariant = { λ r.
        IsRegister L.cluster L.numbers r.noted.items r.carried.items r.sent
        × (vec_len r.noted + r.claims ≤ vec_capacity r.noted)
        × (r.book.total ≡ vec_len r.noted)
        × (r.seats.parts ≡ r.seats_left)
        × (r.seats.amount ≡ 0)
        × (vec_capacity r.noted ≤ r.marks.most) };
}

impl<L: Begins> Register<L> {
    /// A journal with no entry yet, and room for them all, whose first packet has the number 1. An `Err` is want of memory.
    pub fn open(alloc: Global, blank: Blank) -> Result<Register<L>, AllocError>
        requires name { blank.name ≡ L.name }
        requires parts { (blank.parts ≡ L.parts) × (blank.parts ≡ 1000000) }
        requires numbers { L.numbers ≡ none_sent }
        ensures entries { IfOk result (λ register. register.entries ≡ []) }
        ensures carried { IfOk result (λ register. register.carried ≡ []) }
        ensures claims { IfOk result (λ register. register.claims ≡ 0) }
        ensures room { IfOk result (λ register. 200000 ≤ register.room) }
        ensures seats { IfOk result (λ register. register.seats ≡ 1000000) }
    {
        Register::begin(alloc, blank, 0, Vec::new(alloc))
    }

    /// A journal with no entry yet, and room for them all, behind so many packets that have numbers, of which these may still come, by ascending numbers. An
    /// `Err` is want of memory.
    pub(crate) fn begin(
        alloc: Global,
        blank: Blank,
        sent: u64,
        carried: Vec<Carried>,
    ) -> Result<Register<L>, AllocError>
        requires name { blank.name ≡ L.name }
        requires parts { (blank.parts ≡ L.parts) × (blank.parts ≡ 1000000) }
        requires sent { L.numbers.count ≡ sent }
        requires carried { (one : Again) → In one carried.items → In one L.numbers.may_come }
        requires rise { RiseWithin 0 L.numbers.count carried.items }
        ensures entries { IfOk result (λ register. register.entries ≡ []) }
        ensures carried { IfOk result (λ register. register.carried ≡ carried.items) }
        ensures claims { IfOk result (λ register. register.claims ≡ 0) }
        ensures room { IfOk result (λ register. 200000 ≤ register.room) }
        ensures seats { IfOk result (λ register. register.seats ≡ 1000000) }
    {
        let noted = Vec::with_capacity(alloc, MOST_ENTRIES)?;
        let marks = Marks::make(alloc, MOST_ENTRIES)?;
        let (book, seats) = blank.open::<L>();
        Ok(Register {
            noted,
            claims: 0,
            carried,
            sent,
            book,
            seats,
            seats_left: MOST_SEATS,
            marks,
        })
    }

    /// A seat with no slip, if one is left. It takes no memory.
    pub fn seat(&mut self, alloc: Global) -> Option<Seat<L>>
        ensures left { IfSome result (λ seat. (seat.slips ≡ []) × (self.new.seats + 1 ≡ self.old.seats)) }
        ensures none { IfNone result ((self.old.seats ≡ 0) × (self.new.seats ≡ 0)) }
        ensures entries { self.new.entries ≡ self.old.entries }
        ensures carried { self.new.carried ≡ self.old.carried }
        ensures claims { self.new.claims ≡ self.old.claims }
        ensures room { self.new.room ≡ self.old.room }
    {
        if self.seats_left == 0 {
            return None;
        }
        self.seats_left -= 1;
        Some(Seat::of(alloc, self.seats.split_off(1, 0)))
    }

    /// Claims room for the entry of a step, and gives the claim with the packet that comes by the step, if one does. Full exactly if no room is left; else
    /// Broken exactly if the node is; else NoSuchPacket exactly if a packet is asked for and none has its number, neither one that an entry sent nor one of an
    /// earlier part that may still come; else Memory, if there was none for the packet that comes by it. Then nothing is claimed.
    pub fn admit(
        &mut self,
        step: &Step,
        broken: bool,
    ) -> Result<(Claim<L>, Option<Packet>), Refusal>
        requires { IsAct step.now }
        ensures packet { IfOk result (λ admitted. CanBeTaken step.now admitted.1) }
        ensures asked { IfOk result (λ admitted. IsAskedFor L.numbers self.old.entries step.now admitted.1) }
        ensures works { OnOk result (broken ≡ false) }
        ensures claims { OnOk result (self.new.claims ≡ self.old.claims + 1) }
        ensures stays { OnErr result (self.new.claims ≡ self.old.claims) }
        ensures full { IsErrOf result Full ↔ (self.old.room ≤ self.old.claims) }
        ensures broken { IsErrOf result Broken ↔ ((self.old.claims < self.old.room) × (broken ≡ true)) }
        ensures absent { IsErrOf result NoSuchPacket
            ↔ ((self.old.claims < self.old.room) × (broken ≡ false) × AsksInVain L.numbers self.old step.now) }
        ensures wants { IsErrOf result Memory → IsSome (number_by step.now) }
        ensures faults { IfErr result (λ refusal. (refusal ≡ Full) ⊎ (refusal ≡ Broken) ⊎ (refusal ≡ NoSuchPacket) ⊎ (refusal ≡ Memory)) }
        ensures entries { self.new.entries ≡ self.old.entries }
        ensures carried { self.new.carried ≡ self.old.carried }
        ensures room { self.new.room ≡ self.old.room }
        ensures seats { self.new.seats ≡ self.old.seats }
    {
        self.judge(broken)?;
        let packet = self.packet_by(step)?;
        self.claims += 1;
        Ok((Claim::make(), packet))
    }

    /// Claims room for the entry of a start anew. Full exactly if no room is left; then nothing is claimed.
    pub fn admit_anew(&mut self) -> Result<Claim<L>, Refusal>
        ensures claims { OnOk result (self.new.claims ≡ self.old.claims + 1) }
        ensures stays { OnErr result (self.new.claims ≡ self.old.claims) }
        ensures full { IsErrOf result Full ↔ (self.old.room ≤ self.old.claims) }
        ensures faults { IfErr result (λ refusal. refusal ≡ Full) }
        ensures entries { self.new.entries ≡ self.old.entries }
        ensures carried { self.new.carried ≡ self.old.carried }
        ensures room { self.new.room ≡ self.old.room }
        ensures seats { self.new.seats ≡ self.old.seats }
    {
        self.judge(false)?;
        self.claims += 1;
        Ok(Claim::make())
    }

    /// Full exactly if there is no room for one more entry behind those that are claimed; else Broken exactly if the node is.
    fn judge(&self, broken: bool) -> Result<(), Refusal>
        ensures room { OnOk result (self.now.claims < self.now.room) }
        ensures works { OnOk result (broken ≡ false) }
        ensures full { IsErrOf result Full ↔ (self.now.room ≤ self.now.claims) }
        ensures broken { IsErrOf result Broken ↔ ((self.now.claims < self.now.room) × (broken ≡ true)) }
        ensures faults { IfErr result (λ refusal. (refusal ≡ Full) ⊎ (refusal ≡ Broken)) }
    {
        if self.claims >= self.room() {
            return Err(Refusal::Full);
        }
        if broken {
            return Err(Refusal::Broken);
        }
        Ok(())
    }

    /// For how many more entries there is room, claimed or not.
    fn room(&self) -> usize
        ensures { result ≡ self.now.room }
    {
        self.noted.capacity() - self.noted.len()
    }

    /// The packet that comes by a step, if one does. NoSuchPacket exactly if a packet is asked for and none has its number; else Memory, if there was none for
    /// that packet.
    fn packet_by(&self, step: &Step) -> Result<Option<Packet>, Refusal>
        requires { IsAct step.now }
        ensures packet { IfOk result (CanBeTaken step.now) }
        ensures asked { IfOk result (IsAskedFor L.numbers self.now.entries step.now) }
        ensures absent { IsErrOf result NoSuchPacket ↔ AsksInVain L.numbers self.now step.now }
        ensures wants { IsErrOf result Memory → IsSome (number_by step.now) }
        ensures faults { IfErr result (λ refusal. (refusal ≡ NoSuchPacket) ⊎ (refusal ≡ Memory)) }
    {
        let Step::Deliver { number, .. } = step else {
            return Ok(None);
        };
        match self.packet(*number) {
            Some(packet) => Ok(Some(packet.copy()?)),
            None => Err(Refusal::NoSuchPacket),
        }
    }

    /// Claims room for the entry of a step beside others, and gives the packet that comes by the step, if one does. An `Err` is one of `admit`, and claims nothing.
    pub fn admit_beside(
        &mut self,
        claims: &mut Claims<L>,
        step: &Step,
        broken: bool,
    ) -> Result<Option<Packet>, Refusal>
        requires { IsAct step.now }
        ensures packet { IfOk result (CanBeTaken step.now) }
        ensures faults { IfErr result (λ refusal. (refusal ≡ Full) ⊎ (refusal ≡ Broken) ⊎ (refusal ≡ NoSuchPacket) ⊎ (refusal ≡ Memory)) }
        ensures entries { self.new.entries ≡ self.old.entries }
    {
        let (claim, packet) = self.admit(step, broken)?;
        claims.add(claim);
        Ok(packet)
    }

    /// Gives one of several claims back, if there is one.
    pub fn give_one_back(&mut self, claims: &mut Claims<L>)
        ensures entries { self.new.entries ≡ self.old.entries }
    {
        if let Some(claim) = claims.take() {
            self.give_back(claim);
        }
    }

    /// Gives several claims back: their room is free again.
    pub fn give_back_all(&mut self, claims: Claims<L>)
        ensures entries { self.new.entries ≡ self.old.entries }
    {
        self.claims = self.claims.saturating_sub(claims.spend());
    }

    /// The packets to be handed in at once, from the first of these numbers on up to the last, 64 at most, as far as each has a packet: up to the second one of a
    /// message by which something may be saved. An `Err` is want of memory.
    pub fn batch(&self, alloc: Global, first: u64, last: u64) -> Result<Batch, AllocError>
        ensures { IfOk result (λ batch. Covers first batch.saving.items batch.others.items) }
    {
        let mut batch = Batch::none(alloc);
        for number in first..=last.min(first.saturating_add(MOST_AT_ONCE - 1)) {
            let Some(packet) = self.packet(number) else {
                break;
            };
            if !batch.add(number, packet)? {
                break;
            }
        }
        Ok(batch)
    }

    /// Gives a claim back: its room is free again.
    pub fn give_back(&mut self, claim: Claim<L>)
        ensures claims { self.new.claims ≡ self.old.claims - 1 }
        ensures entries { self.new.entries ≡ self.old.entries }
        ensures carried { self.new.carried ≡ self.old.carried }
        ensures room { self.new.room ≡ self.old.room }
        ensures seats { self.new.seats ≡ self.old.seats }
    {
        claim.spend();
        self.claims = self.claims.saturating_sub(1);
    }

    /// The packet with this number: one that an entry sent, or one of an earlier part that may still come. None exactly if no such packet has it.
    pub fn packet(&self, number: u64) -> Option<&Packet>
        ensures some { IfSome (option_copied result) (λ packet. HasPacket L.numbers self.now.entries number (packet_of packet)) }
        ensures none { IsNone result ↔ IsAbsent L.numbers self.now number }
        ensures has { option_map packet_of (option_copied result) ≡ packet_under L.numbers self.now number }
    {
        match self.carried_packet(number) {
            Some(packet) => Some(packet),
            None => self.sent_packet(number),
        }
    }

    /// One of an earlier part that may still come. None exactly if none of them has the number.
    fn carried_packet(&self, number: u64) -> Option<&Packet>
        ensures some { IfSome (option_copied result) (λ packet. HasPacket L.numbers self.now.entries number (packet_of packet)) }
        ensures has { option_map packet_of (option_copied result) ≡ carried_under self.now.carried number }
    {
        let place = self
            .carried
            .as_slice()
            .partition_point(|carried| carried.number < number);
        let carried = self.carried.get(place)?;
        if carried.number != number {
            return None;
        }
        Some(&carried.packet)
    }

    /// One that an entry sent. None exactly if none of them has the number.
    fn sent_packet(&self, number: u64) -> Option<&Packet>
        ensures some { IfSome (option_copied result) (λ packet. HasPacket L.numbers self.now.entries number (packet_of packet)) }
        ensures none { IfNone result (IsUnsent L.numbers self.now.entries number) }
        ensures has { option_map packet_of (option_copied result) ≡ sent_under L.numbers.count self.now.entries number }
    {
        let behind = self
            .noted
            .as_slice()
            .partition_point(|noted| noted.before < number);
        let noted = self.noted.get(behind.checked_sub(1)?)?;
        noted.packet(number)
    }

    /// Whether the packet that comes by an entry, if one does, is the one that was sent under its number.
    fn has_sent(&self, entry: &Entry) -> bool
        ensures sent { IsTrue result → CameFrom L.numbers self.now.entries (entry_of entry.now) }
        ensures comes { IsTrue result → ComesAsNumbered L.numbers self.now (entry_of entry.now) }
        ensures only { ComesAsNumbered L.numbers self.now (entry_of entry.now) → IsTrue result }
    {
        let (Some(number), Some(packet)) = (entry.number(), &entry.done.packet) else {
            return true;
        };
        match self.packet(number) {
            Some(sent) => sent.is(packet),
            None => false,
        }
    }

    /// Adds the newest entry of a node, whose lock is held, and its slip to the seat, and gives the same slip. It is None, and nothing is added, exactly if there
    /// is no claim, the packet that comes by the entry is not the one that has its number, or a packet would have a number of 2^64 or more. Its claim is spent in
    /// each case. It takes no memory.
    pub fn enter<S: StableStore>(
        &mut self,
        member: &Member<S, L>,
        seat: &mut Seat<L>,
        claim: Claim<L>,
        copies: EntryCopies,
    ) -> Option<Slip>
        requires newest { IsNewest copies member.now.own }
        requires sound { IsSound copies }
        requires room { 1 ≤ seat.old.room }
        ensures entered { IfSome result (HasEntered self.old.entries copies self.new.entries) }
        ensures slips { IfSome result (λ slip. seat.new.slips ≡ seat.old.slips ++ slip ∷ []) }
        ensures may { IsSome result ↔ MayEnter L.numbers self.old copies }
        ensures none { IfNone result ((self.new ≡ record self.old { claims = self.old.claims - 1 }) × (seat.new.slips ≡ seat.old.slips)) }
        ensures claims { OnSome result (self.new.claims + 1 ≡ self.old.claims) }
        ensures room { OnSome result (self.new.room + 1 ≡ self.old.room) }
        ensures carried { self.new.carried ≡ self.old.carried }
        ensures seats { self.new.seats ≡ self.old.seats }
    {
        self.enter_own(member, seat, claim, copies)
    }

    /// The same of any of its own entries.
    fn enter_own<S: StableStore>(
        &mut self,
        member: &Member<S, L>,
        seat: &mut Seat<L>,
        claim: Claim<L>,
        copies: EntryCopies,
    ) -> Option<Slip>
        requires among { In copies member.now.own }
        requires sound { IsSound copies }
        requires room { 1 ≤ seat.old.room }
        ensures entered { IfSome result (HasEntered self.old.entries copies self.new.entries) }
        ensures slips { IfSome result (λ slip. seat.new.slips ≡ seat.old.slips ++ slip ∷ []) }
        ensures left { IfSome result (λ slip. seat.new.room + 1 ≡ seat.old.room) }
        ensures may { IsSome result ↔ MayEnter L.numbers self.old copies }
        ensures none { IfNone result ((self.new ≡ record self.old { claims = self.old.claims - 1 }) × (seat.new.slips ≡ seat.old.slips)) }
        ensures claims { OnSome result (self.new.claims + 1 ≡ self.old.claims) }
        ensures room { OnSome result (self.new.room + 1 ≡ self.old.room) }
        ensures carried { self.new.carried ≡ self.old.carried }
        ensures seats { self.new.seats ≡ self.old.seats }
    {
        member.is_own_run();
        claim.spend();
        if self.claims == 0 {
            return None;
        }
        let comes = self.has_sent(&copies.journal);
        self.claims -= 1;
        if !comes {
            return None;
        }
        let before = self.sent;
        let sent = before.checked_add(copies.journal.done.outputs.packets.len() as u64)?;
        let EntryCopies {
            journal,
            seat: seated,
            slip,
        } = copies;
        self.sent = sent;
        self.noted.push_reserved(Noted {
            entry: journal,
            before,
        });
        let number = self.noted.len() as u64;
        seat.add(&mut self.book, Slip::make(number, before, seated));
        Some(Slip::make(number, before, slip))
    }

    /// Adds the newest entries of a node, whose lock is held, the first of them first, and their slips to the seat; whether all are added. One is not, and none
    /// behind it, if there is no claim, the packet that comes by it is not the one that has its number, or a packet would have a number of 2^64 or more. All
    /// claims are spent. It takes no memory.
    pub fn enter_each<S: StableStore>(
        &mut self,
        member: &Member<S, L>,
        seat: &mut Seat<L>,
        claims: Claims<L>,
        copies: Vec<EntryCopies>,
    ) -> bool
        requires newest { (before : List Written) × (member.now.own ≡ before ++ copies.items) }
        requires sound { (entry : Written) → In entry copies.items → IsSound entry }
        requires room { length copies.items ≤ seat.old.room }
        ensures slips { EntersFront seat.old.slips copies.items seat.new.slips }
        ensures entries { EntersThose self.old.entries copies.items self.new.entries }
        ensures all { result ≡ true → self.new.entries ≡ self.old.entries ++ copies.items }
        ensures each { result ≡ true → EntersEach seat.old.slips copies.items seat.new.slips }
    {
        let mut claims = claims;
        let mut left = VecDeque::from_vec(copies);
        let mut entered = true;
        while let Some(one) = left.pop_front() {
            let Some(claim) = claims.take() else {
                entered = false;
                break;
            };
            match self.enter_own(member, seat, claim, one) {
                Some(slip) => drop(slip),
                None => {
                    entered = false;
                    break;
                }
            }
        }
        self.give_back_all(claims);
        entered
    }
}
