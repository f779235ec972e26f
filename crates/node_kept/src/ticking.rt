//! What a node does at a tick.

ghost use Rattle.std.specs.Prelude.{◌≡◌, ◌↔◌, ◌≢◌, IsTrue, ◌<◌, ◌++◌, suc, [], Some, None, Ok, length, max, map, true, false, IfOk, IsOk};
ghost use Rattle.std.specs.Prelude.{IsOkAnd, IsSomeAnd, if◌then◌else◌};
ghost use Rattle.std.specs.List.{list_any};
ghost use Rattle.std.specs.List.Sorted.{IsStrictlySortedBy};
ghost use Rattle.std.specs.Map.{keys_of};
ghost use Rattle.std.specs.Option.{option_copied};
ghost use Rattle.std.specs.Ordering.{nat_cmp};
ghost use Rattle.mc_model.specs.synod.Lists.{In};
ghost use Rattle.node_model.specs.Requests.{is_untold};
ghost use Rattle.node_model.specs.Rules.{first_rule};
ghost use Rattle.node_model.specs.Ticks.{asked_again, ids_of, on_tick, ticked};
ghost use Rattle.waiting_requests.specs.Numbers.{IsLeastFrom, ids_in};
ghost use Rattle.waiting_requests.specs.Queues.{timely};
ghost use Rattle.waiting_requests.specs.Waiting.{held_in};
ghost use Rattle.shelf.specs.Shelved.{value_at};
ghost use Rattle.synod_acceptor.specs.Packets.{packet_of};
ghost use Rattle.node_parts.specs.Living.{IsNextBy, IsPassedIn};
ghost use Rattle.node_parts.specs.Reaching.{reach_of};
ghost use Rattle.node_kept.specs.Idling.{IsIdle, NoneFits};
ghost use Rattle.node_kept.specs.Keeping.{AreOwn, kept_of};
ghost use Rattle.node_kept.specs.Steps.{IsStep};
ghost use Rattle.node_kept.specs.Ticking.{IsTurnOf, IsTurned};

use crate::kept::Kept;
use crate::queue_change::QueueChange;
use crate::step::Step;
use crate::turn_list::TurnList;
use crate::walk::Walk;
use mc_types::{Moment, MsgId};
use node_parts::{MayBegin, Message, Outputs, Reach, Turn};
use std::alloc::AllocError;
use synod_acceptor::Packet;
use tick_rules::Standpoint;

impl Kept {
    /// The step of a tick: the clock rises to this moment, if it is behind it;
    /// those that waited too long are answered so and wait no more, and those are asked of again of which no majority told; all rounds end,
    /// and for each message, by ascending ids, the first rule that fits starts one. `reach` has the accounts of which a session may receive and the
    /// messages of which an attempt may begin.
    /// It takes no memory if nothing is due.
    #[inline(never)]
    pub(crate) fn on_tick(&self, moment: Moment, reach: Reach) -> Result<Step, AllocError>
        requires { AreOwn self.now }
        ensures step { IfOk result (IsStep self.now (on_tick self.now.setup (kept_of self.now) moment (reach_of reach))) }
        ensures idle { IsIdle self.now.setup (kept_of self.now) (max self.now.clock moment) (reach_of reach) → IsOk result }
    {
        let clock = self.clock.max(moment);
        let replies = self.queue.late(clock)?;
        let turns = self.turns(clock, &reach)?;
        let room = self.messages.room(self.alloc, turns.messages.len())?;
        let packets = self.with_questions(clock, turns.packets)?;
        let mut next = self.unchanged();
        next.clock = clock;
        next.drops_rounds = true;
        next.queue = QueueChange::Expire(clock);
        next.messages = turns.messages;
        next.room = Some(room);
        next.reach = Some(reach);
        Ok(Step {
            outputs: Outputs::telling(self.alloc, packets, replies),
            next,
        })
    }

    /// The questions of the requests to which no majority told, which did not wait too long at this clock, and then these packets. It takes
    /// memory only if there is any.
    fn with_questions(
        &self,
        clock: Moment,
        mut starts: Vec<Packet>,
    ) -> Result<Vec<Packet>, AllocError>
        ensures packets { IfOk result (λ packets. map packet_of packets.items
            ≡ asked_again self.now.setup (ticked (kept_of self.now) clock) ++ map packet_of starts.items) }
        ensures idle { list_any (is_untold self.now.setup.nodes) (timely clock (held_in self.now.queue)) ≡ false → starts.items ≡ [] → IsOk result }
    {
        let mut packets = self
            .queue
            .questions(clock, self.node(), self.incarnation(), self.nodes())?;
        packets.append(&mut starts)?;
        Ok(packets)
    }

    /// What a tick makes of all messages, by ascending ids, at this clock, once all rounds ended: of those that are kept, and of those that
    /// the requests ask of which did not wait too long. It looks at those that are asked of, or live and not noted to be asleep, and at those of
    /// which an attempt may begin, if not of all, since no rule fits another. `reach` has the accounts of which a session may receive and the messages
    /// of which an attempt may begin. It takes memory only for those that a rule fits.
    #[inline(never)]
    fn turns(&self, clock: Moment, reach: &Reach) -> Result<TurnList, AllocError>
        requires { AreOwn self.now }
        ensures turned { IfOk result (IsTurned self.now clock (reach_of reach.now) (ids_of (ticked (kept_of self.now) clock))) }
        ensures idle { NoneFits self.now.setup (kept_of self.now) clock (reach_of reach.now) →
            IsOkAnd result (λ turns. (turns.messages.items ≡ []) × (turns.packets.items ≡ [])) }
    {
        let at = Standpoint {
            author: self.author(),
            clock,
        };
        self.messages.ascends();
        let asleep = self.messages.asleep_at(&at, reach);
        let mut turns = TurnList::empty(self.alloc);
        let mut walk = Walk {
            from: 0,
            live: self.messages.next_due(0, &asleep, &reach.may),
            asked: self.queue.next_id(clock, 0),
        };
        while let Some(id) = walk.next() {
            if let Some(turn) = self.turn_of(id, &at, reach)? {
                turns.add(self.alloc, id, turn)?;
            }
            walk = self.passed(clock, &asleep, &reach.may, walk, id);
        }
        Ok(turns)
    }

    /// Where a walk stands after the message of this id, its next one. `asleep` is the clock at which messages are noted to sleep, if they are. It
    /// takes no memory.
    fn passed(
        &self,
        clock: Moment,
        asleep: &Option<Moment>,
        may: &MayBegin,
        walk: Walk,
        id: MsgId,
    ) -> Walk
        ensures from { result.from ≡ suc id }
        ensures same_live { walk.live ≢ Some id → result.live ≡ walk.live }
        ensures live { walk.live ≡ Some id → IsNextBy (IsPassedIn self.now.messages asleep.now may.now) self.now.messages.entries (suc id) result.live }
        ensures same_asked { walk.asked ≢ Some id → result.asked ≡ walk.asked }
        ensures asked { walk.asked ≡ Some id →
            IsLeastFrom (suc id) (λ other. In other (ids_in (timely clock (held_in self.now.queue)))) result.asked }
    {
        Walk {
            from: id.number() + 1,
            live: self.live_behind(asleep, may, walk.live, id),
            asked: self.asked_behind(clock, walk.asked, id),
        }
    }

    /// The next message that is live and not noted to be asleep at this clock, if there is one, or of which an attempt may begin, if not of all, after
    /// the one of this id.
    fn live_behind(
        &self,
        asleep: &Option<Moment>,
        may: &MayBegin,
        live: Option<MsgId>,
        id: MsgId,
    ) -> Option<MsgId>
        ensures same { live ≢ Some id → result ≡ live }
        ensures next { live ≡ Some id → IsNextBy (IsPassedIn self.now.messages asleep.now may.now) self.now.messages.entries (suc id) result }
    {
        match live {
            Some(next) if next == id => self.messages.next_due(id.number() + 1, asleep, may),
            _ => live,
        }
    }

    /// The next message of which a request asks, after the one of this id.
    fn asked_behind(&self, clock: Moment, asked: Option<MsgId>, id: MsgId) -> Option<MsgId>
        ensures same { asked ≢ Some id → result ≡ asked }
        ensures next { asked ≡ Some id → IsLeastFrom (suc id) (λ other. In other (ids_in (timely clock (held_in self.now.queue)))) result }
    {
        match asked {
            Some(next) if next == id => self.queue.next_id(clock, id.number() + 1),
            _ => asked,
        }
    }

    /// What a tick makes of the message of this id, if it is not kept as it was. If no rule fits, it takes no memory.
    fn turn_of(&self, id: MsgId, at: &Standpoint, reach: &Reach) -> Result<Option<Turn>, AllocError>
        requires own { AreOwn self.now }
        requires node { at.now.author.node ≡ self.now.setup.node }
        requires incarnation { at.now.author.incarnation ≡ self.now.incarnation }
        ensures turned { IfOk result (IsTurnOf self.now id at.now (reach_of reach.now)) }
        ensures idle { first_rule self.now.setup (ticked (kept_of self.now) at.now.clock) (reach_of reach.now) id ≡ None → result ≡ Ok None }
    {
        match self.find(id) {
            Some(message) => message.turn(id, at, &self.queue, reach),
            None => {
                let message = Message::fresh(self.alloc, self.author(), self.nodes());
                message.turn(id, at, &self.queue, reach)
            }
        }
    }
}
