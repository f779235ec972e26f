//! What stands beside a node: the service of its ESMEs, and the streams of its sessions.

ghost use Rattle.std.specs.Prelude.{◌≡◌, [], map, false, true, is_none, IfOk, OnOk};
ghost use Rattle.mc_model.specs.message.Chain.{taken_in};
ghost use Rattle.mc_model.specs.synod.Packet.{slot_of};
ghost use Rattle.delivery.specs.Deliveries.{EndsInAttempt};
ghost use Rattle.script_text.specs.Settings.{settings_of};

use crate::lines::Lines;
use crate::output::{write_all_gone, write_sending, write_ungranted};
use crate::steps::{Granting, Home, conclude, conclude_heeded, give_up, grant, take};
use crate::streams::Streams;
use crate::telling::{post_all, post_for_all, post_on, write_replies};
use config::Config;
use delivery::Outcome;
use esme_service::{Heard, Sending, Service};
use esme_site::{Centre, HeardOn, heed};
use fate_chain::Chain;
use mc_types::{Moment, MsgId, NodeNo, Slot};
use pdu_frames::Framer;
use std::alloc::{AllocError, Global};
use world::{Given, Reach, Step, World};

/// What stands beside a node of a world that is up: the service of its ESMEs, and of each session the octets of the PDU that has not come whole.
/// After an `Err` of a call, which is want of memory, nothing is said of it.
#[derive(Drop)]
pub struct Site {
    node: NodeNo,
    service: Service,
    streams: Streams,
}

impl Site {
    ghost use Rattle.node_model.specs.Reported.{receipt_of};
    ghost use Rattle.waiting_requests.specs.Replying.{reply_given};
    ghost use Rattle.esme_site.specs.Asking.{HasAsker};
    ghost use Rattle.script_site.specs.Heeding.{heeded};
    ghost use Rattle.script_site.specs.Sites.{Acts, tells};
    ghost use Rattle.script_site.specs.Standing.{HasGivenUp, HasLeft, HasOpened, IsEmpty};
    ghost use Rattle.esme_service.specs.Sessions.{account_at};
    ghost use Rattle.script_text.specs.Pushes.{session_at};
    ghost use Rattle.script_text.specs.Runner.{ends, held_in, makes_room, on_frame, on_grant, on_octets, on_tick, posts_for, sent};

    /// No session at a node.
    pub fn none(alloc: Global, node: NodeNo) -> Site
        ensures { IsEmpty node result }
    {
        Site {
            node,
            service: Service::none(alloc),
            streams: Streams::none(alloc),
        }
    }

    /// The next octets of a session's stream came: adds the lines of what goes out for each PDU that is whole now.
    pub fn octets(
        &mut self,
        world: &mut World,
        config: &Config,
        number: u8,
        octets: &[u8],
        text: &mut Vec<u8>,
    ) -> Result<(), AllocError>
        ensures { OnOk result (Acts self.old.node (λ runner. on_octets (settings_of config.now) runner number octets.now)
            (record { world = world.old; site = self.old }) (record { world = world.new; site = self.new }) text.old.items text.new.items) }
    {
        let mut framer = self.open(*text.allocator(), number)?;
        let mut rest = octets;
        loop {
            let taken = match framer.feed(rest) {
                Ok(count) => count,
                Err(_) => return self.end(world, config, number, text),
            };
            rest = &rest[taken..];
            match framer.frame() {
                Ok(Some(frame)) => self.serve(world, config, number, frame, text)?,
                Ok(None) => return self.streams.put_back(number, framer),
                Err(_) => return self.end(world, config, number, text),
            }
            if !self.service.has(number) {
                return Ok(());
            }
            framer.let_go();
        }
    }

    /// Hands out what the stream of a session holds; a session that is not connected begins now.
    fn open(&mut self, alloc: Global, number: u8) -> Result<Framer, AllocError>
        ensures held { IfOk result (λ framer. framer ≡ held_in self.old.streams number) }
        ensures left { OnOk result (HasOpened self.old number self.new) }
    {
        self.service.begin(number)?;
        match self.streams.take_out(alloc, number) {
            Ok(framer) => Ok(framer),
            Err(_) => Err(AllocError),
        }
    }

    /// The octets of one frame came on a session that is connected: it is served, and what waits for its account goes out.
    fn serve(
        &mut self,
        world: &mut World,
        config: &Config,
        number: u8,
        octets: &[u8],
        text: &mut Vec<u8>,
    ) -> Result<(), AllocError>
        requires { is_none (session_at self.old.service.sessions number) ≡ false }
        ensures { OnOk result (Acts self.old.node (λ runner. on_frame (settings_of config.now) number runner octets.now)
            (record { world = world.old; site = self.old }) (record { world = world.new; site = self.new }) text.old.items text.new.items) }
    {
        let heard = self.service.hear(config, number, octets)?;
        self.heed(world, config, number, heard, text)?;
        self.post_on(world, number, text)
    }

    /// A wrong length ends a session that is connected.
    fn end(
        &mut self,
        world: &mut World,
        config: &Config,
        number: u8,
        text: &mut Vec<u8>,
    ) -> Result<(), AllocError>
        requires { is_none (session_at self.old.service.sessions number) ≡ false }
        ensures { OnOk result (Acts self.old.node (ends (settings_of config.now) number)
            (record { world = world.old; site = self.old }) (record { world = world.new; site = self.new }) text.old.items text.new.items) }
    {
        let heard = self.service.hear_wrong_length(number);
        self.heed(world, config, number, heard, text)?;
        self.post_on(world, number, text)
    }

    /// What was heard on a session goes to the node, and the lines of what goes out are added.
    fn heed(
        &mut self,
        world: &mut World,
        config: &Config,
        number: u8,
        heard: Heard,
        text: &mut Vec<u8>,
    ) -> Result<(), AllocError>
        requires { HasAsker self.old.service.sessions number heard }
        ensures { OnOk result (Acts self.old.node (λ runner. heeded (settings_of config.now) number runner heard)
            (record { world = world.old; site = self.old }) (record { world = world.new; site = self.new }) text.old.items text.new.items) }
    {
        let home = Home { node: self.node };
        let centre = Centre {
            system_id: &config.system_id,
            at: &home,
        };
        let mut lines = Lines::behind(text, self.node);
        let heeded = heed(
            &mut self.service,
            world,
            &mut lines,
            &centre,
            HeardOn { number, heard },
        );
        lines.put_back(text);
        match heeded {
            Ok(heeded) => conclude_heeded(world, self.node, heeded),
            Err(_) => Err(AllocError),
        }
    }

    /// Adds the lines of the receipts that wait for the account of a session and go out now.
    fn post_on(&mut self, world: &World, number: u8, text: &mut Vec<u8>) -> Result<(), AllocError>
        ensures { OnOk result (Acts self.old.node (λ runner. posts_for runner (account_at runner.sessions number))
            (record { world = world.now; site = self.old }) (record { world = world.now; site = self.new }) text.old.items text.new.items) }
    {
        let now = world.clock(self.node);
        post_on(text, self.node, &mut self.service, now, number)
    }

    /// A moment has come: adds the lines of what requests are answered that waited too long, and gives up each deliver_sm that waits for its
    /// answer for 30 seconds or more.
    pub fn tick(
        &mut self,
        world: &mut World,
        moment: Moment,
        text: &mut Vec<u8>,
    ) -> Result<(), AllocError>
        ensures { OnOk result (Acts self.old.node (λ runner. on_tick runner moment)
            (record { world = world.old; site = self.old }) (record { world = world.new; site = self.new }) text.old.items text.new.items) }
    {
        let up = self.service.accounts_up()?;
        let given = take(
            world,
            Step::Tick {
                node: self.node,
                moment,
                reach: Reach::of_all(up),
            },
        )?;
        write_replies(text, self.node, &mut self.service, given.replies)?;
        self.make_room(world, text)
    }

    /// Gives up what was pushed and waits too long, and adds the lines of the receipts that go out then.
    fn make_room(&mut self, world: &mut World, text: &mut Vec<u8>) -> Result<(), AllocError>
        ensures { OnOk result (Acts self.old.node makes_room
            (record { world = world.old; site = self.old }) (record { world = world.new; site = self.new }) text.old.items text.new.items) }
    {
        let now = world.clock(self.node);
        self.give_up(world, now)?;
        let up = self.service.accounts_up()?;
        let now = world.clock(self.node);
        post_for_all(text, self.node, &mut self.service, now, &up)
    }

    /// Gives up what was pushed and waits too long at a moment.
    fn give_up(&mut self, world: &mut World, now: Moment) -> Result<(), AllocError>
        ensures { OnOk result (HasGivenUp self.old.node now
            (record { world = world.old; site = self.old }) (record { world = world.new; site = self.new })) }
    {
        let overdue = self.service.overdue(now)?;
        give_up(world, self.node, &overdue)?;
        self.service.let_go_overdue(now);
        Ok(())
    }

    /// The attempt of a message is asked for: adds the line of its deliver_sm, or the line that tells why it is not granted.
    pub fn grant(
        &mut self,
        world: &mut World,
        id: MsgId,
        text: &mut Vec<u8>,
    ) -> Result<(), AllocError>
        ensures { OnOk result (Acts self.old.node (λ runner. on_grant runner id)
            (record { world = world.old; site = self.old }) (record { world = world.new; site = self.new }) text.old.items text.new.items) }
    {
        match grant(world, self.node, id)? {
            Granting::Refused(reason) => write_ungranted(text, reason),
            Granting::Granted(chain) => self.send(world, chain, text),
        }
    }

    /// The attempt in which a chain ends goes out over a session of the account of its message; if none takes it, it has failed.
    fn send(
        &mut self,
        world: &mut World,
        chain: Chain,
        text: &mut Vec<u8>,
    ) -> Result<(), AllocError>
        ensures { OnOk result (EndsInAttempt chain.decrees →
            Acts self.old.node (λ runner. sent runner (slot_of chain.id chain.decrees) (taken_in chain.decrees))
            (record { world = world.old; site = self.old }) (record { world = world.new; site = self.new }) text.old.items text.new.items) }
    {
        let slot = Slot {
            id: chain.id(),
            place: chain.place(),
        };
        let now = world.clock(self.node);
        let taken = chain.submission();
        match self
            .service
            .push(&taken.target, taken.content.is_long(), now, slot)
        {
            Some(pushed) => write_sending(text, self.node, &Sending::Attempt(pushed, chain)),
            None => {
                drop(chain);
                conclude(world, self.node, slot, Outcome::unanswered())
            }
        }
    }

    /// Adds the lines of what a step of its node gave out: its replies, and then its receipts.
    #[inline(always)]
    pub fn tell(
        &mut self,
        world: &World,
        given: Given,
        text: &mut Vec<u8>,
    ) -> Result<(), AllocError>
        ensures { OnOk result (Acts self.old.node (λ runner. tells runner (map reply_given given.replies.items) (map receipt_of given.receipts.items))
            (record { world = world.now; site = self.old }) (record { world = world.now; site = self.new }) text.old.items text.new.items) }
    {
        let Given {
            replies,
            receipts,
            ..
        } = given;
        // Most packets give out neither.
        if replies.is_empty() && receipts.is_empty() {
            return Ok(());
        }
        write_replies(text, self.node, &mut self.service, replies)?;
        let now = world.clock(self.node);
        post_all(text, self.node, &mut self.service, now, receipts)
    }

    /// Its node is gone: adds the line of each session that it is gone, and keeps none.
    pub fn leave(&mut self, text: &mut Vec<u8>) -> Result<(), AllocError>
        ensures { OnOk result (HasLeft self.old self.new text.old.items text.new.items) }
    {
        write_all_gone(text, self.node, &self.service)?;
        self.service = Service::none(*text.allocator());
        self.streams = Streams::none(*text.allocator());
        Ok(())
    }
}
