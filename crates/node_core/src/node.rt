//! One node.

ghost use Rattle.std.specs.Prelude.{◌≡◌, ◌≢◌, ◌↔◌, ◌⊎◌, [], None, Some, IfSome, true, false, IfOk, IfErr, IsErrOf, IsOk, IsSome, OnErr, OnOk, ◌≤◌};
ghost use Rattle.mc_model.specs.synod.Acceptor.{Records};
ghost use Rattle.mc_model.specs.message.Ids.{IsIncarnation, IsNode};
ghost use Rattle.node_kept.specs.StepFault.TheVariants.{Broken, Device, Memory};
ghost use Rattle.node_kept.specs.Input.TheVariants as inputs;
ghost use Rattle.std.specs.Option.{option_copied};
ghost use Rattle.stable_store.specs.Stored.{GoesOn, HasFailed, KeepsStarted, Stays};
ghost use Rattle.node_kept.specs.Granting.{IsLeastAbove};
ghost use Rattle.node_kept.specs.Idling.{FindsNothing};
ghost use Rattle.node_kept.specs.Keeping.{kept_of};
ghost use Rattle.node_model.specs.Kept.{message_at};
ghost use Rattle.node_kept.specs.Listing.{ListsRecorded};
ghost use Rattle.node_kept.specs.Setups.{IsSetup};
ghost use Rattle.node_kept.specs.Steps.{IsFault};
ghost use Rattle.node_kept.specs.Preparing.{packet_in};
ghost use Rattle.node_core.specs.Stops.{IsTold, IsUnknown};
ghost use Rattle.node_core.specs.Permits.{is_life_of};
ghost use Rattle.node_core.specs.Nodes.{HasStopped, HasTaken, HasTakenQuietly, IsAwaited, IsLeft, IsLifeOf, IsStored, IsUnmoved, LeavesAny};
ghost use Rattle.node_core.specs.Nodes.{OpensOver, SavesAny, breaks, fault_in, records_in, seen};

use crate::life::Life;
use crate::open::begin;
use crate::pending::Pending;
use fate_chain::Chain;
use mc_types::{Moment, MsgId};
use node_kept::{Input, Kept, Outputs, Setup, Step, StepFault, StepGroup, Stopped, told};
use stable_store::{StableStore, StoreFault};
use std::marker::Model;
use std::snapshot::Snapshot;
use synod_acceptor::{Change, Packet};

/// One node over the synod, and the store that outlives its stops. A step is prepared first, which changes nothing, and then committed,
/// which takes no memory but what its store takes. Once a save failed it takes no more steps.
#[derive(Drop)]
pub struct Node<S: StableStore> {
    pub(crate) store: S,
    pub(crate) kept: Kept,
    pub(crate) broken: bool,
    // The packet whose save failed since it opened.
    pub(crate) unfinished: Option<Packet>,
    // The group whose save failed since it opened, till it is known what of it is stored.
    pub(crate) waiting: Option<StepGroup>,
    stopped: Option<Stopped>,
}

impl<S: StableStore> Model for Node<S> {
    ghost use Rattle.node_core.specs.Nodes.{Standing};

    ghost Value = { Standing S };

    ghost use Rattle.node_core.specs.Nodes.{IsStored, packets_waiting};

    ghost view = { λ n. record {
      kept = n.kept;
      broken = n.broken;
      store = n.store;
      unfinished = n.unfinished;
      waiting = packets_waiting n.waiting;
      stopped = n.stopped;
    } };

    ghost invariant = { λ n. IsStored n.broken (S.stored n.store) n.unfinished n.waiting n.kept };
}

impl<S: StableStore> Node<S> {
    /// A node that keeps what its store has the records of.
    pub(crate) fn make(store: S, kept: Kept) -> Node<S>
        requires { IsStored false (S.stored store) None None kept }
        ensures kept { result.kept ≡ kept }
        ensures broken { result.broken ≡ false }
        ensures store { result.store ≡ store }
        ensures unfinished { result.unfinished ≡ None }
        ensures waiting { result.waiting ≡ [] }
        ensures stopped { result.stopped ≡ None }
    {
        Node {
            store,
            kept,
            broken: false,
            unfinished: None,
            waiting: None,
            stopped: None,
        }
    }

    /// Prepares what the node does with an input. It changes nothing, and copies what is kept of the message of the input alone, or of
    /// those that a tick does not leave as they are. Broken exactly if a save failed before; else Grant exactly if an attempt is asked for
    /// that is not granted, with the first reason that fits, and NotGranted exactly if what came of an attempt comes that is not open. Each
    /// comes before any memory is taken; a tick is never refused, and one that finds nothing due takes no memory.
    #[inline(always)]
    pub fn prepare_step(&self, input: Input) -> Result<Pending, StepFault>
        ensures ok { IfOk result (IsAwaited self.now input) }
        ensures broken { IsErrOf result Broken ↔ (self.now.broken ≡ true) }
        ensures faults { IfErr result (IsFault (fault_in self.now input)) }
        ensures idle { self.now.broken ≡ false → FindsNothing self.now.kept.setup (kept_of self.now.kept) input → IsOk result }
    {
        self.judge()?;
        let given = Snapshot::of(&input);
        let (step, packet) = self.kept.step(input)?;
        Ok(Pending {
            given,
            step,
            packet,
            was: Snapshot::of(&self.kept),
        })
    }

    /// Does what was prepared, if the node is as it was then: it saves what is to be saved, and then keeps what is to be kept and gives
    /// out what is to be given out. It takes no memory but what its store takes. Broken exactly if a save failed before; it changes nothing,
    /// and nor does Memory, which is from the store. At Device, which comes at the step of a packet alone and only if the device failed, the change
    /// is saved or not, and the node is Broken.
    #[inline(always)]
    pub fn commit(&mut self, pending: Pending) -> Result<Outputs, StepFault>
        requires { pending.was ≡ self.old.kept }
        ensures ok { IfOk result (HasTaken self.old pending.input self.new) }
        ensures broken { IsErrOf result Broken ↔ (self.old.broken ≡ true) }
        ensures stays { IsErrOf result Broken → self.new ≡ self.old }
        ensures memory { IsErrOf result Memory → IsUnmoved (seen S.stored self.old) (seen S.stored self.new) }
        ensures device { IsErrOf result Device → HasStopped (seen S.stored self.old) pending.input (seen S.stored self.new) }
        ensures faults { IfErr result (λ fault. (fault ≡ Broken) ⊎ (fault ≡ Device) ⊎ (fault ≡ Memory)) }
        ensures wants { IsErrOf result Memory → IsSome (packet_in pending.input) }
        ensures rose { IsErrOf result Device → HasFailed (S.stored self.old.store) (S.stored self.new.store) }
        ensures started { OnOk result (KeepsStarted (S.stored self.old.store) (S.stored self.new.store)) }
        ensures goes_on { GoesOn (S.stored self.old.store) (S.stored self.new.store) }
    {
        self.judge()?;
        let Pending { step, packet, .. } = pending;
        let Step { outputs, next } = step;
        match save(&mut self.store, &next.change) {
            Ok(()) => {
                self.kept.install(next);
                Ok(outputs)
            }
            Err(StepFault::Device) => {
                self.broken = true;
                self.unfinished = packet;
                Err(StepFault::Device)
            }
            Err(fault) => Err(fault),
        }
    }

    /// Takes the step of a packet, if it is one that gives nothing out, saves nothing and copies nothing, and the node is not Broken: a promise for which no
    /// round of it runs, a vote that does not concern it or is counted where it stands, and what is told to a question that is not its own. False leaves the
    /// node as it was, and says nothing of the packet: `prepare_step` takes any. It takes no memory.
    #[inline(always)]
    pub fn take_quietly(&mut self, packet: &Packet) -> bool
        ensures taken { result ≡ true → HasTakenQuietly self.old packet.now self.new }
        ensures store { self.new.store ≡ self.old.store }
        ensures stays { result ≡ false → self.new ≡ self.old }
    {
        if self.broken {
            return false;
        }
        self.kept.take_quietly(packet)
    }

    /// Does what was prepared, if the node is as it was then, it is not Broken, and no packet came. So it saves nothing. It takes no memory.
    pub(crate) fn commit_unsaved(&mut self, pending: Pending) -> Outputs
        requires was { pending.was ≡ self.old.kept }
        requires works { self.old.broken ≡ false }
        requires unsaved { packet_in pending.input ≡ None }
        ensures taken { HasTaken self.old pending.input self.new result }
        ensures store { self.new.store ≡ self.old.store }
    {
        let Pending { step, .. } = pending;
        let Step { outputs, next } = step;
        self.kept.install(next);
        outputs
    }

    /// The lowest id above this one, or of all ids, of the messages whose attempt the node would grant now; none if there is none, and if the
    /// node is Broken. It takes no memory.
    pub fn grantable_after(&self, after: Option<MsgId>) -> Option<MsgId>
        ensures { IsLeastAbove after (λ id. fault_in self.now (inputs.Grant id) ≡ None) result }
    {
        if self.broken {
            return None;
        }
        self.kept.grantable_after(after)
    }

    /// The chain of a message whose attempt the node would grant now: it ends in that attempt. None exactly if the node would not grant it. It takes no
    /// memory.
    pub fn attempt(&self, id: MsgId) -> Option<&Chain>
        ensures granted { IsSome result ↔ (fault_in self.now (inputs.Grant id) ≡ None) }
        ensures known { IfSome result (λ chain. (message_at (kept_of self.now.kept) id).known ≡ Some chain.now.decrees) }
        ensures id { IfSome result (λ chain. chain.now.id ≡ id) }
    {
        if self.broken {
            return None;
        }
        self.kept.attempt(id).ok()
    }

    /// Whether a life is this node's, in its incarnation. It takes no memory.
    pub fn is_life(&self, life: &Life) -> bool
        ensures { result ≡ is_life_of self.now life.now }
    {
        life.node() == self.kept.setup().node() && life.incarnation() == self.kept.incarnation()
    }

    /// Opens the node again over what its store has, in the incarnation after the last one that is stored, which is raised last: it
    /// keeps the records of the store and nothing else. The `Life` is the node's own, and an `Err` hands it back. Incarnations and Memory
    /// leave the node and its store as they were; after Device and Damaged it is Broken, and the store has the same records. Once it opened,
    /// `stopped` tells of the save that failed before, if one did. A node in which a group waits is not opened, and told Memory: `settle` comes first.
    #[inline(never)]
    pub fn reopen(&mut self, life: Life) -> Result<Life, (StoreFault, Life)>
        requires { IsLifeOf self.old life }
        ensures ok { IfOk result (OpensOver (S.stored self.old.store) self.old.kept.setup (S.stored self.new.store) self.new) }
        ensures told { OnOk result ((S.stored self.new.store).doubt ≡ 0 → IsTold self.old.kept (records_in self.new.kept) self.old.unfinished self.new.stopped) }
        ensures finished { OnOk result (self.new.unfinished ≡ None) }
        ensures settled { OnOk result ((self.old.waiting ≡ []) × (self.new.waiting ≡ [])) }
        ensures err { IfErr result (λ failed. IsLeft (seen S.stored self.old) failed.0 (seen S.stored self.new)) }
        ensures life { IfErr result (λ failed. failed.1 ≡ life) }
    {
        if self.waits() {
            return Err((StoreFault::Memory, life));
        }
        let setup = self.kept.setup();
        match begin(self.kept.alloc(), &mut self.store, setup) {
            Ok(kept) => {
                self.stopped = told(&kept, self.unfinished.take());
                self.kept = kept;
                self.broken = false;
                Ok(Life::of(setup.node(), self.kept.incarnation()))
            }
            Err(fault) => {
                self.broken = self.broken || breaks(fault);
                Err((fault, life))
            }
        }
    }

    /// Of the save in which it stopped before it was opened again: the packet whose step it was, and whether what was stored then is what
    /// was stored before it, or what it was to store. None if no save failed. It takes no memory.
    pub fn stopped(&self) -> Option<&Stopped>
        ensures { option_copied result ≡ self.now.stopped }
    {
        self.stopped.as_ref()
    }

    /// The clock, which never falls while the node is open.
    pub fn clock(&self) -> Moment
        ensures { result ≡ self.now.kept.clock }
    {
        self.kept.clock()
    }

    /// With what it is set up.
    pub fn setup(&self) -> Setup
        ensures { result ≡ self.now.kept.setup }
    {
        self.kept.setup()
    }

    /// Whether a save failed, or an opening, and it was not opened again since. It takes no memory.
    pub fn is_broken(&self) -> bool
        ensures { result ≡ self.now.broken }
    {
        self.broken
    }

    /// Whether a group waits whose save failed, till `settle` knows what of it is stored. It takes no memory.
    pub fn waits(&self) -> bool
        ensures { (result ≡ false) ↔ (self.now.waiting ≡ []) }
    {
        self.waiting.is_some()
    }

    /// Broken exactly if a save failed before. It takes no memory.
    #[inline(always)]
    pub(crate) fn judge(&self) -> Result<(), StepFault>
        ensures broken { IsErrOf result Broken ↔ (self.now.broken ≡ true) }
        ensures faults { IfErr result (λ fault. fault ≡ Broken) }
    {
        if self.broken {
            return Err(StepFault::Broken);
        }
        Ok(())
    }

    /// What a proof takes of its messages: each of which there is a record is among them, and unless a save failed, the records that it keeps are
    /// those of its store. Whoever opens its store finds these, or what the step of the packet leaves whose save failed; or what those of the group leave
    /// together that waits. The call does nothing.
    pub fn lists(&self)
        ensures lists { ListsRecorded (kept_of self.now.kept) }
        ensures saved { self.now.broken ≡ false → (S.stored self.now.store).holds (kept_of self.now.kept).records }
        ensures finished { self.now.broken ≡ false → (self.now.unfinished ≡ None) × (self.now.waiting ≡ []) }
        ensures left { (left : Records) → (S.stored self.now.store).may_hold left → IsUnknown self.now.kept left self.now.unfinished self.now.waiting }
    {
        self.kept.lists();
    }

    /// What a proof takes of its numbers: it is one of nine nodes at most, and there are its incarnation and its serials. The call does nothing.
    pub fn bounds(&self)
        ensures node { IsNode self.now.kept.setup.node }
        ensures setup { IsSetup self.now.kept.setup }
        ensures incarnation { IsIncarnation self.now.kept.incarnation }
        ensures serial { 1 ≤ self.now.kept.serial }
    {
        self.kept.setup().bounds();
        self.kept.incarnation().bounds();
    }

    /// The store, once the node is done with: it is the one that the node has, as its last save left it.
    pub fn into_store(self) -> S
        ensures store { result ≡ self.store }
        ensures saved { self.broken ≡ false → (S.stored result).holds (records_in self.kept) }
        ensures left { (left : Records) → (S.stored result).may_hold left → IsUnknown self.kept left self.unfinished self.waiting }
    {
        self.store
    }
}

/// Saves a change, if there is one. An `Err` is Device or Memory; then nothing is saved, or it is saved at Device.
#[inline(always)]
fn save<S: StableStore>(store: &mut S, change: &Option<Change>) -> Result<(), StepFault>
    ensures ok { OnOk result (SavesAny change.now (S.stored store.old) (S.stored store.new)) }
    ensures started { OnOk result (KeepsStarted (S.stored store.old) (S.stored store.new)) }
    ensures memory { IsErrOf result Memory → Stays (S.stored store.old) (S.stored store.new) }
    ensures left { LeavesAny change.now (S.stored store.old) (S.stored store.new) }
    ensures goes_on { GoesOn (S.stored store.old) (S.stored store.new) }
    ensures faults { IfErr result (λ fault. (fault ≡ Device) ⊎ (fault ≡ Memory)) }
    ensures rose { IsErrOf result Device → HasFailed (S.stored store.old) (S.stored store.new) }
    ensures change { OnErr result (change.now ≢ None) }
{
    let Some(change) = change else {
        return Ok(());
    };
    match store.save(change) {
        Ok(()) => Ok(()),
        Err(StoreFault::Memory) => Err(StepFault::Memory),
        Err(_) => Err(StepFault::Device),
    }
}

/// Whether a node is Broken after this fault of its store.
fn breaks(fault: StoreFault) -> bool
    ensures { result ≡ breaks fault }
{
    matches!(fault, StoreFault::Device | StoreFault::Damaged)
}
