//! Laws of journals: nothing to call, but to cite.

ghost use Rattle.std.specs.Prelude.{ℕ, ◌≤◌, Bool, [], ◌++◌, List, Ok, map, reverse};
ghost use Rattle.mc_model.specs.synod.Packet.{Packet};
ghost use Rattle.mc_model.specs.cluster.Steps.{Cluster, setup_of};
ghost use Rattle.mc_model.specs.node.Setup.{Setup};
ghost use Rattle.node_model.specs.Kept.{Kept};
ghost use Rattle.node_model.specs.Stepped.{opened_new};
ghost use Rattle.node_laws.specs.Clusters.{MayHappen, NodeInput, kept_reached};
ghost use Rattle.node_core.specs.Input.{Input};
ghost use Rattle.node_core.specs.Keeping.{kept_of};
ghost use Rattle.node_core.specs.Listing.{ListsRecorded};
ghost use Rattle.node_core.specs.Nodes.{HasTaken, Standing};
ghost use Rattle.node_core.specs.Outputs.{Outputs};
ghost use Rattle.node_core.specs.Reach.{Reach};
ghost use Rattle.node_core.specs.Steps.{input_of};
ghost use Rattle.node_laws.specs.Runs.{MayCome};
ghost use Rattle.journal_laws.specs.Taken.{StartsAnew, StopsAndStartsAnew, done_by};
ghost use Rattle.journal_laws.specs.Journals.{Entry, IsJournal, IsOwnRun, IsOwnStep, RunsOn, done_in, packets_sent};
ghost use Rattle.world_runs.specs.Given.{Given};
ghost use Rattle.world_runs.specs.Step.{Step};
ghost use Rattle.world_runs.specs.Traces.{Reaches};
ghost use Rattle.journal_laws.specs.Example.{IsQuiet, alone, before, worked};
ghost use Rattle.journal_laws.specs.Joining.{IsCut, IsListed};
ghost use Rattle.journal_laws.specs.Likeness.{AreAllAlike};
ghost use Rattle.journal_laws.specs.Parts.{IsPart, LeadTo};
ghost use Rattle.journal_laws.specs.Reopened.{TellsIt, WasToldDeleted, cancelled, none_lost, none_new, reopened};
ghost use Rattle.journal_laws.specs.OldStores.{AreLeft, IsJournalOver, kept_opened, openings};
ghost use Rattle.journal_laws.specs.Openings.{KeepsAsLeft, KeepsAsNew};
ghost use Rattle.journal_laws.specs.Telling.{
  AcceptedAreKnown,
  AllReceiptsStand,
  AreChosen,
  CancelsTellDeleted,
  DeliveriesStand,
  DeliveriesStandInTheRun,
  GrantNoneAfterACancel,
  GrantNoneAfterAFate,
  IdsAreNotRefusedAtOnce,
  KeepsItsPromises,
  LaterQueriesAreTold,
  TellOneFate,
  TellOneReceipt,
};

use stable_store::StableStore;

/// The journal of a cluster is a run of it: if each node's entries are its own run, and each packet that comes was sent before, then the run of the
/// cluster goes on by the steps of all entries, in the order of the journal, with what they gave.
pub fn a_journal_is_a_run()
    ensures { (cluster : Cluster) (behind : List Packet) (inputs : List NodeInput) (entries : List Entry) (ends : ℕ → Kept) →
        IsJournal cluster behind inputs entries ends → RunsOn cluster behind inputs entries ends }
{}

/// A step that a node of the code took, of what may come to it, is one of its own run: its entry has what the node gave out, and the number of the packet.
pub fn a_step_of_a_node_is_its_own<S>()
    ensures { (old new : Standing S) (number : ℕ) (input : Input) (outputs : Outputs) →
        MayCome old.kept.setup (kept_of old.kept) (input_of old.kept.setup (kept_of old.kept) input) → HasTaken old input new outputs →
        IsOwnStep old.kept.setup (kept_of old.kept) (done_by old.kept.setup.node number input outputs) }
{}

/// A node that is opened again in a later incarnation, and tells of no save (`Node::stopped`), has started anew, which is a step of its own run: its entry
/// names no save. Openings that failed before it may have taken any incarnations between.
pub fn a_start_anew_of_a_node_is_its_own<S: StableStore>()
    ensures { StartsAnew S.stored }
{}

/// And if it tells of the save of a packet, it stopped in that save and then started anew, which are two steps of its own run: its entry names that save, by
/// the number of the packet and by what was found.
pub fn a_stop_of_a_node_is_its_own<S: StableStore>()
    ensures { StopsAndStartsAnew S.stored }
{}

/// A journal that begins where the run of another one leads is a part of one journal: both of them, one after the other. And each journal can be cut so, at
/// any place: its front is a journal, and what is behind is one from where the front leads.
pub fn a_journal_goes_on()
    ensures both { (cluster : Cluster) (behind : List Packet) (inputs : List NodeInput) (first second : List Entry) (middles ends : ℕ → Kept) →
        IsJournal cluster behind inputs first middles → (way : RunsOn cluster behind inputs first middles) →
        IsJournal cluster behind way.last second ends → IsJournal cluster behind inputs (first ++ second) ends }
    ensures cut { (cluster : Cluster) (behind : List Packet) (inputs : List NodeInput) (first second : List Entry) (ends : ℕ → Kept) →
        IsJournal cluster behind inputs (first ++ second) ends → IsCut cluster behind inputs first second ends }
{}

/// And a journal of nodes that opened over stores which a run of the same nodes left, or over new ones, goes on with that run: behind it each node whose
/// store was not new starts anew, once, and the packets of the journal are numbered on.
pub fn a_journal_goes_on_over_old_stores()
    ensures { (cluster : Cluster) (inputs : List NodeInput) (fresh : ℕ → Bool) (lost : ℕ → ℕ) (entries : List Entry) (ends : ℕ → Kept) →
        IsJournalOver cluster inputs fresh lost entries ends →
        IsJournal cluster (kept_reached cluster inputs).packets (openings fresh lost cluster.nodes ++ inputs) entries ends }
{}

/// A part of a journal, by what the nodes keep where it begins, is a journal behind each run that leads there. And one that begins where another one leads is a
/// part with it: both of them, one after the other.
pub fn a_part_is_a_journal()
    ensures behind { (cluster : Cluster) (behind : List Packet) (inputs : List NodeInput) (kept : ℕ → Kept) (packets : List Packet) (entries : List Entry)
        (ends : ℕ → Kept) → LeadTo cluster behind inputs kept packets → IsPart cluster kept packets entries ends →
        IsJournal cluster behind inputs entries ends }
    ensures both { (cluster : Cluster) (kept middles ends : ℕ → Kept) (packets : List Packet) (first second : List Entry) →
        IsPart cluster kept packets first middles → IsPart cluster middles (reverse (packets_sent first) ++ packets) second ends →
        IsPart cluster kept packets (first ++ second) ends }
{}

/// Nodes that opened are led to what they keep then, and no packet has a number: by no input if all stores are new; and over stores that a run of the same
/// nodes left by that run and a start anew of each node whose store is not new. So their journal begins there, as a part.
pub fn nodes_that_open_begin_a_journal()
    ensures new { (cluster : Cluster) → LeadTo cluster [] [] (λ node. opened_new (setup_of cluster node)) [] }
    ensures over { (cluster : Cluster) (inputs : List NodeInput) (fresh : ℕ → Bool) (lost : ℕ → ℕ) → AreLeft cluster inputs fresh lost →
        LeadTo cluster (kept_reached cluster inputs).packets (openings fresh lost cluster.nodes ++ inputs) (kept_opened cluster inputs fresh lost) [] }
{}

/// A node of the code that opened keeps just that, unless the disk returned what nobody wrote: over a new store what the model's node opens with, and over
/// the records that a node left what that node keeps as it starts anew, if it listed each message of which it had a record.
pub fn a_node_keeps_what_it_opened_over<S: StableStore>()
    ensures new { KeepsAsNew S.stored }
    ensures left { KeepsAsLeft S.stored }
{}

/// And wherever a run leads a node, it lists each message of which it has a record.
pub fn a_run_lists_its_records()
    ensures { (cluster : Cluster) (inputs : List NodeInput) (node : ℕ) → ListsRecorded ((kept_reached cluster inputs).kept node) }
{}

/// What is a node's own run stays it in a list of its own, of the same entries.
pub fn an_own_run_is_copied()
    ensures { (setup : Setup) (k last : Kept) (entries others : List Entry) → AreAllAlike entries others → IsOwnRun setup k (done_in entries) last →
        IsOwnRun setup k (done_in others) last }
{}

/// And each run of a cluster is a journal, of its steps with what they gave: so a journal is no more and no less than a run.
pub fn a_run_is_a_journal()
    ensures { (cluster : Cluster) (behind : List Packet) (inputs last : List NodeInput) (taken : List Step) (givens : List Given) → cluster.nodes ≤ 9 →
        MayHappen cluster last → Reaches cluster behind inputs taken (map Ok givens) last → IsListed cluster behind inputs taken givens last }
{}

/// So no two final states that are told of one message differ, whichever nodes tell them: by its entries, or by the run that led to it.
pub fn a_journal_tells_one_fate()
    ensures { (cluster : Cluster) (behind : List Packet) (inputs : List NodeInput) (entries : List Entry) (ends : ℕ → Kept) →
        IsJournal cluster behind inputs entries ends → TellOneFate cluster inputs entries }
{}

/// And of each message_id one receipt at most is told, by the run that led to the journal and by its entries together, however often nodes start anew: so
/// none is told again over the stores that a run left.
pub fn a_journal_tells_one_receipt()
    ensures { (cluster : Cluster) (behind : List Packet) (inputs : List NodeInput) (entries : List Entry) (ends : ℕ → Kept) →
        IsJournal cluster behind inputs entries ends → TellOneReceipt cluster inputs entries }
{}

/// And each receipt is of a message whose id names the node that tells it, and stands on a chain that ends in a Told of that node.
pub fn a_journal_tells_receipts_that_stand()
    ensures { (cluster : Cluster) (behind : List Packet) (inputs : List NodeInput) (entries : List Entry) (ends : ℕ → Kept) →
        IsJournal cluster behind inputs entries ends → AllReceiptsStand entries }
{}

/// And behind what told a final state of a message, an entry or the run that led to the journal, no entry grants an attempt of it.
pub fn a_journal_grants_nothing_after_a_fate()
    ensures { (cluster : Cluster) (behind : List Packet) (inputs : List NodeInput) (entries : List Entry) (ends : ℕ → Kept) →
        IsJournal cluster behind inputs entries ends → GrantNoneAfterAFate cluster inputs entries }
{}

/// And ESME_ROK to a cancel_sm states that its message is DELETED; so behind it no entry grants an attempt of the message.
pub fn a_journal_deletes_what_is_cancelled()
    ensures deleted { (cluster : Cluster) (behind : List Packet) (inputs : List NodeInput) (entries : List Entry) (ends : ℕ → Kept) →
        IsJournal cluster behind inputs entries ends → CancelsTellDeleted cluster inputs entries }
    ensures no_grant { (cluster : Cluster) (behind : List Packet) (inputs : List NodeInput) (entries : List Entry) (ends : ℕ → Kept) →
        IsJournal cluster behind inputs entries ends → GrantNoneAfterACancel cluster inputs entries }
{}

/// And before an entry tells DELIVERED of a message, an attempt of it was granted at the node of the attempt's author, and its answer ESME_ROK was taken
/// there, in the same life of the node: by earlier entries, if all stores were new, and else by them or before them.
pub fn a_journal_tells_deliveries_that_stand()
    ensures new { (cluster : Cluster) (behind : List Packet) (entries : List Entry) (ends : ℕ → Kept) →
        IsJournal cluster behind [] entries ends → DeliveriesStand entries }
    ensures any { (cluster : Cluster) (behind : List Packet) (inputs : List NodeInput) (entries : List Entry) (ends : ℕ → Kept) →
        IsJournal cluster behind inputs entries ends → DeliveriesStandInTheRun cluster behind inputs entries }
{}

/// And before an entry tells a final state of a message, a majority of the nodes voted for its chain at one ballot, in packets that were sent before the
/// journal or by earlier entries.
pub fn a_journal_tells_what_was_chosen()
    ensures { (cluster : Cluster) (behind : List Packet) (inputs : List NodeInput) (entries : List Entry) (ends : ℕ → Kept) →
        IsJournal cluster behind inputs entries ends → AreChosen cluster.nodes (kept_reached cluster inputs).packets entries }
{}

/// And a query_sm whose entry stands behind what told a final state of its message, and that is answered by ESME_ROK in the same life of its node, is
/// told that state; and no request whose entry stands behind ESME_ROK to the submit_sm of its message is answered so that there is no such message,
/// nor is any that names a message by its id refused so at once.
pub fn a_journal_answers_by_what_it_told()
    ensures told { (cluster : Cluster) (behind : List Packet) (inputs : List NodeInput) (entries : List Entry) (ends : ℕ → Kept) →
        IsJournal cluster behind inputs entries ends → LaterQueriesAreTold cluster inputs entries }
    ensures known { (cluster : Cluster) (behind : List Packet) (inputs : List NodeInput) (entries : List Entry) (ends : ℕ → Kept) →
        IsJournal cluster behind inputs entries ends → AcceptedAreKnown cluster inputs entries }
    ensures at_once { (cluster : Cluster) (behind : List Packet) (inputs : List NodeInput) (entries : List Entry) (ends : ℕ → Kept) →
        IsJournal cluster behind inputs entries ends → IdsAreNotRefusedAtOnce entries }
{}

/// So a journal keeps each of these promises together with the run that led to it.
pub fn a_journal_keeps_its_promises()
    ensures { (cluster : Cluster) (behind : List Packet) (inputs : List NodeInput) (entries : List Entry) (ends : ℕ → Kept) →
        IsJournal cluster behind inputs entries ends → KeepsItsPromises cluster behind inputs entries }
{}

/// Such journals are: a node promises and proposes, stops as it has saved its vote, starts anew, and refuses the Prepare that comes once more. What it gives
/// out but for packets is nothing.
pub fn a_journal_is_worked()
    ensures { (quiet : ℕ → Given) → IsQuiet quiet → (ends : ℕ → Kept) × IsJournal alone [] before (worked quiet) ends }
{}

/// So are such over old stores: a node that told ESME_ROK to a cancel_sm opens over the store that it left, follows the vote of its record at a tick, and tells
/// the receipt on DELETED.
pub fn a_journal_over_an_old_store_is_worked()
    ensures cancelled { WasToldDeleted }
    ensures journal { (quiet : ℕ → Given) → IsQuiet quiet → (telling : Given) → TellsIt telling → (reach : Reach)
        → (ends : ℕ → Kept) × IsJournalOver alone cancelled none_new none_lost (reopened quiet telling reach) ends }
{}
