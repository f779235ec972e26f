//! The end of a cluster, or of a part of its journal.

ghost use Rattle.std.specs.Prelude.{◌≡◌, [], IfErr, IfOk, length};
ghost use Rattle.node_laws.specs.Clusters.{kept_reached};
ghost use Rattle.journal_parts.specs.Telling.{
  AcceptedAreKnown,
  AllReceiptsStand,
  AreChosen,
  CancelsTellDeleted,
  DeliveriesStand,
  DeliveriesStandInTheRun,
  GrantNoneAfterACancel,
  GrantNoneAfterAFate,
  IdsAreNotRefusedAtOnce,
  LaterQueriesAreTold,
  TellOneFate,
  TellOneReceipt,
};
ghost use Rattle.journal_parts.specs.Closing.{AllStand, Behind, IsClosed, entries_in};
ghost use Rattle.journal_parts.specs.Marks.{EachOnce};

use crate::cluster::Cluster;
use crate::opened::Opened;
use journal_parts::{Begins, Journal, Seat};
use stable_store::StableStore;

/// Why a cluster is not closed.
#[derive(Clone, Copy, Debug, PartialEq, Eq)]
pub enum SeatsFault {
    /// The numbers of the slips are not those of the entries, each once: a seat is missing, or is of another cluster.
    Missing,
    /// A slip is not of the entry that has its number, or the entries of a node are not those that it has.
    Differs,
}

/// What comes back of a cluster that is not closed: it goes on as before, with its seats.
#[derive(Drop)]
pub struct SeatsOut<S: StableStore, L: Begins> {
    pub fault: SeatsFault,
    pub cluster: Cluster<S, L>,
    pub seats: Vec<Seat<L>>,
}

impl<S: StableStore + Drop, L: Begins> Cluster<S, L> {
    /// Closes a cluster with all seats that have slips: its journal, in which each node's entries are those that it has, and each slip of a seat stands at its
    /// number, which rise. It takes no memory.
    ///
    /// What is said of states, receipts, grants and later requests is said of the run that led to the journal and of its entries together: also of what was told
    /// over the same stores before nodes opened them.
    ///
    /// Missing comes if the numbers of the slips are not those of the entries, each once, and Differs else if the comparison fails. Then the cluster and the
    /// seats come back. No clause says that seats of this cluster never meet Differs: tests do, of answers that were not Full.
    pub fn close(self, seats: Vec<Seat<L>>) -> Result<Journal<S>, SeatsOut<S, L>>
        ensures closed { IfOk result (λ journal. IsClosed S.stored L.cluster L.kept L.numbers journal) }
        ensures each { IfOk result (λ journal. EachOnce (length (entries_in journal)) seats.items) }
        ensures stand { IfOk result (λ journal. AllStand L.numbers.count (entries_in journal) seats.items) }
        ensures fate { IfOk result (λ journal. Behind S.stored L.cluster L.kept L.numbers journal
            (λ behind inputs. TellOneFate L.cluster inputs (entries_in journal))) }
        ensures receipts { IfOk result (λ journal. Behind S.stored L.cluster L.kept L.numbers journal
            (λ behind inputs. TellOneReceipt L.cluster inputs (entries_in journal))) }
        ensures grants { IfOk result (λ journal. Behind S.stored L.cluster L.kept L.numbers journal
            (λ behind inputs. GrantNoneAfterAFate L.cluster inputs (entries_in journal))) }
        ensures cancels { IfOk result (λ journal. Behind S.stored L.cluster L.kept L.numbers journal
            (λ behind inputs. CancelsTellDeleted L.cluster inputs (entries_in journal))) }
        ensures cancelled { IfOk result (λ journal. Behind S.stored L.cluster L.kept L.numbers journal
            (λ behind inputs. GrantNoneAfterACancel L.cluster inputs (entries_in journal))) }
        ensures receipts_stand { IfOk result (λ journal. Behind S.stored L.cluster L.kept L.numbers journal
            (λ behind inputs. AllReceiptsStand (entries_in journal))) }
        ensures chosen { IfOk result (λ journal. Behind S.stored L.cluster L.kept L.numbers journal
            (λ behind inputs. AreChosen L.cluster.nodes (kept_reached L.cluster inputs).packets (entries_in journal))) }
        ensures deliveries { IfOk result (λ journal. Behind S.stored L.cluster L.kept L.numbers journal
            (λ behind inputs. DeliveriesStandInTheRun L.cluster behind inputs (entries_in journal))) }
        ensures deliveries_here { IfOk result (λ journal. Behind S.stored L.cluster L.kept L.numbers journal
            (λ behind inputs. inputs ≡ [] → DeliveriesStand (entries_in journal))) }
        ensures queries { IfOk result (λ journal. Behind S.stored L.cluster L.kept L.numbers journal
            (λ behind inputs. LaterQueriesAreTold L.cluster inputs (entries_in journal))) }
        ensures accepted { IfOk result (λ journal. Behind S.stored L.cluster L.kept L.numbers journal
            (λ behind inputs. AcceptedAreKnown L.cluster inputs (entries_in journal))) }
        ensures at_once { IfOk result (λ journal. Behind S.stored L.cluster L.kept L.numbers journal
            (λ behind inputs. IdsAreNotRefusedAtOnce (entries_in journal))) }
        ensures seats { IfErr result (λ out. out.seats.items ≡ seats.items) }
    {
        let mut opened = Opened::of(self);
        match opened.judge(&seats) {
            Ok(()) => Ok(opened.into_journal()),
            Err(fault) => Err(SeatsOut {
                fault,
                cluster: opened.into_cluster(),
                seats,
            }),
        }
    }
}
