//! What worlds tell, whatever they are asked.

ghost use Rattle.std.specs.Prelude.{◌≡◌, ◌++◌, List, length, true};
ghost use Rattle.world.specs.Scenes.{Scene};
ghost use Rattle.world_runs.specs.Histories.{BecomesBy, History, packets_of};
ghost use Rattle.world_runs.specs.Statements.{AreTold};
ghost use Rattle.world_runs.specs.Tellings.{AllReceiptsStand, CancelsAreDeletions, GrantsNoneAfterACancel, IdsAreNotRefusedAtOnce};
ghost use Rattle.world_runs.specs.Traces.{
  AcceptedAreKnown,
  Answer,
  AreChosen,
  DeliveriesStand,
  Event,
  GrantsNoneAfterAFate,
  HasOneFate,
  HasOneReceipt,
  LaterQueriesAreTold,
  answers_in,
};

/// Of any answers: a statement is among those of them exactly if the step at its place told the final state of its message, by its chain.
pub fn statements_are_told()
    ensures { (answers : List Answer) → AreTold answers }
{}

/// What a world becomes by some events, and then by others, it becomes by all of them: so what was asked of it by two lists of steps, or by one step and
/// another, and over a start over of its stores, is one history.
pub fn a_history_goes_on()
    ensures { (old mid new : Scene) (first second : List Event) → BecomesBy old first mid → BecomesBy mid second new → BecomesBy old (first ++ second) new }
{}

/// From any moment of its run on, by whatever steps, and over its stores, a world never tells two final states of one message, by whatever nodes.
pub fn a_world_tells_one_fate()
    ensures { (h : History) → HasOneFate (answers_in h.events) }
{}

/// And of each message_id it gives out one receipt at most, however often its nodes start anew.
pub fn a_world_tells_one_receipt()
    ensures { (h : History) → HasOneReceipt (answers_in h.events) }
{}

/// Once a world has told a final state of a message, as DELETED by ESME_ROK to its cancel_sm, it never grants an attempt of it.
pub fn a_world_grants_nothing_after_a_fate()
    ensures { (h : History) → GrantsNoneAfterAFate (answers_in h.events) }
{}

/// ESME_ROK to a cancel_sm states that its message is DELETED; and after that the world never grants an attempt of it.
pub fn a_world_deletes_what_is_cancelled()
    ensures deleted { (h : History) → CancelsAreDeletions (answers_in h.events) }
    ensures no_grant { (h : History) → GrantsNoneAfterACancel (answers_in h.events) }
{}

/// Each receipt is of a message whose id names the node that gives it out, and stands on a chain that ends in a Told of that node.
pub fn a_world_tells_receipts_that_stand()
    ensures { (h : History) → AllReceiptsStand h.events }
{}

/// Before a world that began with new stores tells DELIVERED of a message, it granted an attempt of it at the node of the attempt's author, and took its
/// answer ESME_ROK there, in the same life of the node.
pub fn a_world_tells_deliveries_that_stand()
    ensures { (h : History) → h.first.fresh ≡ true → DeliveriesStand h.events }
{}

/// Before a world that began with new stores tells a final state of a message, a majority of its nodes voted for its chain at one ballot, in packets that
/// were sent before the step that tells it; the world may have started over since.
pub fn a_world_tells_what_was_chosen()
    ensures { (h : History) → h.first.fresh ≡ true → AreChosen (length h.last.members) (packets_of h) (answers_in h.events) }
{}

/// A query_sm that comes to a world after it told a final state of its message, and is answered by ESME_ROK in the same life of its node, is told that
/// state; and no request that comes after ESME_ROK to the submit_sm of its message is answered so that there is no such message, nor is any that names a
/// message by its id refused so at once.
pub fn a_world_answers_by_what_it_told()
    ensures told { (h : History) → LaterQueriesAreTold h.events }
    ensures known { (h : History) → AcceptedAreKnown h.events }
    ensures at_once { (h : History) → IdsAreNotRefusedAtOnce h.events }
{}
