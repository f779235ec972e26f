//! Laws of the fates that scripts over several nodes print: nothing to call, but to cite.

ghost use Rattle.world_fates.specs.Deliveries.{
  AnswersComeInOctets,
  DeliveredIsPrintedOfWhatWasAnswered,
  PrintedDeliveriesStand,
};
ghost use Rattle.world_fates.specs.Example.{ADeliveryIsTold, ALaterQueryIsTold, TwoNodesTellOneFate};
ghost use Rattle.world_fates.specs.Laws.{
  AttemptsAreRefusedAfterAFate,
  DeliveriesComeBeforeFates,
  NoAttemptIsGrantedAfterAFate,
  OneFateIsPrintedByAllNodes,
  PrintedFatesStay,
};
ghost use Rattle.world_fates.specs.Questions.{
  LaterQueriesTellTheFate,
  LaterRequestsAreOfKnownMessages,
};
ghost use Rattle.world_fates.specs.Receipts.{OneReceiptIsPrinted};
ghost use Rattle.world_fates.specs.Refusals.{IdsAreNotRefusedAtOnce};
ghost use Rattle.world_fates.specs.Requests.{
  AcceptedIdsAreNotRefusedAtOnce,
  LaterQueriesAreToldTheFate,
  LaterRequestsAreNotRefusedAsUnknown,
  LaterRequestsAreNotRefusedAtOnce,
  RequestsThatWaitCameInOctets,
};
ghost use Rattle.world_fates.specs.Runs.{AScriptIsARun};

/// A script is a run of the model: its lines lead a cluster to where its nodes and their packets stand, by what came to the nodes.
pub fn a_script_is_a_run()
    ensures { AScriptIsARun }
{}

/// Two final states that a script prints for one message are equal, at whatever nodes, by a query_sm_resp (SMPP 3.4, 4.8.2 and 5.2.28),
/// by a cancel_sm_resp (SMPP 3.4, 4.9.2) or by a delivery receipt (SMPP 3.4, appendix B).
pub fn one_fate_is_printed_by_all_nodes()
    ensures { OneFateIsPrintedByAllNodes }
{}

/// And one delivery receipt at most is printed of each message_id, at whatever node and on whatever session (SMPP 3.4, 5.2.12).
pub fn one_receipt_is_printed()
    ensures { OneReceiptIsPrinted }
{}

/// After a print of a final state each query_sm of the message that the same node answers ESME_ROK tells it, whatever happens meanwhile.
pub fn printed_fates_stay()
    ensures { PrintedFatesStay }
{}

/// And so does each query_sm that comes later, to whatever node: each query_sm_resp (SMPP 3.4, 4.8.2) that is printed afterwards tells that state,
/// unless it answers a query_sm of the message that had come before: one that waits on that session with that sequence_number then (SMPP 3.4, 5.1.4), and
/// that its node holds.
pub fn later_queries_tell_the_fate()
    ensures { LaterQueriesTellTheFate }
{}

/// After ESME_ROK to a submit_sm (SMPP 3.4, 4.4.2) no query_sm or cancel_sm of the message that comes later, and waits, is refused as one for a message
/// that there is not (SMPP 3.4, 5.1.3).
pub fn later_requests_are_of_known_messages()
    ensures { LaterRequestsAreOfKnownMessages }
{}

/// By lines: after a print of a final state each query_sm of the message (SMPP 3.4, 4.8.1) that comes with a sequence_number of its own, on whatever session
/// of whatever node, is told that state if it is answered ESME_ROK (SMPP 3.4, 4.8.2).
pub fn later_queries_are_told_the_fate()
    ensures { LaterQueriesAreToldTheFate }
{}

/// And after ESME_ROK to a submit_sm no query_sm or cancel_sm of its message that comes so, and waits, is refused as one for a message that there is not
/// (SMPP 3.4, 4.8, 4.9 and 5.1.3).
pub fn later_requests_are_not_refused_as_unknown()
    ensures { LaterRequestsAreNotRefusedAsUnknown }
{}

/// And none that comes so is refused at once, if each frame with that sequence_number reads as a PDU (SMPP 3.4, 3.2 and 5.1.3).
pub fn later_requests_are_not_refused_at_once()
    ensures { LaterRequestsAreNotRefusedAtOnce }
{}

/// Nor is any frame that reads as such a request, whatever is at hand.
pub fn accepted_ids_are_not_refused_at_once()
    ensures { AcceptedIdsAreNotRefusedAtOnce }
{}

/// Whether a sequence_number is free on a session is told by octets: what waits there came in the octets of an earlier line on that session, which was not
/// gone meanwhile, as a submit_sm, a query_sm or a cancel_sm with its sequence_number (SMPP 3.4, 4.4.1, 4.8.1, 4.9.1 and 5.1.4).
pub fn requests_that_wait_came_in_octets()
    ensures { RequestsThatWaitCameInOctets }
{}

/// And no node grants an attempt of it any more.
pub fn no_attempt_is_granted_after_a_fate()
    ensures { NoAttemptIsGrantedAfterAFate }
{}

/// So a line that asks for one is refused: no deliver_sm (SMPP 3.4, 4.6.1) goes out.
pub fn attempts_are_refused_after_a_fate()
    ensures { AttemptsAreRefusedAfterAFate }
{}

/// And each deliver_sm of an attempt goes out by such a line, before a final state of its message is printed.
pub fn deliveries_come_before_fates()
    ensures { DeliveriesComeBeforeFates }
{}

/// If DELIVERED is printed of a message, by a query_sm_resp (SMPP 3.4, 4.8.2 and 5.2.28) or by a delivery receipt (SMPP 3.4, appendix B), then
/// an attempt of it was granted at a node before and answered there.
pub fn printed_deliveries_stand()
    ensures { PrintedDeliveriesStand }
{}

/// An attempt is answered by ESME_ROK only in octets: its deliver_sm (SMPP 3.4, 4.6.1) went out on a session that stays, and on that session a
/// deliver_sm_resp (SMPP 3.4, 4.6.2) with the same sequence_number ends.
pub fn answers_come_in_octets()
    ensures { AnswersComeInOctets }
{}

/// So DELIVERED is printed only of a message whose deliver_sm went out and was answered ESME_ROK, on that session and with that
/// sequence_number.
pub fn delivered_is_printed_of_what_was_answered()
    ensures { DeliveredIsPrintedOfWhatWasAnswered }
{}

/// A query_sm or a cancel_sm with the message_id of an id (SMPP 3.4, 4.8.1 and 4.9.1) is at no time refused at once as one for a message that there
/// is not: not either if a node has no room for it.
pub fn ids_are_not_refused_at_once()
    ensures { IdsAreNotRefusedAtOnce }
{}

/// The laws speak of something: a message is cancelled at one node of three, which answers ESME_ROK and sends its receipt, and another node
/// tells DELETED.
pub fn two_nodes_tell_one_fate()
    ensures { TwoNodesTellOneFate }
{}

/// And a deliver_sm goes out, is answered ESME_ROK, and the receipt tells DELIVRD.
pub fn a_delivery_is_told()
    ensures { ADeliveryIsTold }
{}

/// And a query_sm comes later, at another node, with a sequence_number that is used for it alone, and is told DELETED.
pub fn a_later_query_is_told()
    ensures { ALaterQueryIsTold }
{}
