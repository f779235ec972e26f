//! The laws of what the octets that a script writes tell of fates: nothing to call, but to cite.

ghost use Rattle.octet_laws.specs.Example.{ACancelIsAnswered, TwoLinesTellOneFate};
ghost use Rattle.octet_laws.specs.Laws.{
  ACancelledMessageStaysDeleted,
  EachAnswerIsToAQuery,
  LinesWriteOn,
  OneFateIsWritten,
  OneReceiptIsWritten,
  WhatIsReadIsSpelled,
};

/// Of the lines that a script writes all that tell a final state of one message, in a query_sm_resp with ESME_ROK (SMPP 3.4, 4.8.2 and 5.2.28) or in a
/// delivery receipt (SMPP 3.4, 5.2.12 and appendix B), tell the same.
pub fn one_fate_is_written()
    ensures { OneFateIsWritten }
{}

/// And of them one at most is a delivery receipt of each message_id.
pub fn one_receipt_is_written()
    ensures { OneReceiptIsWritten }
{}

/// And so do those that the codec reads: what `read_pdu` finds to be a query_sm_resp or a deliver_sm is one as the law has it.
pub fn what_is_read_is_spelled()
    ensures { WhatIsReadIsSpelled }
{}

/// Each cancel_sm_resp with ESME_ROK that a script writes (SMPP 3.4, 4.9.2) answers a cancel_sm (SMPP 3.4, 4.9.1) that came on its session, with its
/// sequence_number. After the line by which it is written no line that asks for an attempt of the message of that cancel_sm writes a deliver_sm, and each
/// query_sm_resp with ESME_ROK for the message (SMPP 3.4, 4.8.2) to a query_sm that came later tells DELETED.
pub fn a_cancelled_message_stays_deleted()
    ensures { ACancelledMessageStaysDeleted }
{}

/// And each query_sm_resp with ESME_ROK that a script writes (SMPP 3.4, 4.8.2) answers a query_sm (SMPP 3.4, 4.8.1) for its message that came on its
/// session, with its sequence_number.
pub fn each_answer_is_to_a_query()
    ensures { EachAnswerIsToAQuery }
{}

/// What these call written is the text of the script: that of the first lines is the beginning of that of all.
pub fn lines_write_on()
    ensures { LinesWriteOn }
{}

/// The law speaks of something: a delivery receipt and a query_sm_resp at another node tell one fate.
pub fn two_lines_tell_one_fate()
    ensures { TwoLinesTellOneFate }
{}

/// And so does that of cancel_sm: in the same script one is answered ESME_ROK, and a query_sm that came later.
pub fn a_cancel_is_answered()
    ensures { ACancelIsAnswered }
{}
