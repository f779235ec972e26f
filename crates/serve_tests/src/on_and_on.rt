//! A server that goes on: past the end of a part of its journal, and past the last message_id of an incarnation.

use crate::clients::{Client, TAKEN};
use crate::same::assert_same;
use crate::served::{Case, served};
use server::Ending;
use stable_store::ListStore;
use std::alloc::Global;
use std::process::Abort;

/// How many messages the client submits.
const MESSAGES: u32 = 100;

/// How many digits a message_id has.
const DIGITS: usize = 10;

/// A submit_sm_resp with ESME_ROK up to its sequence_number.
const ACCEPTED: [u8; 12] = [0, 0, 0, 27, 0x80, 0, 0, 4, 0, 0, 0, 0];

/// The message_id of an answer, which is a submit_sm_resp with ESME_ROK and this sequence_number.
fn id_in(rt: &impl Abort, alloc: Global, answer: &[u8], sequence: u32) -> u64 {
    let header = [ACCEPTED.as_slice(), &sequence.to_be_bytes()]
        .concat(alloc)
        .expect(rt, "memory");
    assert_same(rt, &answer.len(), &TAKEN.len());
    assert!(rt; answer.starts_with(&header));
    let mut id = 0u64;
    for digit in answer.iter().skip(header.len()).take(DIGITS) {
        id = id
            .saturating_mul(10)
            .saturating_add(u64::from(digit.saturating_sub(b'0')));
    }
    id
}

/// The message_ids of all answers.
fn ids_in(rt: &impl Abort, alloc: Global, answers: &[Vec<u8>]) -> Vec<u64> {
    let mut ids = Vec::new(alloc);
    let mut sequence = 1u32;
    for answer in answers {
        sequence = sequence.saturating_add(1);
        ids.push(id_in(rt, alloc, answer, sequence))
            .expect(rt, "memory");
    }
    ids
}

/// An incarnation has sixty message_ids here, so the node starts anew behind thirty; and a part of the journal is closed behind a hundred entries. The client
/// is bound all the while, each message is accepted, and no message_id comes twice.
#[test]
fn a_server_goes_on(rt: HostRuntime) {
    let alloc = rt.alloc();
    let case = Case {
        client: Client::Steady(MESSAGES),
        first_serial: 99_940,
        part_entries: 100,
    };
    let (heard, ended) = served(&rt, alloc, ListStore::make(alloc), case);
    let ids = ids_in(&rt, alloc, &heard);
    assert_same(&rt, &ids.len(), &(MESSAGES as usize));
    assert!(&rt;
        ids.iter()
            .zip(ids.iter().skip(1))
            .all(|(one, next)| one < next)
    );
    assert_same(&rt, &ids.first().copied(), &Some(1_000_199_940));
    let last = ids.last().copied().unwrap_or(0);
    assert!(&rt; last >= 1_000_300_000);
    assert!(&rt; ended.parts >= 3);
    assert_same(&rt, &ended.ending, &Ending::Asked);
}
