//! A server whose node fails in a save of several packets.

use crate::clients::{Client, REFUSED};
use crate::crowd::{accepted_id, is_of_second_life};
use crate::failing_group_store::FailingGroupStore;
use crate::same::assert_same;
use crate::served::{Case, served};
use server::Ending;
use stable_store::Found;
use std::alloc::Global;
use std::process::Abort;

/// How many octets of an answer stand in front of its sequence_number.
const WITHOUT_NUMBER: usize = 12;

/// What is answered to a query_sm of a message that is ENROUTE (1), but for its message_id: ESME_ROK and the sequence_number 1; no date, no error.
const BEFORE_ID: &[u8] = b"\0\0\0\x1e\x80\0\0\x03\0\0\0\0\0\0\0\x01";

const BEHIND_ID: &[u8] = b"\0\0\x01\0";

/// What is wanted as answer to a query_sm of each message that these accept. The others say ESME_RSYSERR.
fn wanted(rt: &impl Abort, alloc: Global, answers: &[Vec<u8>]) -> Vec<Vec<u8>> {
    let mut states = Vec::new(alloc);
    for answer in answers {
        match accepted_id(answer) {
            Some(id) => {
                let state = [BEFORE_ID, id, BEHIND_ID]
                    .concat(alloc)
                    .expect(rt, "memory");
                states.push(state).expect(rt, "memory");
            }
            None => assert_same(
                rt,
                &answer.get(..WITHOUT_NUMBER),
                &REFUSED.get(..WITHOUT_NUMBER),
            ),
        }
    }
    states
}

/// How many of these are answers to a submit_sm: the others, behind them, are answers to a query_sm.
fn submissions_in(answers: &[Vec<u8>]) -> usize {
    answers
        .iter()
        .take_while(|answer| answer.get(7) == Some(&4))
        .count()
}

/// The node started anew, since its store failed, and no message that was accepted before or behind that is unknown at the end.
fn assert_known(rt: &impl Abort, alloc: Global, heard: &[Vec<u8>]) {
    let count = submissions_in(heard);
    let answers = heard.get(..count).expect(rt, "answers");
    let states = heard.get(count..).expect(rt, "states");
    let wanted = wanted(rt, alloc, answers);
    assert_same(rt, &states, &wanted.as_slice());
    let first = answers.first().and_then(|answer| accepted_id(answer));
    assert_same(rt, &first, &Some(b"1000100001".as_slice()));
    let is_anew = answers.iter().any(|answer| is_of_second_life(answer));
    assert!(rt; is_anew);
}

#[test]
fn a_server_goes_on_if_nothing_of_a_group_is_saved(rt: HostRuntime) {
    let alloc = rt.alloc();
    let store = FailingGroupStore::make(alloc, Found::Before);
    let (heard, ended) = served(&rt, alloc, store, Case::of(Client::Crowd));
    assert_known(&rt, alloc, &heard);
    assert_same(&rt, &ended.ending, &Ending::Asked);
}

#[test]
fn a_server_goes_on_if_all_of_a_group_is_saved(rt: HostRuntime) {
    let alloc = rt.alloc();
    let store = FailingGroupStore::make(alloc, Found::After);
    let (heard, ended) = served(&rt, alloc, store, Case::of(Client::Crowd));
    assert_known(&rt, alloc, &heard);
    assert_same(&rt, &ended.ending, &Ending::Asked);
}
