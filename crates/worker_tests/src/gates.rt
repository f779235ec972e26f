//! Attempts through a gate.

use crate::attempts::{DELIVERY, attempted, error_by};
use crate::same::assert_same;
use pdu_codec::{Body, Pdu};
use std::alloc::Global;
use std::process::Abort;
use std::sync::{Condvar, Mutex, Wait};
use std::thread;
use std::thread::Threads;
use worker_parts::{Gate, attempt_octets};

/// Where a thread of tests leaves the sequence_number with which an ESME answers, or that it answers nothing.
#[derive(Drop)]
struct Desk {
    // None until it is known.
    answer: Mutex<Option<Option<u32>>>,
    known: Condvar,
}

impl Desk {
    fn new() -> Desk {
        Desk {
            answer: Mutex::new(None),
            known: Condvar::new(),
        }
    }

    fn tell(&self, rt: &impl Wait, sequence: Option<u32>) {
        *self.answer.lock(rt) = Some(sequence);
        self.known.notify_all();
    }
}

/// A gate that waits until the answer of an ESME is known. It carries a known delivery alone.
#[derive(Drop)]
struct WaitingGate<'a> {
    desk: &'a Desk,
}

impl<R: Wait> Gate<R> for WaitingGate<'_> {
    fn deliver(&mut self, rt: &R, account: &[u8], octets: &[u8]) -> Option<Pdu> {
        if account != b"sme1".as_slice() || octets != DELIVERY {
            return None;
        }
        let answer = self.desk.answer.lock(rt);
        let answer = self
            .desk
            .known
            .wait_while(rt, answer, |answer| answer.is_none());
        let sequence = (*answer)??;
        Some(Pdu {
            status: 0,
            sequence,
            body: Body::DeliverSmResp(None),
        })
    }
}

/// The error of the attempt that goes through a gate; none if the message is delivered.
fn error_through<R: Wait + Abort, G: Gate<R>>(rt: &R, alloc: Global, gate: &mut G) -> Option<u16> {
    let chain = attempted(rt, alloc);
    let octets = attempt_octets(alloc, &chain, 7).expect(rt, "octets");
    let answer = gate.deliver(rt, chain.submission().target.octets(), &octets);
    drop((chain, octets));
    error_by(rt, answer)
}

/// The error of an attempt that another thread answers.
fn error_answered<R: Threads + Wait + Abort + Sync>(
    rt: &R,
    alloc: Global,
    sequence: Option<u32>,
) -> Option<u16> {
    let desk = Desk::new();
    let attempt = || {
        let mut gate = WaitingGate { desk: &desk };
        error_through(rt, alloc, &mut gate)
    };
    thread::join(rt, attempt, || desk.tell(rt, sequence)).0
}

#[test]
fn an_answer_comes_through_the_gate(rt: HostRuntime) {
    let alloc = rt.alloc();
    let right = error_answered(&rt, alloc, Some(7));
    let wrong = error_answered(&rt, alloc, Some(8));
    let none = error_answered(&rt, alloc, None);
    assert_same(&rt, &(right, wrong, none), &(None, Some(997), Some(997)));
}
