//! What the program prints. A line that could not be written is missed by whoever compares the output.

use desk::{Answer, shown};
use fate_chain::Chain;
use mc_types::Moment;
use node_core::Outputs;
use smpp_time::write_time;
use std::fmt::Debug;
use std::rt::HostRuntime;
use std::{fmt, str};
use waiting_requests::Reply;

/// What a node gives out: what a query_sm is shown, each receipt that is due, and the attempt that is granted.
pub fn tell(rt: &HostRuntime, node: usize, outputs: &Outputs) {
    for reply in outputs.replies.iter() {
        tell_reply(rt, node, reply);
    }
    for chain in outputs.receipts.iter() {
        tell_state(rt, node, "receipt of ", chain);
    }
    if let Some(chain) = &outputs.granted {
        let id = chain.id().number();
        let _ = println!(rt; "node {node}: attempt {} of {id}", chain.attempts());
    }
}

fn tell_reply(rt: &HostRuntime, node: usize, reply: &Reply) {
    match reply.answer() {
        waiting_requests::Answer::Shown(chain) => tell_state(rt, node, "", chain),
        _ => {
            let _ = println!(rt; "node {node}: {} is not shown", reply.id().number());
        }
    }
}

/// The final_date of a query_sm_resp: a text of 16 octets, or none.
#[derive(Drop)]
struct FinalDate(Option<Moment>);

impl fmt::Display for FinalDate {
    fn fmt<W: fmt::Write>(&self, f: &mut fmt::Formatter<W>) -> fmt::Result {
        match self.0 {
            Some(moment) => f.write_str(str::from_utf8(&write_time(moment)).unwrap_or("?")),
            None => f.write_str("''"),
        }
    }
}

/// What a query_sm is shown of the message of a chain.
fn tell_state(rt: &HostRuntime, node: usize, what: &str, chain: &Chain) {
    let Answer::Shown(state, moment, error) = shown(chain) else {
        return;
    };
    let id = chain.id().number();
    let state = state.code();
    let date = FinalDate(moment);
    let _ = println!(rt;
        "node {node}: {what}{id} message_state {state} final_date {date} error_code {error}"
    );
}

/// Why a node does not do something.
pub fn tell_fault<F: Debug>(rt: &HostRuntime, node: usize, fault: &F) {
    let _ = println!(rt; "node {node}: {fault:?}");
}
