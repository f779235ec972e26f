//! Scripts that are long, and ends that fail.

use crate::ends::{Closed, Failing};
use crate::ran::{assert_ends, assert_written, joined, times};
use crate::same::assert_same;
use script_runner::{CountedReader, CountedWriter, ScriptFault, run_script};
use scripts_of_tests::ran;
use std::alloc::Global;
use std::process::Abort;

/// A script that binds session 1, and what it writes.
pub const BIND: &[u8] =
    b"nodes 1\npdu 1 1 0000001e000000090000000000000001736d653100707731000034000000\n";

const BIND_LINE: &[u8] = b"pdu 1 1 0000001e000000090000000000000001736d653100707731000034000000\n";

const BOUND: &[u8] = b"pdu 1 1 0000001c80000009000000000000000143454e545245000210000134\n";

const UNBIND: &[u8] = b"pdu 1 1 00000010000000060000000000000004\n";

const UNBOUND: &[u8] = b"pdu 1 1 00000010800000060000000000000004\ngone 1 1\n";

const SUBMIT: &[u8] =
    b"pdu 1 1 0000002900000004000000000000000200010131343400010131353500000000000000000000024869\n";

/// The same, with a receipt asked for.
const REPORTED: &[u8] =
    b"pdu 1 1 0000002900000004000000000000000200010131343400010131353500000000000001000000024869\n";

const QUERY: &[u8] =
    b"pdu 1 1 000000210000000300000000000000033130303031303030303100010131343400\n";

/// That line 3 is bad, if it is zeros that end so.
fn assert_too_long(rt: &impl Abort, alloc: Global, zeros: &[u8], end: &[u8]) {
    let script = joined(rt, alloc, &[BIND, b"pdu 1 1 ", zeros, end]);
    assert_ends(
        rt,
        alloc,
        script.as_slice(),
        (Err(ScriptFault::BadLine(3)), BOUND),
    );
}

#[test]
fn long_lines_are_bad(rt: HostRuntime) {
    let alloc = rt.alloc();
    let zeros = times(&rt, alloc, b"0", 19982);
    assert_too_long(&rt, alloc, &zeros, b"          \n");
    assert_too_long(&rt, alloc, &zeros, b"00000000000");
}

#[test]
fn failing_ends_are_told(rt: HostRuntime) {
    let alloc = rt.alloc();
    assert_ends(&rt, alloc, Failing(BIND), (Err(ScriptFault::Read), BOUND));
    let unwritten = run_script(
        alloc,
        &mut CountedReader::make(BIND),
        &mut CountedWriter::make(Closed),
    );
    assert_same(&rt, &unwritten, &Err(ScriptFault::Write));
}

/// Two enquire_links in one line, after which the length of a third is wrong: its octets and those after it are dropped.
#[test]
fn several_pdus_come_at_once(rt: HostRuntime) {
    let alloc = rt.alloc();
    let lines = b"pdu 1 1 00000010000000150000000000000002\
00000010000000150000000000000003\
0000000f00000015000000000000000400000010000000150000000000000005\n\
pdu 1 1 00000010000000150000000000000006\n";
    let answers = b"pdu 1 1 0000001c80000009000000000000000143454e545245000210000134\n\
pdu 1 1 00000010800000150000000000000002\n\
pdu 1 1 00000010800000150000000000000003\n\
pdu 1 1 00000010800000000000000200000000\n\
gone 1 1\n\
pdu 1 1 00000010800000150000000000000006\n";
    let script = joined(&rt, alloc, &[BIND, lines]);
    assert_written(&rt, alloc, ("several", &script), answers);
}

/// A thousand requests wait, of sessions that are gone, each with ten: the next one is answered at once, ESME_RTHROTTLED, and
/// nothing of theirs is printed.
#[test]
fn a_thousand_requests_wait(rt: HostRuntime) {
    let alloc = rt.alloc();
    let queries = times(&rt, alloc, QUERY, 10);
    let session = joined(&rt, alloc, &[BIND_LINE, &queries, UNBIND]);
    let sessions = times(&rt, alloc, &session, 100);
    let script = joined(
        &rt,
        alloc,
        &[b"nodes 1\n", &sessions, BIND_LINE, QUERY, b"settle\n"],
    );
    let gone = joined(&rt, alloc, &[BOUND, UNBOUND]);
    let all_gone = times(&rt, alloc, &gone, 100);
    let throttled = b"pdu 1 1 00000010800000030000005800000003\n";
    let wanted = joined(&rt, alloc, &[&all_gone, BOUND, throttled]);
    assert_written(&rt, alloc, ("throttled", &script), &wanted);
}

/// A tick at which five hundred messages expire: the last of them is EXPIRED.
#[test]
fn many_messages_expire(rt: HostRuntime) {
    let alloc = rt.alloc();
    let ten = times(&rt, alloc, SUBMIT, 10);
    let settled = joined(&rt, alloc, &[&ten, b"settle\n"]);
    let submits = times(&rt, alloc, &settled, 50);
    let query =
        b"pdu 1 1 000000210000000300000000000000033130303031303035303000010131343400\nsettle\n";
    let tick = b"tick 1 946944000\nsettle\n";
    let script = joined(&rt, alloc, &[BIND, &submits, tick, query]);
    let expired =
        b"pdu 1 1 0000002e80000003000000000000000331303030313030353030003030303130343030303030303030302b000300\n".as_slice();
    // Each answer to a submit_sm has 27 octets.
    let answers = 500 * (b"pdu 1 1 \n".len() + 2 * 27);
    let wanted = (Ok(()), true, BOUND.len() + answers + expired.len());
    let (outcome, output) = ran(alloc, script.as_slice());
    let found = (outcome, output.as_slice().ends_with(expired), output.len());
    assert_same(&rt, &found, &wanted);
}

/// The 9,999th incarnation is the last: a restart is refused then, the session stays, and the node goes on.
#[test]
fn the_last_incarnation_goes_on(rt: HostRuntime) {
    let alloc = rt.alloc();
    let restarts = times(&rt, alloc, b"restart 1\n", 9998);
    let refused = b"restart 1\nrestart 1\n";
    let script = joined(
        &rt,
        alloc,
        &[
            b"nodes 1\n",
            &restarts,
            BIND_LINE,
            refused,
            SUBMIT,
            b"settle\n",
        ],
    );
    let taken = b"pdu 1 1 0000001b8000000400000000000000023139393939303030303100\n";
    let wanted = joined(&rt, alloc, &[BOUND, b"refused 6\nrefused 6\n", taken]);
    assert_written(&rt, alloc, ("incarnations", &script), &wanted);
}

/// Ten messages are asked for anew at each of 5,000 ticks: 50,010 times a round is begun and answered, which is more than a settle delivers.
/// The next one delivers the rest.
#[test]
fn a_settle_ends_after_100000_deliveries(rt: HostRuntime) {
    let alloc = rt.alloc();
    let submits = times(&rt, alloc, SUBMIT, 10);
    let ticks = times(&rt, alloc, b"tick 1 946684800\n", 5000);
    let script = joined(
        &rt,
        alloc,
        &[BIND, &submits, &ticks, b"settle\n", b"settle\n"],
    );
    let unsettled = joined(&rt, alloc, &[BOUND, b"unsettled\n"]);
    // Each answer to a submit_sm has 27 octets.
    let answers = 10 * (b"pdu 1 1 \n".len() + 2 * 27);
    let wanted = (Ok(()), true, unsettled.len() + answers);
    let (outcome, output) = ran(alloc, script.as_slice());
    let begins = output.as_slice().starts_with(&unsettled);
    assert_same(&rt, &(outcome, begins, output.len()), &wanted);
}

/// A script in which 10,001 messages expire of which a receipt is asked for, while no session is there, and after that 1,001 sessions bind and
/// unbind.
fn many_receipts(rt: &impl Abort, alloc: Global) -> Vec<u8> {
    let ten = times(rt, alloc, REPORTED, 10);
    let settled = joined(rt, alloc, &[&ten, b"settle\n"]);
    let submits = times(rt, alloc, &settled, 1000);
    let session = joined(rt, alloc, &[BIND_LINE, UNBIND]);
    let sessions = times(rt, alloc, &session, 1001);
    let expire = b"tick 1 946944000\nsettle\n";
    joined(
        rt,
        alloc,
        &[
            BIND,
            &submits,
            REPORTED,
            b"settle\n",
            UNBIND,
            expire,
            &sessions,
        ],
    )
}

/// Whether octets stand somewhere in a text.
fn contains(text: &[u8], octets: &[u8]) -> bool {
    text.windows(28).any(|there| there == octets)
}

/// The receipts wait for a session, but for the 10,001st, which is dropped. Each session that binds gets ten, and takes them with it
/// when it goes; the last one gets none.
#[test]
fn ten_thousand_receipts_wait(rt: HostRuntime) {
    let alloc = rt.alloc();
    let script = many_receipts(&rt, alloc);
    let (outcome, output) = ran(alloc, script.as_slice());
    // Each answer to a submit_sm has 27 octets, each receipt 163.
    let answers = 10001 * (b"pdu 1 1 \n".len() + 2 * 27);
    let receipts = 10000 * (b"pdu 1 1 \n".len() + 2 * 163);
    let sessions = 1002 * (BOUND.len() + UNBOUND.len());
    let length = answers + receipts + sessions;
    // The last texts would begin with `id:1000110000` and `id:1000110001`, and a space.
    let last = contains(&output, b"69643a3130303031313030303020");
    let dropped = contains(&output, b"69643a3130303031313030303120");
    let end = joined(&rt, alloc, &[UNBOUND, BOUND, UNBOUND]);
    let ends = output.as_slice().ends_with(&end);
    let found = ((outcome, ends, output.len()), (last, dropped));
    assert_same(&rt, &found, &((Ok(()), true, length), (true, false)));
}
