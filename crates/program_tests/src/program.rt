//! Exit statuses, and the line on standard error.

use crate::ends::{Closed, Failing};
use crate::ran::times;
use crate::same::assert_same;
use crate::scripts::BIND;
use script_runner::{ProgramRun, ScriptFault};
use scripts_of_tests::{program_run, told};
use std::alloc::Global;
use std::process::Abort;

const SCRIPT: &[&[u8]] = &[b"centre", b"script"];

/// That this is the status of what a program did, and this what it tells on standard error.
fn assert_told(rt: &impl Abort, alloc: Global, name: &str, run: ProgramRun, wanted: (u8, &[u8])) {
    let (status, errors) = told(alloc, run).expect(rt, "memory");
    assert_same(rt, &(name, (status, errors.as_slice())), &(name, wanted));
}

#[test]
fn other_arguments_are_told_the_usage(rt: HostRuntime) {
    let alloc = rt.alloc();
    let others: [&[&[u8]]; 8] = [
        &[],
        &[b"centre"],
        &[b"centre", b""],
        &[b"centre", b"scripts"],
        &[b"centre", b"script", b"script"],
        &[b"centre", b"script", b""],
        &[b"centre", b"\xff"],
        &[b"centre", b"script", b"\xff"],
    ];
    for words in others {
        let mut output = Vec::new(alloc);
        let run = program_run(alloc, words, b"nodes 1\n".as_slice(), &mut output);
        assert_told(
            &rt,
            alloc,
            "",
            run,
            (
                1,
                b"usage: centre script, or serve FILE, or check FILE; centre --help says more\n",
            ),
        );
        assert_same(&rt, &(run, output.len()), &(ProgramRun::Usage, 0));
    }
}

/// However long the name of the program is, a script is run.
#[test]
fn a_long_program_name_asks_for_a_script(rt: HostRuntime) {
    let alloc = rt.alloc();
    let name = times(&rt, alloc, b"centre/", 10_000);
    let mut output = Vec::new(alloc);
    let run = program_run(alloc, &[&name, b"script"], BIND, &mut output);
    assert_same(&rt, &(run, output.len()), &(ProgramRun::Script(Ok(())), 65));
}

#[test]
fn faults_are_told_in_one_line(rt: HostRuntime) {
    let alloc = rt.alloc();
    let mut output = Vec::new(alloc);
    let unread = program_run(alloc, SCRIPT, Failing(b"nodes 1\n"), &mut output);
    assert_told(
        &rt,
        alloc,
        "read",
        unread,
        (1, b"the script could not be read\n"),
    );
    let unwritten = program_run(alloc, SCRIPT, BIND, Closed);
    assert_told(
        &rt,
        alloc,
        "write",
        unwritten,
        (1, b"the output could not be written\n"),
    );
    let memory = ProgramRun::Script(Err(ScriptFault::Memory));
    assert_told(
        &rt,
        alloc,
        "memory",
        memory,
        (1, b"there was not enough memory\n"),
    );
}

#[test]
fn statuses_do_not_need_standard_error(rt: HostRuntime) {
    let alloc = rt.alloc();
    let mut output = Vec::new(alloc);
    let bad = program_run(alloc, SCRIPT, b"nodes 10\n".as_slice(), &mut output);
    let unread = program_run(alloc, SCRIPT, Failing(b""), &mut output);
    let unasked = program_run(alloc, &[], b"".as_slice(), &mut output);
    for (run, status) in [(bad, 2), (unread, 1), (unasked, 1)] {
        let told = (run.tell(&mut Closed).is_err(), run.status());
        assert_same(&rt, &told, &(true, status));
    }
}

#[test]
fn faults_have_their_status(rt: HostRuntime) {
    let outcomes = [
        (Ok(()), 0),
        (Err(ScriptFault::BadLine(7)), 2),
        (Err(ScriptFault::Read), 1),
        (Err(ScriptFault::Write), 1),
        (Err(ScriptFault::Memory), 1),
    ];
    for (outcome, status) in outcomes {
        assert_same(&rt, &ProgramRun::Script(outcome).status(), &status);
    }
}
