//! What the program says, and its exit status.

use serve_runner::{PROGRAM, ServeFault, stamp_now};
use std::env;
use std::process::ExitCode;
use std::rt::{Clock, Env};

/// How the program is called.
const HELP: &str = "\
centre script             runs a script from standard input
centre serve FILE         serves ESMEs by the configuration in FILE
    --quiet               tells nothing but where it listens, and why it ends
    --until-eof           ends once standard input ends
centre check FILE         says what the configuration in FILE means, and warns of what is hardly meant
    --strict              exits with status 1 if it warns
centre --help             says this, as do -h and help
centre --version          says which program this is";

/// How many arguments stand before the options.
const BEFORE_OPTIONS: usize = 2;

/// The arguments behind the program's name. None if there is no memory for them.
pub fn arguments<R: Env + AllocGlobal>(rt: &R) -> Option<Vec<String>> {
    let mut words = Vec::new(rt.alloc());
    for word in env::args(rt).ok()?.skip(1) {
        words.push(word).ok()?;
    }
    Some(words)
}

/// A fault: its line on standard error, and the status 1.
fn failed<R: Eprint>(rt: &R, fault: ServeFault) -> ExitCode {
    let _ = eprintln!(rt; "{fault}");
    drop(fault);
    ExitCode::from(1)
}

/// There was no memory to begin.
pub fn tell_memory<R: Eprint>(rt: &R) -> ExitCode {
    failed(rt, ServeFault::Memory)
}

/// How a server ended, and when.
pub fn tell_served<R: Eprint + Clock>(rt: &R, served: Result<u64, ServeFault>) -> ExitCode {
    let stamp = stamp_now(rt);
    match served {
        Ok(entries) => {
            let _ = eprintln!(rt; "{stamp} ended: {entries} entries in the journal");
            ExitCode::from(0)
        }
        Err(fault) => {
            let _ = eprintln!(rt; "{stamp} {fault}");
            drop(fault);
            ExitCode::from(1)
        }
    }
}

/// Whether a configuration is good: if it is read strictly, what warns is a fault, too.
pub fn tell_inspected<R: Eprint>(
    rt: &R,
    inspected: Result<bool, ServeFault>,
    is_strict: bool,
) -> ExitCode {
    match inspected {
        Ok(warns) => ExitCode::from(u8::from(warns && is_strict)),
        Err(fault) => failed(rt, fault),
    }
}

/// An option stands in place of the file.
pub fn tell_no_file<R: Eprint>(rt: &R, words: &[String]) -> ExitCode {
    let command = word_at(words, 0);
    let word = word_at(words, 1);
    let _ = eprintln!(rt; "usage: {command} takes its file before {word}; centre --help says more");
    ExitCode::from(1)
}

/// A word behind a file is no option, by its place there.
pub fn tell_strange<R: Eprint>(rt: &R, words: &[String], place: usize) -> ExitCode {
    let command = word_at(words, 0);
    let word = word_at(words, place.saturating_add(BEFORE_OPTIONS));
    let _ = eprintln!(rt; "usage: {command} has no option {word}; centre --help says more");
    ExitCode::from(1)
}

/// The argument at a place; empty if there is none.
fn word_at(words: &[String], place: usize) -> &str {
    match words.get(place) {
        Some(word) => word.as_str(),
        None => "",
    }
}

/// How the program is called.
pub fn tell_help<R: Print>(rt: &R) -> ExitCode {
    said(rt, HELP)
}

/// Which program it is.
pub fn tell_version<R: Print>(rt: &R) -> ExitCode {
    said(rt, PROGRAM)
}

/// A text on standard output.
fn said<R: Print>(rt: &R, text: &str) -> ExitCode {
    match rt.println(text) {
        Ok(()) => ExitCode::from(0),
        Err(_) => ExitCode::from(1),
    }
}
