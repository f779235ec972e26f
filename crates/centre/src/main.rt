//! The program of the centre: `centre script` runs a script from standard input, `centre serve` serves ESMEs.
#![tactic(auto)]

mod telling;
mod until_end;

use script_runner::{CountedReader, CountedWriter, run_program};
use serve_runner::{Asked, asked_by, inspect, serve_file};
use std::io;
use std::process::ExitCode;
use telling::{
    arguments, tell_help, tell_inspected, tell_memory, tell_no_file, tell_served, tell_strange,
    tell_version,
};
use until_end::ends_with_input;

fn main(rt: HostRuntime) -> ExitCode {
    let Some(words) = arguments(&rt) else {
        return tell_memory(&rt);
    };
    let file = match words.get(1) {
        Some(word) => word.as_str(),
        None => "",
    };
    match asked_by(&words) {
        Asked::Script | Asked::Unknown => {
            let mut reader = CountedReader::make(rt.reader());
            let mut writer = CountedWriter::make(io::writer(&rt));
            let run = run_program(&rt, &mut reader, &mut writer);
            let _ = run.tell(&mut rt.stderr());
            ExitCode::from(run.status())
        }
        Asked::Serve(options) => match ends_with_input(&rt, &rt, options.is_until_end) {
            Some(stop) => tell_served(&rt, serve_file(&rt, &rt, file, options, stop)),
            None => tell_memory(&rt),
        },
        Asked::Check(is_strict) => tell_inspected(&rt, inspect(&rt, file), is_strict),
        Asked::Help => tell_help(&rt),
        Asked::Version => tell_version(&rt),
        Asked::NoFile => tell_no_file(&rt, &words),
        Asked::Strange(place) => tell_strange(&rt, &words, place),
    }
}
