//! What comes of a script, and of a program.

use crate::arguments::Arguments;
use script_runner::{
    CountedReader, CountedWriter, ProgramRun, ScriptFault, run_program, run_script,
};
use std::alloc::Global;
use std::io::{Read, Write};

/// How a script ends that a reader gives, and what it writes.
pub fn ran<R: Read + Drop>(alloc: Global, reader: R) -> (Result<(), ScriptFault>, Vec<u8>) {
    let mut output = Vec::new(alloc);
    let mut writer = CountedWriter::make(&mut output);
    let outcome = run_script(alloc, &mut CountedReader::make(reader), &mut writer);
    (outcome, output)
}

/// What a program with these arguments did.
pub fn program_run<R: Read + Drop, W: Write + Drop>(
    alloc: Global,
    words: &[&[u8]],
    reader: R,
    writer: W,
) -> ProgramRun {
    run_program(
        &(Arguments(words), alloc),
        &mut CountedReader::make(reader),
        &mut CountedWriter::make(writer),
    )
}

/// The exit status of what a program did, and what it tells on standard error.
pub type Telling = (u8, Vec<u8>);

/// What a program that did this tells. None for want of memory.
pub fn told(alloc: Global, run: ProgramRun) -> Option<Telling> {
    let mut errors = Vec::new(alloc);
    match run.tell(&mut errors) {
        Ok(()) => Some((run.status(), errors)),
        Err(_) => None,
    }
}
