//! The program: what its arguments ask for, its exit status, and its line on standard error.

ghost use Rattle.std.specs.Prelude.{◌≡◌, OnOk};
ghost use Rattle.std.specs.Option.{option_copied};
ghost use Rattle.std.specs.Io.KnownBytes.{Appends};
ghost use Rattle.script_runner.specs.Outcome.{IsProgramRun, asks_for_script, status_of, told_by};

use crate::fault::ScriptFault;
use crate::run::run_script;
use octet_io::{CountedReader, CountedWriter};
use std::env::FillError;
use std::io;
use std::io::{Read, Write};
use std::rt::Env;

/// How many octets the word has that asks for a script.
const WORD: usize = 6;

/// What the program did.
#[derive(Clone, Copy, Debug, PartialEq, Eq)]
pub enum ProgramRun {
    /// Nothing: its arguments ask for no script.
    Usage,
    /// It ran a script, of which this came.
    Script(Result<(), ScriptFault>),
}

impl ProgramRun {
    /// The exit status of the program: 0 at the end of a script, 2 at a bad line, 1 at any other fault, and if no script was asked for.
    pub fn status(self) -> u8
        ensures { result ≡ status_of self }
    {
        match self {
            ProgramRun::Script(Ok(())) => 0,
            ProgramRun::Script(Err(ScriptFault::BadLine(_))) => 2,
            ProgramRun::Script(Err(_)) | ProgramRun::Usage => 1,
        }
    }

    /// Writes its line for standard error; nothing at the end of a script. An `Err` if that could not be written.
    pub fn tell<E: Write>(self, errors: &mut E) -> io::Result<()>
        ensures { OnOk result (Appends (E.contents errors.old) (E.contents errors.new) (told_by self)) }
    {
        match self {
            ProgramRun::Usage => writeln!(
                errors,
                "usage: centre script, or serve FILE, or check FILE; centre --help says more"
            ),
            ProgramRun::Script(Ok(())) => Ok(()),
            ProgramRun::Script(Err(fault)) => writeln!(errors, "{fault}"),
        }
    }
}

/// Runs the script that the reader gives, if the arguments ask for one: if there is one behind the program's name, and it is `script`.
pub fn run_program<A: Env + AllocGlobal, R: Read, W: Write>(
    arguments: &A,
    reader: &mut CountedReader<R>,
    writer: &mut CountedWriter<W>,
) -> ProgramRun
    ensures { IsProgramRun R.remaining W.contents result reader.old reader.new writer.old writer.new }
{
    if !is_script_asked_for(arguments) {
        return ProgramRun::Usage;
    }
    ProgramRun::Script(run_script(arguments.alloc(), reader, writer))
}

/// Whether the arguments ask for a script. It takes no memory, however long they are.
fn is_script_asked_for(arguments: &impl Env) -> bool {
    let mut word = [0u8; WORD];
    let Ok(length) = arguments.arg(1, &mut word) else {
        return false;
    };
    let follows = !matches!(arguments.arg(2, &mut []), Err(FillError::NotPresent));
    asks(word.get(..length), follows)
}

/// Whether the argument behind the program's name, and that another follows it, ask for a script.
fn asks(word: Option<&[u8]>, follows: bool) -> bool
    ensures { result ≡ asks_for_script (option_copied word.entry) follows }
{
    word == Some(b"script".as_slice()) && !follows
}
