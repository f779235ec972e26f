//! Why a script ends before its end.

ghost use Rattle.std.specs.Prelude.{◌≡◌, Some};

use octet_io::ReadFault;
use std::alloc::AllocError;
use std::error::Error;
use std::fmt;
use std::fmt::{Display, Formatter};

/// Why a script ends before its end.
#[derive(Clone, Copy, Debug, PartialEq, Eq)]
pub enum ScriptFault {
    /// 1: this line, counted from 1, is bad. The output of the lines before it was written, and nothing else.
    BadLine(u64),
    /// 2: the script could not be read, or had no end within 2^40 reads. The output of the lines before the one that was being read was
    /// written.
    Read,
    /// 3: the output could not be written. That of the lines before the one in work was written, and a front of that one's.
    Write,
    /// 4: there was no memory. The output of the lines before the one in work was written.
    Memory,
}

impl Display for ScriptFault {
    ghost use Rattle.script_runner.specs.Faults.{fault_text};

    ghost output = { λ fault. Some (fault_text fault) };

    fn fmt<W: fmt::Write>(&self, f: &mut Formatter<W>) -> fmt::Result {
        match self {
            ScriptFault::BadLine(number) => write!(f, "bad line {number}"),
            ScriptFault::Read => f.write_str("the script could not be read"),
            ScriptFault::Write => f.write_str("the output could not be written"),
            ScriptFault::Memory => f.write_str("there was not enough memory"),
        }
    }
}

impl Error for ScriptFault {}

impl From<AllocError> for ScriptFault {
    ghost use Rattle.script_runner.specs.declared.fault.ScriptFault.TheVariants.{Memory};

    ghost from_gives = { λ _ fault. fault ≡ Memory };

    fn from(_error: AllocError) -> ScriptFault {
        ScriptFault::Memory
    }
}

impl From<ReadFault> for ScriptFault {
    ghost use Rattle.script_runner.specs.declared.fault.ScriptFault.TheVariants.{Read};

    ghost from_gives = { λ _ fault. fault ≡ Read };

    fn from(_fault: ReadFault) -> ScriptFault {
        ScriptFault::Read
    }
}
