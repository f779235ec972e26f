//! The keys of the table `own`.

ghost use Rattle.std.specs.Prelude.{◌≡◌};
ghost use Rattle.config.specs.OwnKeys.{most_in, own_name};

use std::fmt;

/// A key of the table `own`, which SMPP 3.4 knows nothing of. Each is a number, and 0 is the default: the limit of who serves, if there is one.
#[derive(Clone, Copy, Debug, PartialEq, Eq)]
pub enum OwnKey {
    /// After how many seconds without an octet a session is ended, at most 86,400.
    IdleSeconds,
    /// After how many seconds without a bind a session is ended, at most 86,400.
    BindSeconds,
    /// How many seconds a write to a session may take, at most 86,400.
    WriteSeconds,
    /// For how many seconds attempts wait for an account of which no session may receive any more, at most 86,400.
    LingerSeconds,
    /// How many sessions a node may have, at most 65,535.
    Sessions,
    /// After how many entries a part of the journal is to end, at most 150,000.
    PartEntries,
}

/// A day, in seconds.
const MOST_SECONDS: u32 = 86_400;

/// How many sessions may be given as a limit.
const MOST_SESSIONS: u32 = 65_535;

/// How many entries may be given for a part of the journal.
const MOST_PART_ENTRIES: u32 = 150_000;

impl OwnKey {
    /// Its name in the table.
    pub fn name(self) -> &'static str
        ensures { result.now ≡ own_name self }
    {
        match self {
            OwnKey::IdleSeconds => "idle_seconds",
            OwnKey::BindSeconds => "bind_seconds",
            OwnKey::WriteSeconds => "write_seconds",
            OwnKey::LingerSeconds => "linger_seconds",
            OwnKey::Sessions => "sessions",
            OwnKey::PartEntries => "part_entries",
        }
    }

    /// The greatest value that it may have.
    pub fn most(self) -> u32
        ensures { result ≡ most_in self }
    {
        match self {
            OwnKey::IdleSeconds
            | OwnKey::BindSeconds
            | OwnKey::WriteSeconds
            | OwnKey::LingerSeconds => MOST_SECONDS,
            OwnKey::Sessions => MOST_SESSIONS,
            OwnKey::PartEntries => MOST_PART_ENTRIES,
        }
    }
}

/// The name, after that of its table and a dot.
impl fmt::Display for OwnKey {
    fn fmt<W: fmt::Write>(&self, f: &mut fmt::Formatter<W>) -> fmt::Result {
        f.write_str("own.")?;
        f.write_str(self.name())
    }
}
