//! The keys of limits.

ghost use Rattle.std.specs.Prelude.{◌≡◌};
ghost use Rattle.config_limits.specs.Keys.{most_in, limit_name};

use std::fmt;

/// A key of an account that limits it (own). An account need not have it: then nothing is limited by it.
#[derive(Clone, Copy, Debug, PartialEq, Eq)]
pub enum LimitKey {
    /// From which nets it binds: texts, one at least.
    From,
    /// How many sessions of it may be bound at a node, 1 to 99.
    Sessions,
    /// How many submit_sm of it are taken in a second, 1 to 100,000.
    PerSecond,
    /// Which source_addr its submit_sm may have: texts, one at least.
    Senders,
    /// The hash of its password, in place of the password.
    PasswordSha256,
}

/// The most sessions that may be given as a limit: as many as a node has.
const MOST_SESSIONS: u32 = 99;

/// The most submit_sm a second that may be given as a limit.
const MOST_PER_SECOND: u32 = 100_000;

impl LimitKey {
    /// Its name in the table of an account.
    pub fn name(self) -> &'static str
        ensures { result.now ≡ limit_name self }
    {
        match self {
            LimitKey::From => "from",
            LimitKey::Sessions => "sessions",
            LimitKey::PerSecond => "per_second",
            LimitKey::Senders => "senders",
            LimitKey::PasswordSha256 => "password_sha256",
        }
    }

    /// The greatest value that it may have if it is a number, and else 0.
    pub(crate) fn most(self) -> u32
        ensures { result ≡ most_in self }
    {
        match self {
            LimitKey::Sessions => MOST_SESSIONS,
            LimitKey::PerSecond => MOST_PER_SECOND,
            LimitKey::From | LimitKey::Senders | LimitKey::PasswordSha256 => 0,
        }
    }

    /// What its value has to be.
    fn wanted(self) -> &'static str {
        match self {
            LimitKey::From => "a list of nets as \"10.0.0.0/8\" or \"2001:db8::/32\"",
            LimitKey::Sessions => "a whole number from 1 to 99",
            LimitKey::PerSecond => "a whole number from 1 to 100000",
            LimitKey::Senders => "a list of texts as \"MyBank\" or \"49*\", of at most 20 octets",
            LimitKey::PasswordSha256 => "a salt, rounds and a PBKDF2 hash as \"SALT:ROUNDS:HEX\"",
        }
    }
}

/// The name, after that of its tables and a dot, and what its value has to be.
impl fmt::Display for LimitKey {
    fn fmt<W: fmt::Write>(&self, f: &mut fmt::Formatter<W>) -> fmt::Result {
        f.write_str("account.")?;
        f.write_str(self.name())?;
        f.write_str(", ")?;
        f.write_str(self.wanted())
    }
}
