//! Why a text is no hash of a password.

use std::fmt;

/// Why a text is no hash of a password: the first that fits.
#[derive(Clone, Copy, Debug, PartialEq, Eq)]
pub enum HashFault {
    /// It has not two colons.
    NotThree,
    /// What stands before the first colon are no 32 hexadecimal digits.
    BadSalt,
    /// What stands between the first two is no number from 1 to 1,000,000.
    BadRounds,
    /// What stands behind the second are no 64 hexadecimal digits.
    BadDigest,
}

impl fmt::Display for HashFault {
    fn fmt<W: fmt::Write>(&self, f: &mut fmt::Formatter<W>) -> fmt::Result {
        f.write_str(match self {
            HashFault::NotThree => "not three parts with colons between",
            HashFault::BadSalt => "no salt of 32 hexadecimal digits",
            HashFault::BadRounds => "no number of rounds from 1 to 1000000",
            HashFault::BadDigest => "no digest of 64 hexadecimal digits",
        })
    }
}
