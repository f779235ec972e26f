//! A password that is kept as its hash.

ghost use Rattle.std.specs.Prelude.{◌≡◌, ◌≤◌, length};

use crate::hash_fault::HashFault;
use crate::hmac::{BLOCK, stretched};
use crate::number::{behind, read_number};
use hex::FromHex;
use std::fmt;

/// How many rounds a hash may have.
pub const MOST_ROUNDS: u32 = 1_000_000;

/// The hash of a password, with the salt and the rounds by which it is made: PBKDF2 with HMAC-SHA-256, of 32 octets.
#[derive(Clone, Copy, Debug, PartialEq, Eq)]
pub struct PasswordHash {
    pub salt: [u8; 16],
    /// From 1 to 1,000,000.
    pub rounds: u32,
    pub digest: [u8; 32],
}

impl PasswordHash {
    ghost use Rattle.account_limits.specs.Passwords.{hash_in, is_password};
    ghost use Rattle.account_limits.specs.Hashing.{stretched};

    /// The hash of a text: the salt in hexadecimal, a colon, the rounds in decimal, a colon, and the digest in hexadecimal.
    pub fn parse(text: &[u8]) -> Result<PasswordHash, HashFault>
        ensures { result ≡ hash_in text.now }
    {
        match parts_in(text) {
            Some((salt, rest)) => match parts_in(rest) {
                Some((rounds, digest)) => hash_of(salt, rounds, digest),
                None => Err(HashFault::NotThree),
            },
            None => Err(HashFault::NotThree),
        }
    }

    /// The hash of a password of at most 64 octets, by a salt and a number of rounds.
    pub fn make(password: &[u8], salt: [u8; 16], rounds: u32) -> PasswordHash
        requires { length password.now ≤ 64 }
        ensures { result ≡ record { salt = salt; rounds = rounds; digest = stretched password.now salt rounds } }
    {
        PasswordHash {
            salt,
            rounds,
            digest: stretched(password, &salt, rounds),
        }
    }

    /// Whether it is the hash of a password; of one of more than 64 octets it is none. It takes a time that grows with the rounds.
    pub fn is_of(&self, password: &[u8]) -> bool
        ensures { result ≡ is_password self.now password.now }
    {
        password.len() <= BLOCK && stretched(password, &self.salt, self.rounds) == self.digest
    }
}

/// Its text, as it is parsed.
impl fmt::Display for PasswordHash {
    fn fmt<W: fmt::Write>(&self, f: &mut fmt::Formatter<W>) -> fmt::Result {
        write_hexadecimal(f, &self.salt)?;
        write!(f, ":{}:", self.rounds)?;
        write_hexadecimal(f, &self.digest)
    }
}

/// Writes octets, each as two hexadecimal digits.
fn write_hexadecimal<W: fmt::Write>(f: &mut fmt::Formatter<W>, octets: &[u8]) -> fmt::Result {
    for octet in octets {
        write!(f, "{octet:02x}")?;
    }
    Ok(())
}

ghost use Rattle.account_limits.specs.Passwords.{IsSplit, colon_in, hash_of, rounds_in};

/// Where the first colon of a text stands, if it has one.
fn colon_in(text: &[u8]) -> Option<usize>
    ensures { result ≡ colon_in text.now }
{
    text.iter().position(|octet| *octet == b':')
}

/// What stands before the first colon of a text, and behind it.
fn parts_in(text: &[u8]) -> Option<(&[u8], &[u8])>
    ensures { IsSplit text.now result }
{
    match colon_in(text) {
        Some(colon) => Some((&text[..colon], behind(text, colon))),
        None => None,
    }
}

/// The hash of its three parts.
fn hash_of(salt: &[u8], rounds: &[u8], digest: &[u8]) -> Result<PasswordHash, HashFault>
    ensures { result ≡ hash_of salt.now rounds.now digest.now }
{
    let Ok(salt) = <[u8; 16] as FromHex>::from_hex(salt) else {
        return Err(HashFault::BadSalt);
    };
    let Some(rounds) = rounds_in(rounds) else {
        return Err(HashFault::BadRounds);
    };
    let Ok(digest) = <[u8; 32] as FromHex>::from_hex(digest) else {
        return Err(HashFault::BadDigest);
    };
    Ok(PasswordHash {
        salt,
        rounds,
        digest,
    })
}

/// The number of rounds that a text is, if it is one.
fn rounds_in(text: &[u8]) -> Option<u32>
    ensures { result ≡ rounds_in text.now }
{
    match read_number(text, MOST_ROUNDS) {
        Some(rounds) if rounds >= 1 => Some(rounds),
        _ => None,
    }
}
