//! PBKDF2 with HMAC and SHA-256 (RFC 8018, section 5.2; RFC 2104), of one block.

ghost use Rattle.std.specs.Prelude.{◌≡◌, ◌≤◌, ◌++◌, length, slice_index};
ghost use Rattle.account_limits.specs.Hashing as spec;

use sha2::{Digest, Sha256};

/// How many octets a block of SHA-256 has.
pub(crate) const BLOCK: usize = 64;

/// How many octets a digest of SHA-256 has.
const DIGEST: usize = 32;

/// The number of the first block of PBKDF2.
const FIRST_BLOCK: [u8; 4] = [0, 0, 0, 1];

/// What the octets of a key are xored with at the inner hash.
const INNER: u8 = 0x36;

/// What they are xored with at the outer one.
const OUTER: u8 = 0x5c;

/// The block of a key, each octet xored with one.
fn padded(key: &[u8], octet: u8) -> [u8; BLOCK]
    requires { length key.now ≤ 64 }
    ensures { result ≡ spec.padded octet key.now }
{
    let mut block = [0; BLOCK];
    for place in 0..BLOCK {
        block[place] = octet ^ octet_at(key, place);
    }
    block
}

/// The octet of a key at a place, or zero behind its end.
fn octet_at(key: &[u8], place: usize) -> u8
    ensures { result ≡ slice_index key.now place }
{
    if place < key.len() { key[place] } else { 0 }
}

/// The octets of two digests, xored.
fn xored(one: &[u8; DIGEST], other: &[u8; DIGEST]) -> [u8; DIGEST]
    ensures { result ≡ spec.xored one.now other.now }
{
    let mut sum = [0; DIGEST];
    for place in 0..DIGEST {
        sum[place] = one[place] ^ other[place];
    }
    sum
}

/// The SHA-256 digest of a block and a message of two parts.
fn digest_of(block: &[u8; BLOCK], first: &[u8], second: &[u8]) -> [u8; DIGEST]
    ensures { result ≡ spec.digest (block.now ++ first.now ++ second.now) }
{
    let mut hasher = Sha256::new();
    hasher.update(block);
    hasher.update(first);
    hasher.update(second);
    hasher.finalize()
}

/// The HMAC of a message of two parts, by a key.
fn hmac(key: &[u8], first: &[u8], second: &[u8]) -> [u8; DIGEST]
    requires { length key.now ≤ 64 }
    ensures { result ≡ spec.hmac key.now (first.now ++ second.now) }
{
    let inner = digest_of(&padded(key, INNER), first, second);
    digest_of(&padded(key, OUTER), &inner, &[])
}

/// The first block of PBKDF2: of a password and a salt, by so many rounds.
pub(crate) fn stretched(password: &[u8], salt: &[u8; 16], rounds: u32) -> [u8; DIGEST]
    requires { length password.now ≤ 64 }
    ensures { result ≡ spec.stretched password.now salt.now rounds }
{
    let mut last = hmac(password, salt, &FIRST_BLOCK);
    let mut sum = last;
    for _ in 1..rounds {
        last = hmac(password, &last, &[]);
        sum = xored(&sum, &last);
    }
    sum
}
