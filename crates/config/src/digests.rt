//! Quick answers on many rows. None of them takes more than a multiple of the rows' number in looks at a row; what they don't know is looked for row by row.

ghost use Rattle.std.specs.Prelude.{◌≡◌, ◌<◌, true, false, map, IfOk, IsTrue};
ghost use Rattle.std.specs.List.{AllByRecursion, list_any};
ghost use Rattle.toml.specs.View.{view};
ghost use Rattle.config.specs.Digests as spec;
ghost use Rattle.config.specs.Faults.{IsFit, is_named};
ghost use Rattle.config.specs.Rows.{has_twice};
ghost use Rattle.config.specs.declared.key.Key.TheVariants as keys;

use crate::key::Part;
use crate::rows::{rows, text_in};
use crate::values::is_named;
use std::alloc::{AllocError, Global};
use toml::Value;

/// What digests are remainders of: the greatest prime below 2^55.
const MODULUS: u64 = 36_028_797_018_963_913;

/// Whether no two of some rows have one value under a name; false also if that is not known.
pub(crate) fn are_apart(alloc: Global, rows: &[Value], name: &str) -> bool
    ensures { IsTrue result → has_twice name.now (map view rows.now) ≡ false }
{
    match digests(alloc, rows, name) {
        Ok(digests) => are_numbers_apart(&digests),
        Err(_) => false,
    }
}

/// Whether each route leads to an account of the document; false also if that is not known.
pub(crate) fn are_all_named(alloc: Global, document: &Value) -> bool
    ensures { IsTrue result → IsFit (view document.now) keys.RouteAccount }
{
    let accounts = rows(document, Part::Accounts);
    match digests(alloc, accounts, "system_id") {
        Ok(digests) => are_named(&digests, accounts, rows(document, Part::Routes)),
        Err(_) => false,
    }
}

/// Whether each of some routes leads to one of some accounts, of which these are the digests.
fn are_named(digests: &[u64], accounts: &[Value], routes: &[Value]) -> bool
    ensures { IsTrue result → AllByRecursion (λ route. spec.LeadsTo (map view accounts.now) (view route)) routes.now }
{
    for route in routes {
        let Some(name) = text_in(route, "account") else {
            return false;
        };
        if !is_any_named(digests, accounts, name) {
            return false;
        }
    }
    true
}

/// Whether one of some rows is the account of a name; false also if the digests are not those of the rows.
fn is_any_named(digests: &[u64], rows: &[Value], name: &str) -> bool
    ensures { IsTrue result → list_any (λ row. is_named name.now (view row)) rows.now ≡ true }
{
    let digest = digest(name);
    for (row, other) in rows.iter().zip(digests) {
        if *other == digest && is_named(row, name) {
            return true;
        }
    }
    false
}

/// The digests of what rows have under a name.
fn digests(alloc: Global, rows: &[Value], name: &str) -> Result<Vec<u64>, AllocError>
    ensures { IfOk result (λ digests. digests.items ≡ map (λ row. spec.digest_in name.now (view row)) rows.now) }
{
    let mut digests = Vec::with_capacity(alloc, rows.len())?;
    for row in rows {
        digests.push(digest_in(row, name))?;
    }
    Ok(digests)
}

/// The digest of what a row has under a name; 0 if that is no text.
fn digest_in(row: &Value, name: &str) -> u64
    ensures { result ≡ spec.digest_in name.now (view row.now) }
{
    match text_in(row, name) {
        Some(text) => digest(text),
        None => 0,
    }
}

/// The digest of a text.
fn digest(text: &str) -> u64
    ensures { result ≡ spec.digest_from 0 text.now }
{
    let mut digest = 0;
    for octet in text.as_bytes() {
        digest = (digest * 257 + u64::from(*octet)) % MODULUS;
    }
    digest
}

/// Whether no two numbers are the same.
fn are_numbers_apart(numbers: &[u64]) -> bool
    ensures { result ≡ spec.are_apart numbers.now }
{
    for place in 0..numbers.len() {
        if numbers[place + 1..].contains(&numbers[place]) {
            return false;
        }
    }
    true
}
