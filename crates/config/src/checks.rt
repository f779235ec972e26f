//! Which faults a document has.

ghost use Rattle.std.specs.Prelude.{◌≡◌, ◌↔◌, true, false, map, slice_get, MatchOption, IsTrue, Some};
ghost use Rattle.std.specs.List.{AllByRecursion, list_all, list_any};
ghost use Rattle.toml.specs.Data.{as_array, get};
ghost use Rattle.toml.specs.View.{view};
ghost use Rattle.config.specs.Faults as spec;
ghost use Rattle.config.specs.Keys.{name_of};
ghost use Rattle.config.specs.Rows.{RepeatsAt, has_twice, same_value};
ghost use Rattle.toml.specs.declared.value.Value.{Value};

use crate::digests::{are_all_named, are_apart};
use crate::key::Key;
use crate::place::Place;
use crate::rows::{number_in, rows, text_in};
use crate::values::admits;
use std::alloc::Global;
use toml::Value;

/// The first of some keys of which something is missing, and where.
pub(crate) fn first_missing(document: &Value, keys: &[Key]) -> Option<Place>
    ensures { MatchOption result (AllByRecursion (λ key. spec.is_given (view document.now) key ≡ true) keys.now) (spec.IsMissing (view document.now)) }
{
    for key in keys {
        if let Some(row) = row_without(document, *key) {
            return Some(Place { key: *key, row });
        }
    }
    None
}

/// The first of some keys that has a value that it may not have, and where.
pub(crate) fn first_bad(alloc: Global, document: &Value, keys: &[Key]) -> Option<Place>
    ensures { MatchOption result (AllByRecursion (spec.IsFit (view document.now)) keys.now) (spec.IsUnfit (view document.now)) }
{
    for key in keys {
        if let Some(row) = row_that_is_bad(alloc, document, *key) {
            return Some(Place { key: *key, row });
        }
    }
    None
}

/// The first of some keys that is given twice with one value, and where it is given again.
pub(crate) fn first_repeated(alloc: Global, document: &Value, keys: &[Key]) -> Option<Place>
    ensures { MatchOption result (AllByRecursion (λ key. spec.is_once (view document.now) key ≡ true) keys.now) (spec.IsAgain (view document.now)) }
{
    for key in keys {
        if let Some(row) = row_that_repeats(alloc, document, *key) {
            return Some(Place { key: *key, row });
        }
    }
    None
}

/// The first table of a key that lacks it, if it must have it.
fn row_without(document: &Value, key: Key) -> Option<usize>
    ensures { MatchOption result (spec.is_given (view document.now) key ≡ true) (λ row. spec.IsMissing (view document.now) (record { key = key; row = row })) }
{
    if !key.is_needed() {
        return None;
    }
    first_without(rows(document, key.part()), key)
}

/// The place of the first of some rows that lacks a key.
fn first_without(rows: &[Value], key: Key) -> Option<usize>
    ensures { MatchOption result (list_all (λ row. spec.has_key key (view row)) rows.now ≡ true) (λ place. spec.LacksAt key (map view rows.now) place) }
{
    for (place, row) in rows.iter().enumerate() {
        if !has_key(row, key) {
            return Some(place);
        }
    }
    None
}

/// Whether a row has a key; what is no table is a fault of another kind.
fn has_key(row: &Value, key: Key) -> bool
    ensures { result ≡ spec.has_key key (view row.now) }
{
    if !row.is_table() {
        return true;
    }
    match row.get(key.name()) {
        Some(value) => key != Key::Node || !is_no_list(value),
        None => false,
    }
}

/// Whether a value is an array of nothing.
fn is_no_list(value: &Value) -> bool
    ensures { result ≡ spec.is_no_list (as_array (view value.now)) }
{
    match value.as_array() {
        Some(elements) => elements.is_empty(),
        None => false,
    }
}

/// The first table of a key in which it has a value that it may not have.
fn row_that_is_bad(alloc: Global, document: &Value, key: Key) -> Option<usize>
    ensures { MatchOption result (spec.IsFit (view document.now) key) (λ row. spec.IsUnfit (view document.now) (record { key = key; row = row })) }
{
    if key == Key::RouteAccount && are_all_named(alloc, document) {
        return None;
    }
    first_unfit(document, key, rows(document, key.part()))
}

/// The place of the first of some rows in which a key has a value that it may not have.
fn first_unfit(document: &Value, key: Key, rows: &[Value]) -> Option<usize>
    ensures { MatchOption result (AllByRecursion (λ row. spec.Fits (view document.now) key (view row)) rows.now)
        (λ place. spec.DoesNotFitAt (view document.now) key (map view rows.now) place) }
{
    for (place, row) in rows.iter().enumerate() {
        if !fits(document, key, row) {
            return Some(place);
        }
    }
    None
}

/// Whether the value of a key in a row, if there is one, is one that it may have.
fn fits(document: &Value, key: Key, row: &Value) -> bool
    ensures { IsTrue result ↔ spec.Fits (view document.now) key (view row.now) }
{
    match row.get(key.name()) {
        Some(value) => admits(document, key, value),
        None => true,
    }
}

/// A table of a key that has the value of an earlier one, if no two may have one value of it.
fn row_that_repeats(alloc: Global, document: &Value, key: Key) -> Option<usize>
    ensures { MatchOption result (spec.is_once (view document.now) key ≡ true) (λ row. spec.IsAgain (view document.now) (record { key = key; row = row })) }
{
    if !key.is_unique() || are_apart(alloc, rows(document, key.part()), key.name()) {
        return None;
    }
    first_again(rows(document, key.part()), key.name())
}

/// The place of a row that has the value of an earlier one under a name.
fn first_again(rows: &[Value], name: &str) -> Option<usize>
    ensures { MatchOption result (has_twice name.now (map view rows.now) ≡ false) (RepeatsAt name.now (map view rows.now)) }
{
    for place in 0..rows.len() {
        if let Some(behind) = place_of_same(&rows[place], &rows[place + 1..], name) {
            return Some(place + 1 + behind);
        }
    }
    None
}

/// The place of the first of some rows that has the value that another has under a name.
fn place_of_same(first: &Value, others: &[Value], name: &str) -> Option<usize>
    ensures { MatchOption result (list_any (λ other. same_value name.now (view first.now) (view other)) others.now ≡ false)
        (λ place. (other : Value) × (slice_get others.now place ≡ Some other) × (same_value name.now (view first.now) (view other) ≡ true)) }
{
    for (place, other) in others.iter().enumerate() {
        if has_same(first, other, name) {
            return Some(place);
        }
    }
    None
}

/// Whether two rows have one text or one number under a name.
fn has_same(one: &Value, other: &Value, name: &str) -> bool
    ensures { result ≡ same_value name.now (view one.now) (view other.now) }
{
    same_text(text_in(one, name), text_in(other, name))
        || same_number(number_in(one, name), number_in(other, name))
}

ghost use Rattle.std.specs.Option.{option_copied};
ghost use Rattle.config.specs.Rows as rows_spec;

/// Whether there are two texts, and they are the same.
pub(crate) fn same_text(one: Option<&str>, other: Option<&str>) -> bool
    ensures { result ≡ rows_spec.same_text (option_copied one.entry) (option_copied other.entry) }
{
    match (one, other) {
        (Some(one), Some(other)) => one == other,
        _ => false,
    }
}

/// Whether there are two numbers, and they are the same.
pub(crate) fn same_number(one: Option<u64>, other: Option<u64>) -> bool
    ensures { result ≡ rows_spec.same_number one other }
{
    match (one, other) {
        (Some(one), Some(other)) => one == other,
        _ => false,
    }
}
