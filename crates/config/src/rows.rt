//! The tables of a text in which the keys stand, and what stands in them.

ghost use Rattle.std.specs.Prelude.{◌≡◌, map};
ghost use Rattle.std.specs.Option.{option_copied};
ghost use Rattle.toml.specs.View.{view};
ghost use Rattle.config.specs.Rows as spec;

use crate::key::Part;
use std::slice;
use toml::Value;

/// The text under a name of a table, if there is one.
pub(crate) fn text_in<'a>(row: &'a Value, name: &str) -> Option<&'a str>
    ensures { option_copied result ≡ spec.text_in name.now (view row.now) }
{
    match row.get(name) {
        Some(value) => value.as_str(),
        None => None,
    }
}

/// A number that is not negative.
pub(crate) fn as_number(value: &Value) -> Option<u64>
    ensures { result ≡ spec.as_number (view value.now) }
{
    match value.as_integer() {
        Some(number) if number >= 0 => Some(number as u64),
        _ => None,
    }
}

/// The number under a name of a table, if there is one that is not negative.
pub(crate) fn number_in(row: &Value, name: &str) -> Option<u64>
    ensures { result ≡ spec.number_in name.now (view row.now) }
{
    match row.get(name) {
        Some(value) => as_number(value),
        None => None,
    }
}

/// The elements of the array under a name of a table; none if there is no array.
pub(crate) fn within<'a>(document: &'a Value, name: &str) -> &'a [Value]
    ensures { map view result.now ≡ spec.within name.now (view document.now) }
{
    let Some(value) = document.get(name) else {
        return &[];
    };
    match value.as_array() {
        Some(elements) => elements.as_slice(),
        None => &[],
    }
}

/// The tables of a part of a document.
pub(crate) fn rows(document: &Value, part: Part) -> &[Value]
    ensures { map view result.now ≡ spec.rows_of (view document.now) part }
{
    match part {
        Part::Whole => slice::from_ref(document),
        Part::Nodes => within(document, "node"),
        Part::Accounts => within(document, "account"),
        Part::Routes => within(document, "route"),
    }
}
