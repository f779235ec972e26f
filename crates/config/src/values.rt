//! Which values a key may have.

ghost use Rattle.std.specs.Prelude.{◌≡◌, ◌↔◌, IsTrue, Some};
ghost use Rattle.std.specs.List.{list_all, list_any};
ghost use Rattle.toml.specs.View.{view};
ghost use Rattle.config.specs.Faults as spec;
ghost use Rattle.config.specs.Rows.{is_table};

use crate::checks::{same_number, same_text};
use crate::key::{Key, Part};
use crate::listen::read_listen;
use crate::rows::{as_number, number_in, rows, text_in};
use toml::Value;

/// The most nodes that there may be (own).
pub(crate) const MOST_NODES: u64 = 9;
/// The most octets of a system_id, the zero at its end not counted (SMPP 3.4, section 5.2.1).
const MOST_SYSTEM_ID: usize = 15;
/// The most octets of a password, the zero at its end not counted (section 5.2.2).
const MOST_PASSWORD: usize = 8;
/// The most octets of the beginning of a destination_addr, the zero at its end not counted (section 5.2.9).
const MOST_PREFIX: usize = 20;
/// The longest time for which a message is kept that asks for none, in seconds: a year (own).
const MOST_VALIDITY: u64 = 31_536_000;
/// The last serial of a message (own).
const LAST_SERIAL: u64 = 99_999;

/// Whether a key may have a value in a document.
pub(crate) fn admits(document: &Value, key: Key, value: &Value) -> bool
    ensures { IsTrue result ↔ spec.Admits (view document.now) key (view value.now) }
{
    match key {
        Key::SystemId | Key::AccountSystemId => is_text(value, 1, MOST_SYSTEM_ID),
        Key::AccountPassword => is_text(value, 0, MOST_PASSWORD),
        Key::RoutePrefix => is_text(value, 0, MOST_PREFIX),
        Key::NodeStore => is_path(value),
        Key::DefaultValidity => is_number(value, 1, MOST_VALIDITY),
        Key::FirstSerial => is_number(value, 1, LAST_SERIAL),
        Key::StopAfter => as_number(value).is_some(),
        Key::AccountTransmit | Key::AccountReceive => value.is_bool(),
        Key::Node => are_nodes(value),
        Key::Account | Key::Route => are_tables(value),
        Key::NodeNumber => is_node_number(document, value),
        Key::NodeListen => is_listen(value),
        Key::RouteAccount => is_account_name(document, value),
    }
}

/// Whether a value is a text of so many octets, none zero.
fn is_text(value: &Value, least: usize, most: usize) -> bool
    ensures { IsTrue result ↔ spec.IsTextOf least most (view value.now) }
{
    match value.as_str() {
        Some(text) => { least <= text.len() && text.len() <= most && !text.as_bytes().contains(&0) }
        None => false,
    }
}

/// Whether a value is a text with no octet zero.
fn is_path(value: &Value) -> bool
    ensures { IsTrue result ↔ spec.IsPathText (view value.now) }
{
    match value.as_str() {
        Some(text) => !text.as_bytes().contains(&0),
        None => false,
    }
}

/// Whether a value is a number of a range.
fn is_number(value: &Value, least: u64, most: u64) -> bool
    ensures { IsTrue result ↔ spec.IsNumberOf least most (view value.now) }
{
    match as_number(value) {
        Some(number) => least <= number && number <= most,
        None => false,
    }
}

/// Whether a value is an array of tables.
fn are_tables(value: &Value) -> bool
    ensures { IsTrue result ↔ spec.AreTables (view value.now) }
{
    match value.as_array() {
        Some(elements) => all_tables(elements.as_slice()),
        None => false,
    }
}

/// Whether a value is an array of no more tables than nodes may be.
fn are_nodes(value: &Value) -> bool
    ensures { IsTrue result ↔ spec.AreNodes (view value.now) }
{
    match value.as_array() {
        Some(elements) => elements.len() <= MOST_NODES as usize && all_tables(elements.as_slice()),
        None => false,
    }
}

/// Whether each of some values is a table.
fn all_tables(values: &[Value]) -> bool
    ensures { result ≡ list_all (λ value. is_table (view value)) values.now }
{
    values.iter().all(|value| value.is_table())
}

/// Whether a value is the number of a node, and there is one of the number before.
fn is_node_number(document: &Value, value: &Value) -> bool
    ensures { IsTrue result ↔ spec.IsNodeNumber (view document.now) (view value.now) }
{
    match as_number(value) {
        Some(number) if 1 <= number && number <= MOST_NODES => {
            number == 1 || any_numbered(rows(document, Part::Nodes), number - 1)
        }
        _ => false,
    }
}

/// Whether one of some rows has a number.
fn any_numbered(rows: &[Value], number: u64) -> bool
    ensures { result ≡ list_any (λ row. spec.is_numbered number (view row)) rows.now }
{
    rows.iter().any(|row| is_numbered(row, number))
}

/// Whether a row has a number.
pub(crate) fn is_numbered(row: &Value, number: u64) -> bool
    ensures { result ≡ spec.is_numbered number (view row.now) }
{
    same_number(number_in(row, "number"), Some(number))
}

/// Whether a value is an address and a port.
fn is_listen(value: &Value) -> bool
    ensures { IsTrue result ↔ spec.IsListenText (view value.now) }
{
    match value.as_str() {
        Some(text) => read_listen(text).is_some(),
        None => false,
    }
}

/// Whether a value is the name of an account that the document has.
fn is_account_name(document: &Value, value: &Value) -> bool
    ensures { IsTrue result ↔ spec.IsAccountName (view document.now) (view value.now) }
{
    match value.as_str() {
        Some(text) => any_named(rows(document, Part::Accounts), text),
        None => false,
    }
}

/// Whether one of some rows is the account of a name.
fn any_named(rows: &[Value], name: &str) -> bool
    ensures { result ≡ list_any (λ row. spec.is_named name.now (view row)) rows.now }
{
    rows.iter().any(|row| is_named(row, name))
}

/// Whether a row is the account of a name.
pub(crate) fn is_named(row: &Value, name: &str) -> bool
    ensures { result ≡ spec.is_named name.now (view row.now) }
{
    same_text(text_in(row, "system_id"), Some(name))
}
