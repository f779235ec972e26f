//! The accounts and the routes of a configuration, as `check` prints them.

use config_warnings::{Section, Shown, tables_in, text_at};
use std::io;
use toml::Value;

/// The most octets of a prefix.
const MOST_PREFIX: usize = 20;

/// Prints each account, and what it may do, in the order of the text.
pub(crate) fn print_accounts<R: Print>(rt: &R, document: &Value) -> io::Result<()> {
    for account in tables_in(document, Section::Accounts) {
        let name = Shown(text_at(account, "system_id"));
        let rights = match (flag_at(account, "transmit"), flag_at(account, "receive")) {
            (true, true) => "transmits and receives",
            (true, false) => "transmits",
            (false, true) => "receives",
            (false, false) => "may do nothing",
        };
        println!(rt; "account {name} {rights}")?;
    }
    Ok(())
}

/// The flag under a name of a table; false if there is none.
fn flag_at(table: &Value, name: &str) -> bool {
    match table.get(name) {
        Some(value) => value.as_bool().unwrap_or(false),
        None => false,
    }
}

/// Prints each route, those of the longest prefixes first: the first that fits decides.
pub(crate) fn print_routes<R: Print>(rt: &R, document: &Value) {
    for shorter in 0..=MOST_PREFIX {
        let _ = print_routes_of(rt, document, MOST_PREFIX.saturating_sub(shorter));
    }
}

/// Prints each route whose prefix has so many octets, in the order of the text.
fn print_routes_of<R: Print>(rt: &R, document: &Value, length: usize) -> io::Result<()> {
    for route in tables_in(document, Section::Routes) {
        let prefix = text_at(route, "prefix");
        if prefix.len() == length {
            let account = Shown(text_at(route, "account"));
            print_route(rt, Shown(prefix), account)?;
        }
    }
    Ok(())
}

/// Prints where a destination goes that begins with a prefix.
fn print_route<R: Print>(rt: &R, prefix: Shown<'_>, account: Shown<'_>) -> io::Result<()> {
    if prefix.0.is_empty() {
        println!(rt; "all other destinations go to {account}")
    } else {
        println!(rt; "a destination that begins with {prefix} goes to {account}")
    }
}
