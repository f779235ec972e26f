//! The table `own` of a configuration.

ghost use Rattle.std.specs.Prelude.{◌≡◌, MatchResult};
ghost use Rattle.toml.specs.Errors.{IsBlank};
ghost use Rattle.toml.specs.View.{view};
ghost use Rattle.config.specs.Own as spec;

use crate::fault::ConfigFault;
use crate::listen::read_listen;
use crate::own_fault::OwnFault;
use crate::own_key::OwnKey;
use crate::reading::document_of;
use crate::rows::as_number;
use std::alloc::Global;
use std::net::SocketAddrV4;
use toml::Value;

/// What the table `own` of a configuration says. Each number is 0 if the text does not say it: who serves by it says what limit there is then, if any.
#[derive(Clone, Copy, Debug, PartialEq, Eq)]
pub struct Own {
    /// After how many seconds without an octet a session is ended.
    pub idle_seconds: u32,
    /// After how many seconds without a bind a session is ended.
    pub bind_seconds: u32,
    /// How many seconds a write to a session may take.
    pub write_seconds: u32,
    /// For how many seconds attempts wait for an account of which no session may receive any more.
    pub linger_seconds: u32,
    /// How many sessions a node may have.
    pub sessions: u32,
    /// After how many entries a part of the journal is to end.
    pub part_entries: u32,
    /// Whether a server ends once its journal is full, in place of going on with another part.
    pub ends_full: bool,
    /// Where the page of the server's status is served, if anywhere.
    pub status: Option<SocketAddrV4>,
}

/// What the table `own` of a text says (TOML, UTF-8); 0 for each key if there is none. `NotToml` only of what is no TOML; else `NoTable`, if something else stands
/// there; else `BadValue`, with any of the keys whose value is no whole number from 0 to the greatest that it may have, or `BadFull`, if `full` has another
/// value than "end", or `BadStatus`, if `status` has another value than an address and a port. Other keys are ignored. `Memory` is want of memory, of which a
/// text of white space and comments alone takes none.
pub fn read_own(alloc: Global, octets: &[u8]) -> Result<Own, OwnFault>
    ensures outcome { spec.IsOwnOutcome octets.now result }
    ensures memory { result ≡ Err OwnFault.Memory → ¬ IsBlank octets.now }
{
    let document = table_of(alloc, octets)?;
    match document.get("own") {
        Some(table) => own_in(table),
        None => Ok(Own {
            idle_seconds: 0,
            bind_seconds: 0,
            write_seconds: 0,
            linger_seconds: 0,
            sessions: 0,
            part_entries: 0,
            ends_full: false,
            status: None,
        }),
    }
}

/// The table of a text.
fn table_of(alloc: Global, octets: &[u8]) -> Result<Value, OwnFault>
    ensures memory { result ≡ Err OwnFault.Memory → ¬ IsBlank octets.now }
    ensures table { MatchResult result (λ document. spec.IsDocument octets.now (view document)) (spec.OwnReadsNone octets.now) }
{
    match document_of(alloc, octets) {
        Ok(document) => Ok(document),
        Err(ConfigFault::NotToml) => Err(OwnFault::NotToml),
        Err(_) => Err(OwnFault::Memory),
    }
}

/// What a value under `own` says.
fn own_in(table: &Value) -> Result<Own, OwnFault>
    ensures { spec.IsOwnIn (view table.now) result }
{
    if !table.is_table() {
        return Err(OwnFault::NoTable);
    }
    Ok(Own {
        idle_seconds: limit(table, OwnKey::IdleSeconds)?,
        bind_seconds: limit(table, OwnKey::BindSeconds)?,
        write_seconds: limit(table, OwnKey::WriteSeconds)?,
        linger_seconds: limit(table, OwnKey::LingerSeconds)?,
        sessions: limit(table, OwnKey::Sessions)?,
        part_entries: limit(table, OwnKey::PartEntries)?,
        ends_full: ends_full(table)?,
        status: status(table)?,
    })
}

/// The limit under a key, 0 if there is none.
fn limit(table: &Value, key: OwnKey) -> Result<u32, OwnFault>
    ensures { spec.IsLimit (view table.now) key result }
{
    let Some(value) = table.get(key.name()) else {
        return Ok(0);
    };
    match as_number(value) {
        Some(number) if number <= u64::from(key.most()) => Ok(number as u32),
        _ => Err(OwnFault::BadValue(key)),
    }
}

/// Whether `full` says that the server ends once its journal is full.
fn ends_full(table: &Value) -> Result<bool, OwnFault>
    ensures { spec.IsEndsFull (view table.now) result }
{
    let Some(value) = table.get("full") else {
        return Ok(false);
    };
    match value.as_str() {
        Some(text) if text == "end" => Ok(true),
        _ => Err(OwnFault::BadFull),
    }
}

/// The address and the port under `status`, if anything stands there.
fn status(table: &Value) -> Result<Option<SocketAddrV4>, OwnFault>
    ensures { spec.IsStatus (view table.now) result }
{
    let Some(value) = table.get("status") else {
        return Ok(None);
    };
    let Some(text) = value.as_str() else {
        return Err(OwnFault::BadStatus);
    };
    match read_listen(text) {
        Some(address) => Ok(Some(address)),
        None => Err(OwnFault::BadStatus),
    }
}
