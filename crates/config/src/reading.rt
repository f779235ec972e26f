//! A configuration out of a text.

ghost use Rattle.std.specs.Prelude.{◌≡◌, MatchResult};
ghost use Rattle.toml.specs.Errors.{IsBlank};
ghost use Rattle.toml.specs.View.{view};
ghost use Rattle.config.specs.Config as spec;

use crate::build::build;
use crate::checks::{first_bad, first_missing, first_repeated};
use crate::config::Config;
use crate::fault::ConfigFault;
use crate::key::KEYS;
use std::alloc::Global;
use toml::Value;

/// The configuration that a text says (TOML, UTF-8), or the lowest fault that fits, with a place at which it is: `NotToml` only of
/// what is no TOML; else `Missing`, if a key without a default is not there or there is no node; else `BadValue`, if a value is of
/// another kind or range, a node is the tenth, or a route leads to no account of the text; else `Repeated`, if two accounts have
/// one system_id, two routes one prefix, or two nodes one number. Other keys are ignored. `Memory` is want of memory, of
/// which a text of white space and comments alone takes none.
pub fn read_config(alloc: Global, octets: &[u8]) -> Result<Config, ConfigFault>
    ensures outcome { spec.IsOutcome octets.now result }
    ensures memory { result ≡ Err ConfigFault.Memory → ¬ IsBlank octets.now }
{
    let document = document_of(alloc, octets)?;
    check(alloc, &document)?;
    Ok(build(alloc, &document)?)
}

/// The table of a text.
pub(crate) fn document_of(alloc: Global, octets: &[u8]) -> Result<Value, ConfigFault>
    ensures memory { result ≡ Err ConfigFault.Memory → ¬ IsBlank octets.now }
    ensures table { MatchResult result (λ document. spec.IsDocument octets.now (view document)) (spec.ReadsNone octets.now) }
{
    match toml::table_from_slice(alloc, octets) {
        Ok(members) => Ok(Value::Table(members)),
        Err(error) if error.is_memory() => Err(ConfigFault::Memory),
        Err(_) => Err(ConfigFault::NotToml),
    }
}

/// Whether a document has no fault.
fn check(alloc: Global, document: &Value) -> Result<(), ConfigFault>
    ensures { spec.IsChecked (view document.now) result }
{
    if let Some(place) = first_missing(document, &KEYS) {
        return Err(ConfigFault::Missing(place));
    }
    if let Some(place) = first_bad(alloc, document, &KEYS) {
        return Err(ConfigFault::BadValue(place));
    }
    if let Some(place) = first_repeated(alloc, document, &KEYS) {
        return Err(ConfigFault::Repeated(place));
    }
    Ok(())
}
