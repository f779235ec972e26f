//! The limits in the table of one account.

ghost use Rattle.std.specs.Prelude.{◌<◌, length, map, IfOk, IfErr, OnOk};
ghost use Rattle.toml.specs.View.{view};
ghost use Rattle.config_limits.specs.Reading as spec;
ghost use Rattle.config_limits.specs.declared.key.LimitKey.TheVariants as keys;

use crate::key::LimitKey;
use crate::limited_account::LimitedAccount;
use crate::row_fault::RowFault;
use crate::values::{as_number, elements_of, text_at};
use account_limits::{Limits, Net, PasswordHash, SenderFault, SenderPattern};
use std::alloc::Global;
use toml::Value;

/// The account of a table, with its limits.
pub(crate) fn account_of(alloc: Global, row: &Value) -> Result<LimitedAccount, RowFault>
    ensures ok { IfOk result (spec.IsLimited (view row.now)) }
    ensures err { IfErr result (spec.IsRowFault (view row.now)) }
{
    let system_id = Vec::from_slice(alloc, text_at(row, "system_id").as_bytes())?;
    let limits = limits_of(alloc, row)?;
    Ok(LimitedAccount { system_id, limits })
}

/// The limits of a table.
fn limits_of(alloc: Global, row: &Value) -> Result<Limits, RowFault>
    ensures ok { IfOk result (spec.AreLimits (view row.now)) }
    ensures err { IfErr result (spec.IsRowFault (view row.now)) }
{
    let from = nets_of(alloc, row)?;
    let senders = senders_of(alloc, row)?;
    let sessions = number_of(row, LimitKey::Sessions)?;
    let per_second = number_of(row, LimitKey::PerSecond)?;
    let password = password_of(row)?;
    Ok(Limits {
        from,
        sessions,
        per_second,
        senders,
        password,
    })
}

/// The number under a key; 0 if there is none.
fn number_of(row: &Value, key: LimitKey) -> Result<u32, RowFault>
    ensures ok { IfOk result (spec.IsNumberAt key (spec.given key (view row.now))) }
    ensures err { IfErr result (spec.IsFaultOf key (spec.IsBadNumber key (spec.given key (view row.now)))) }
{
    let Some(value) = row.get(key.name()) else {
        return Ok(0);
    };
    match as_number(value) {
        Some(number) if 1 <= number && number <= u64::from(key.most()) => Ok(number as u32),
        _ => Err(RowFault::BadValue(key)),
    }
}

/// The hash under `password_sha256`, if one stands there.
fn password_of(row: &Value) -> Result<Option<PasswordHash>, RowFault>
    ensures ok { IfOk result (spec.IsHashAt (spec.given keys.PasswordSha256 (view row.now))) }
    ensures err { IfErr result (spec.IsFaultOf keys.PasswordSha256 (spec.IsBadHash (spec.given keys.PasswordSha256 (view row.now)))) }
{
    let Some(value) = row.get(LimitKey::PasswordSha256.name()) else {
        return Ok(None);
    };
    let Some(text) = value.as_str() else {
        return Err(RowFault::BadValue(LimitKey::PasswordSha256));
    };
    match PasswordHash::parse(text.as_bytes()) {
        Ok(hash) => Ok(Some(hash)),
        Err(_) => Err(RowFault::BadValue(LimitKey::PasswordSha256)),
    }
}

/// The nets under `from`; none if nothing stands there.
fn nets_of(alloc: Global, row: &Value) -> Result<Vec<Net>, RowFault>
    ensures ok { IfOk result (λ nets. spec.AreAt spec.IsNet (spec.given keys.From (view row.now)) nets.items) }
    ensures err { IfErr result (spec.IsFaultOf keys.From (spec.AreBadAt spec.IsBadNet (spec.given keys.From (view row.now)))) }
{
    match row.get(LimitKey::From.name()) {
        Some(value) => nets_in(alloc, elements_of(value)),
        None => Ok(Vec::new(alloc)),
    }
}

/// The nets of some values, of which there is one at least.
fn nets_in(alloc: Global, values: &[Value]) -> Result<Vec<Net>, RowFault>
    ensures some { OnOk result (0 < length values.now) }
    ensures ok { IfOk result (λ nets. spec.EachSays spec.IsNet (map view values.now) nets.items) }
    ensures err { IfErr result (spec.IsFaultOf keys.From (spec.HasBad spec.IsBadNet (map view values.now))) }
{
    if values.is_empty() {
        return Err(RowFault::BadValue(LimitKey::From));
    }
    let mut nets = Vec::new(alloc);
    for value in values {
        nets.push(net_of(value)?)?;
    }
    Ok(nets)
}

/// The net of a value.
fn net_of(value: &Value) -> Result<Net, RowFault>
    ensures ok { IfOk result (spec.IsNet (view value.now)) }
    ensures err { IfErr result (spec.IsFaultOf keys.From (spec.IsBadNet (view value.now))) }
{
    let Some(text) = value.as_str() else {
        return Err(RowFault::BadValue(LimitKey::From));
    };
    match Net::parse(text.as_bytes()) {
        Ok(net) => Ok(net),
        Err(_) => Err(RowFault::BadValue(LimitKey::From)),
    }
}

/// The senders under `senders`; none if nothing stands there.
fn senders_of(alloc: Global, row: &Value) -> Result<Vec<SenderPattern>, RowFault>
    ensures ok { IfOk result (λ senders. spec.AreAt spec.IsSender (spec.given keys.Senders (view row.now)) senders.items) }
    ensures err { IfErr result (spec.IsFaultOf keys.Senders (spec.AreBadAt spec.IsBadSender (spec.given keys.Senders (view row.now)))) }
{
    match row.get(LimitKey::Senders.name()) {
        Some(value) => senders_in(alloc, elements_of(value)),
        None => Ok(Vec::new(alloc)),
    }
}

/// The senders of some values, of which there is one at least.
fn senders_in(alloc: Global, values: &[Value]) -> Result<Vec<SenderPattern>, RowFault>
    ensures some { OnOk result (0 < length values.now) }
    ensures ok { IfOk result (λ senders. spec.EachSays spec.IsSender (map view values.now) senders.items) }
    ensures err { IfErr result (spec.IsFaultOf keys.Senders (spec.HasBad spec.IsBadSender (map view values.now))) }
{
    if values.is_empty() {
        return Err(RowFault::BadValue(LimitKey::Senders));
    }
    let mut senders = Vec::new(alloc);
    for value in values {
        senders.push(sender_of(alloc, value)?)?;
    }
    Ok(senders)
}

/// The sender of a value.
fn sender_of(alloc: Global, value: &Value) -> Result<SenderPattern, RowFault>
    ensures ok { IfOk result (spec.IsSender (view value.now)) }
    ensures err { IfErr result (spec.IsFaultOf keys.Senders (spec.IsBadSender (view value.now))) }
{
    let Some(text) = value.as_str() else {
        return Err(RowFault::BadValue(LimitKey::Senders));
    };
    match SenderPattern::parse(alloc, text.as_bytes()) {
        Ok(sender) => Ok(sender),
        Err(SenderFault::Memory) => Err(RowFault::Memory),
        Err(_) => Err(RowFault::BadValue(LimitKey::Senders)),
    }
}
