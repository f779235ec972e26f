//! The configuration of a document that has no fault.

ghost use Rattle.std.specs.Prelude.{◌≡◌, IfOk, false, map, codes};
ghost use Rattle.std.specs.List.{AllByRecursion, find};
ghost use Rattle.std.specs.Option.{option_copied};
ghost use Rattle.config.specs.Faults.{is_numbered};
ghost use Rattle.toml.specs.View.{view};
ghost use Rattle.octet_fields.specs.Texts.{IsText};
ghost use Rattle.config.specs.Config as spec;
ghost use Rattle.config.specs.Rows.{has_twice};
ghost use Rattle.config.specs.Building.{AreNumbered, IsAccountRow, IsNodeRow, IsRouteRow};

use crate::config::{Config, DEFAULT_VALIDITY, NodeConfig};
use crate::key::Part;
use crate::listen::read_listen;
use crate::rows::{number_in, rows, text_in};
use crate::values::{MOST_NODES, is_numbered};
use accounts::{Account, Accounts, AccountsFault, Route, Routes};
use pdu_codec::Text;
use std::alloc::{AllocError, Global};
use toml::Value;

/// The configuration of a document that has no fault.
pub(crate) fn build(alloc: Global, document: &Value) -> Result<Config, AllocError>
    requires { spec.IsFaultless (view document.now) }
    ensures { IfOk result (spec.IsConfig (view document.now)) }
{
    let nodes = nodes_of(alloc, rows(document, Part::Nodes))?;
    let accounts = accounts_of(alloc, rows(document, Part::Accounts))?;
    let routes = routes_of(alloc, rows(document, Part::Routes))?;
    Ok(Config {
        system_id: short_text(alloc, document, "system_id")?,
        default_validity: number_at(document, "default_validity", DEFAULT_VALIDITY as u64) as u32,
        first_serial: number_at(document, "first_serial", 1) as u32,
        stop_after: number_at(document, "stop_after", 0),
        nodes,
        accounts,
        routes,
    })
}

/// The nodes of some rows, in the order of their numbers.
fn nodes_of(alloc: Global, rows: &[Value]) -> Result<Vec<NodeConfig>, AllocError>
    requires rows { AllByRecursion (λ row. IsNodeRow (view row)) rows.now }
    requires numbers { AreNumbered (map view rows.now) }
    ensures { IfOk result (λ nodes. spec.AreNodes (map view rows.now) nodes.items) }
{
    let mut nodes = Vec::new(alloc);
    for place in 0..MOST_NODES {
        let Some(row) = numbered(rows, place + 1) else {
            return Ok(nodes);
        };
        nodes.push(node_of(alloc, row)?)?;
    }
    Ok(nodes)
}

/// The row of a number.
fn numbered(rows: &[Value], number: u64) -> Option<&Value>
    ensures { option_copied result ≡ find (λ row. is_numbered number (view row)) rows.now }
{
    rows.iter().find(|row| is_numbered(row, number))
}

/// The node of a row.
fn node_of(alloc: Global, row: &Value) -> Result<NodeConfig, AllocError>
    requires { IsNodeRow (view row.now) }
    ensures { IfOk result (spec.IsNode (view row.now)) }
{
    let listen = read_listen(text_at(row, "listen")).unwrap();
    let store = match text_in(row, "store") {
        Some(path) => Some(String::from_str(alloc, path)?),
        None => None,
    };
    Ok(NodeConfig { listen, store })
}

/// The accounts of some rows.
fn accounts_of(alloc: Global, rows: &[Value]) -> Result<Accounts, AllocError>
    requires rows { AllByRecursion (λ row. IsAccountRow (view row)) rows.now }
    requires once { has_twice (codes "system_id") (map view rows.now) ≡ false }
    ensures { IfOk result (λ accounts. accounts ≡ map spec.account_at (map view rows.now)) }
{
    let mut accounts = Accounts::make(alloc);
    for row in rows {
        match accounts.add(account_of(alloc, row)?) {
            Ok(()) => {}
            Err(AccountsFault::Repeated) => unreachable!(),
            Err(AccountsFault::Memory) => return Err(AllocError),
        }
    }
    Ok(accounts)
}

/// The account of a row.
fn account_of(alloc: Global, row: &Value) -> Result<Account, AllocError>
    requires { IsAccountRow (view row.now) }
    ensures { IfOk result (λ account. account ≡ spec.account_at (view row.now)) }
{
    let system_id = short_text(alloc, row, "system_id")?;
    let password = short_text(alloc, row, "password")?;
    Ok(Account {
        system_id,
        password,
        transmit: flag_at(row, "transmit"),
        receive: flag_at(row, "receive"),
    })
}

/// The routes of some rows.
fn routes_of(alloc: Global, rows: &[Value]) -> Result<Routes, AllocError>
    requires rows { AllByRecursion (λ row. IsRouteRow (view row)) rows.now }
    requires once { has_twice (codes "prefix") (map view rows.now) ≡ false }
    ensures { IfOk result (λ routes. routes ≡ map spec.route_at (map view rows.now)) }
{
    let mut routes = Routes::make(alloc);
    for row in rows {
        match routes.add(route_of(alloc, row)?) {
            Ok(()) => {}
            Err(AccountsFault::Repeated) => unreachable!(),
            Err(AccountsFault::Memory) => return Err(AllocError),
        }
    }
    Ok(routes)
}

/// The route of a row.
fn route_of(alloc: Global, row: &Value) -> Result<Route, AllocError>
    requires { IsRouteRow (view row.now) }
    ensures { IfOk result (λ route. route ≡ spec.route_at (view row.now)) }
{
    let prefix = short_text(alloc, row, "prefix")?;
    let account = short_text(alloc, row, "account")?;
    Ok(Route { prefix, account })
}

/// The text under a name, which is short enough.
fn short_text<const LIMIT: usize>(
    alloc: Global,
    row: &Value,
    name: &str,
) -> Result<Text<LIMIT>, AllocError>
    requires { IsText LIMIT (spec.text_at name.now (view row.now)) }
    ensures { IfOk result (λ text. text ≡ spec.text_at name.now (view row.now)) }
{
    Text::of(alloc, text_at(row, name).as_bytes())
}

/// The text under a name; empty if there is none.
fn text_at<'a>(row: &'a Value, name: &str) -> &'a str
    ensures { result.now ≡ spec.text_at name.now (view row.now) }
{
    match text_in(row, name) {
        Some(text) => text,
        None => "",
    }
}

/// The number under a name, or the default.
fn number_at(row: &Value, name: &str, default: u64) -> u64
    ensures { result ≡ spec.number_at default name.now (view row.now) }
{
    number_in(row, name).unwrap_or(default)
}

/// The flag under a name; false if there is none.
fn flag_at(row: &Value, name: &str) -> bool
    ensures { result ≡ spec.flag_at name.now (view row.now) }
{
    match row.get(name) {
        Some(value) => value.as_bool().unwrap_or(false),
        None => false,
    }
}
