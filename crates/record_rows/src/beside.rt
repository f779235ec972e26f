//! The tables that may stand beside the two.

ghost use Rattle.std.specs.Prelude.{◌≡◌, ◌↔◌, ◌∷◌, map, IfOk, IsTrue};
ghost use Rattle.record_rows.specs.Beside.{AreBeside, IsBeside, ended, gone, key, known, table_of, whose};
ghost use Rattle.record_rows.specs.Kept.{checks_kept, column_kept, form_of};

use crate::tables::{are_none, are_plain, has_first_key, is_check_of_one, is_column};
use sqlite_schema::code::Terms;
use sqlite_schema::schema::{Column, Kind, Table};
use std::alloc::{AllocError, Global};

/// The first tree behind those of the two tables.
const FIRST_TREE: u32 = 3;

/// How many tables there are beside the two at most: more than there are forms.
const MOST_BESIDE: usize = 8;

/// A column behind the first.
#[derive(Clone, Copy)]
pub(crate) enum Kept<'a> {
    /// It has integers.
    Whole(&'a [u8]),
    /// It has octets.
    Octets(&'a [u8]),
}

/// How a table beside is made.
#[derive(Clone, Copy)]
pub(crate) struct Form<'a> {
    name: &'a [u8],
    /// The column under whose integer a row stands.
    first: &'a [u8],
    others: &'a [Kept<'a>],
    /// Whether that integer is 1, so that there is one row at most.
    is_single: bool,
}

fn is_kept(column: &Column, kept: &Kept<'_>) -> bool
    ensures { IsTrue result ↔ (column.now ≡ column_kept kept.now) }
{
    match kept {
        Kept::Whole(name) => is_column(column, name, Kind::Integer, true),
        Kept::Octets(name) => is_column(column, name, Kind::Any, true),
    }
}

#[tactic(auto, using(crate::proofs::BesideLemmas::same_more, crate::proofs::BesideLemmas::same_all))]
fn are_kept(columns: &[Column], kept: &[Kept<'_>]) -> bool
    ensures { IsTrue result ↔ (columns.now ≡ map column_kept kept.now) }
{
    if columns.len() != kept.len() {
        return false;
    }
    for at in 0..columns.len() {
        if !is_kept(&columns[at], &kept[at]) {
            return false;
        }
    }
    true
}

fn are_columns(columns: &[Column], first: &[u8], others: &[Kept<'_>]) -> bool
    ensures { IsTrue result ↔ (columns.now ≡ key first.now ∷ map column_kept others.now) }
{
    match columns {
        [one, behind @ ..] => is_column(one, first, Kind::Integer, false)
            && are_kept(behind, others),
        [] => false,
    }
}

fn are_checks(alloc: Global, checks: &Terms, is_single: bool) -> Result<bool, AllocError>
    ensures { IfOk result (λ same. IsTrue same ↔ (checks.now ≡ checks_kept is_single)) }
{
    if is_single {
        is_check_of_one(alloc, checks)
    } else {
        are_none(alloc, checks)
    }
}

#[tactic(auto, using(crate::proofs::BesideLemmas::form_is))]
fn is_form(alloc: Global, table: &Table, form: &Form<'_>) -> Result<bool, AllocError>
    ensures { IfOk result (λ same. IsTrue same ↔ (table.now ≡ table_of (form_of form.now) table.now.tree)) }
{
    if !are_checks(alloc, &table.checks, form.is_single)? {
        return Ok(false);
    }
    if !are_plain(alloc, table)? {
        return Ok(false);
    }
    if table.name.as_slice() != form.name {
        return Ok(false);
    }
    if !has_first_key(table) {
        return Ok(false);
    }
    Ok(are_columns(table.columns.as_slice(), form.first, form.others))
}

/// Whose the store is.
fn is_whose(alloc: Global, table: &Table) -> Result<bool, AllocError>
    ensures { IfOk result (λ same. IsTrue same ↔ (table.now ≡ table_of whose table.now.tree)) }
{
    let others = [
        Kept::Whole(b"cluster"),
        Kept::Whole(b"node"),
        Kept::Whole(b"nodes"),
        Kept::Whole(b"at"),
    ];
    let form = Form {
        name: b"whose",
        first: b"one",
        others: &others,
        is_single: true,
    };
    is_form(alloc, table, &form)
}

/// Which votes made the node know a chain.
fn is_known(alloc: Global, table: &Table) -> Result<bool, AllocError>
    ensures { IfOk result (λ same. IsTrue same ↔ (table.now ≡ table_of known table.now.tree)) }
{
    let others = [
        Kept::Whole(b"place"),
        Kept::Whole(b"voted"),
        Kept::Whole(b"voters"),
        Kept::Octets(b"chain"),
    ];
    let form = Form {
        name: b"known",
        first: b"id",
        others: &others,
        is_single: false,
    };
    is_form(alloc, table, &form)
}

/// Which ids are gone, in spans.
fn is_gone(alloc: Global, table: &Table) -> Result<bool, AllocError>
    ensures { IfOk result (λ same. IsTrue same ↔ (table.now ≡ table_of gone table.now.tree)) }
{
    let others = [Kept::Whole(b"last"), Kept::Whole(b"state")];
    let form = Form {
        name: b"gone",
        first: b"first",
        others: &others,
        is_single: false,
    };
    is_form(alloc, table, &form)
}

/// The messages that have ended.
fn is_ended(alloc: Global, table: &Table) -> Result<bool, AllocError>
    ensures { IfOk result (λ same. IsTrue same ↔ (table.now ≡ table_of ended table.now.tree)) }
{
    let others = [
        Kept::Whole(b"place"),
        Kept::Whole(b"promised"),
        Kept::Whole(b"voted"),
        Kept::Whole(b"voters"),
        Kept::Octets(b"chain"),
        Kept::Octets(b"below"),
    ];
    let form = Form {
        name: b"ended",
        first: b"id",
        others: &others,
        is_single: false,
    };
    is_form(alloc, table, &form)
}

/// Whether the table may stand beside the two: its form is one of these. A further form is one more function as those above, and one more line here.
fn is_beside(alloc: Global, table: &Table) -> Result<bool, AllocError>
    ensures { IfOk result (λ same. IsTrue same ↔ IsBeside table.now) }
{
    if table.tree < FIRST_TREE {
        return Ok(false);
    }
    if is_whose(alloc, table)? {
        return Ok(true);
    }
    if is_known(alloc, table)? {
        return Ok(true);
    }
    if is_gone(alloc, table)? {
        return Ok(true);
    }
    is_ended(alloc, table)
}

/// Whether all of these tables may stand beside the two, in whatever order.
#[tactic(auto, using(crate::proofs::BesideLemmas::all_more, crate::proofs::BesideLemmas::all_of))]
pub(crate) fn are_beside(alloc: Global, tables: &[Table]) -> Result<bool, AllocError>
    ensures { IfOk result (λ all. IsTrue all ↔ AreBeside tables.now) }
{
    if tables.len() > MOST_BESIDE {
        return Ok(false);
    }
    for table in tables {
        if !is_beside(alloc, table)? {
            return Ok(false);
        }
    }
    Ok(true)
}
