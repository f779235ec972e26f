//! Which of the two tables a database has.

ghost use Rattle.std.specs.Prelude.{◌≡◌, ◌↔◌, [], ◌∷◌, pos, IfOk, IsTrue};
ghost use Rattle.sqlite.specs.Held.{state};
ghost use Rattle.record_rows.specs.Tables.{column_of, is_one, life_table, slots_table, slots_index};
ghost use Rattle.record_rows.specs.Found.{HasFirstKey, HasSlotsKeys, IsFound, IsFoundIn, IsPlainTable};
ghost use Rattle.sqlite_sql.specs.Syntax.{term_at, term_of, terms_of};
ghost use Rattle.sqlite_sql.specs.Term.{col, lit};
ghost use Rattle.sqlite_value.specs.Keys.{plain};

use crate::beside::are_beside;
use sqlite::{Alter, Connection};
use sqlite_items::Items;
use sqlite_schema::code::Terms;
use sqlite_schema::schema::{Column, Index, Kind, Schema, Table};
use sqlite_sql::expr::{Node, open};
use sqlite_sql::ops::{BinaryOp, CompareOp};
use sqlite_value::keys::{Collation, Order};
use sqlite_value::value::{Value, ValueRef};
use std::alloc::{AllocError, Global};

/// Which of the two tables a database has.
#[derive(Clone, Copy, Debug, PartialEq, Eq)]
pub enum Found {
    /// It is empty.
    Neither,
    LifeAlone,
    SlotsAlone,
    /// It has both, and `life` was made first; behind them it may have others that may stand beside them.
    LifeFirst,
    /// The same, and `slots` was made first.
    SlotsFirst,
    /// It is none of these: it has another object, or a table of another form, or such once stood there, so that the two stand in other trees.
    Foreign,
}

pub(crate) fn is_column(column: &Column, name: &[u8], kind: Kind, not_null: bool) -> bool
    ensures { IsTrue result ↔ (column.now ≡ column_of name.now kind not_null) }
{
    column.name.as_slice() == name
        && column.kind == kind
        && !column.is_strict
        && column.not_null == not_null
        && matches!(column.default, Value::Null)
        && column.collation == Collation::Binary
}

fn are_life_columns(columns: &[Column]) -> bool
    ensures { IsTrue result ↔ (columns.now ≡ (life_table 0).columns) }
{
    match columns {
        [one, incarnation] => is_column(one, b"one", Kind::Integer, false)
            && is_column(incarnation, b"incarnation", Kind::Integer, true),
        _ => false,
    }
}

fn are_slots_columns(columns: &[Column]) -> bool
    ensures { IsTrue result ↔ (columns.now ≡ (slots_table 0).columns) }
{
    let [id, place, promised, voted, chain] = columns else {
        return false;
    };
    if !is_column(id, b"id", Kind::Integer, true) {
        return false;
    }
    if !is_column(place, b"place", Kind::Integer, true) {
        return false;
    }
    if !is_column(promised, b"promised", Kind::Integer, true) {
        return false;
    }
    if !is_column(voted, b"voted", Kind::Integer, true) {
        return false;
    }
    is_column(chain, b"chain", Kind::Any, true)
}

pub(crate) fn are_none(alloc: Global, terms: &Terms) -> Result<bool, AllocError>
    ensures { IfOk result (λ none. IsTrue none ↔ (terms.now ≡ [])) }
{
    let lent = terms.lend(alloc)?;
    Ok(lent.roots.is_empty())
}

/// Whether the term at a place is the first column.
fn is_first_column(nodes: &[Node<'_>], depth: usize, at: usize) -> bool
    ensures { IsTrue result ↔ (term_at nodes.now depth at ≡ col 1 0) }
{
    let (node, _) = open(nodes, depth, at);
    matches!(node, Node::Column(1, 0))
}

/// Whether it is the number 1.
fn is_number_one(nodes: &[Node<'_>], depth: usize, at: usize) -> bool
    ensures { IsTrue result ↔ (term_at nodes.now depth at ≡ lit (Value.Int (pos 1))) }
{
    let (node, _) = open(nodes, depth, at);
    matches!(node, Node::Literal(ValueRef::Int(1)))
}

/// Whether it is the test that the first column is 1, in whatever order the nodes stand.
fn is_test_of_one(nodes: &[Node<'_>], at: usize) -> bool
    ensures { IsTrue result ↔ (term_of nodes.now at ≡ is_one) }
{
    let (node, depth) = open(nodes, nodes.len(), at);
    match node {
        Node::Binary(BinaryOp::Compare(CompareOp::Eq, Collation::Binary), left, right) => {
            is_first_column(nodes, depth, left) && is_number_one(nodes, depth, right)
        }
        _ => false,
    }
}

/// Whether this is the one term at these places.
fn are_tests_of_one(nodes: &[Node<'_>], roots: &[usize]) -> bool
    ensures { IsTrue result ↔ (terms_of nodes.now roots.now ≡ is_one ∷ []) }
{
    match roots {
        [root] => is_test_of_one(nodes, *root),
        _ => false,
    }
}

pub(crate) fn is_check_of_one(alloc: Global, terms: &Terms) -> Result<bool, AllocError>
    ensures { IfOk result (λ same. IsTrue same ↔ (terms.now ≡ is_one ∷ [])) }
{
    let lent = terms.lend(alloc)?;
    Ok(are_tests_of_one(lent.nodes.as_slice(), lent.roots))
}

pub(crate) fn are_plain(alloc: Global, table: &Table) -> Result<bool, AllocError>
    ensures { IfOk result (λ plain. IsTrue plain ↔ IsPlainTable table.now) }
{
    let stamps = are_none(alloc, &table.stamps.terms)?;
    Ok(
        stamps
            && table.stamps.places.is_empty()
            && table.stamps.formats.is_empty()
            && table.references.is_empty()
            && table.computed.is_empty()
            && !table.is_counted,
    )
}

fn is_named(table: &Table, name: &[u8], tree: u32) -> bool
    ensures { IsTrue result ↔ (table.now.name ≡ name.now) × (table.now.tree ≡ tree) }
{
    table.name.as_slice() == name && table.tree == tree
}

/// Whether the rows stand under the integer in the first column, and there is no other key.
pub(crate) fn has_first_key(table: &Table) -> bool
    ensures { IsTrue result ↔ HasFirstKey table.now }
{
    if table.key != Some(0) {
        return false;
    }
    if table.primary.as_slice() != [0].as_slice() {
        return false;
    }
    if !table.uniques.is_empty() {
        return false;
    }
    table.orders.is_empty()
}

#[tactic(auto, using(crate::proofs::TableLemmas::life_is))]
fn is_life(alloc: Global, table: &Table, tree: u32) -> Result<bool, AllocError>
    ensures { IfOk result (λ same. IsTrue same ↔ (table.now ≡ life_table tree)) }
{
    if !is_check_of_one(alloc, &table.checks)? {
        return Ok(false);
    }
    if !are_plain(alloc, table)? {
        return Ok(false);
    }
    if !is_named(table, b"life", tree) {
        return Ok(false);
    }
    if !has_first_key(table) {
        return Ok(false);
    }
    Ok(are_life_columns(table.columns.as_slice()))
}

fn is_key(places: &[usize]) -> bool
    ensures { IsTrue result ↔ (places.now ≡ 1 ∷ 2 ∷ []) }
{
    places == [1, 2].as_slice()
}

fn are_slots_keys(uniques: &[Items<usize>], orders: &[Order]) -> bool
    ensures { IsTrue result ↔ (uniques.now ≡ (1 ∷ 2 ∷ []) ∷ []) × (orders.now ≡ plain ∷ []) }
{
    match (uniques, orders) {
        ([key], [order]) => is_key(key.as_slice()) && order.digits == 0,
        _ => false,
    }
}

fn has_slots_keys(table: &Table) -> bool
    ensures { IsTrue result ↔ HasSlotsKeys table.now }
{
    if table.key.is_some() {
        return false;
    }
    if !is_key(table.primary.as_slice()) {
        return false;
    }
    are_slots_keys(table.uniques.as_slice(), table.orders.as_slice())
}

#[tactic(auto, using(crate::proofs::TableLemmas::slots_is))]
fn is_slots(alloc: Global, table: &Table, tree: u32) -> Result<bool, AllocError>
    ensures { IfOk result (λ same. IsTrue same ↔ (table.now ≡ slots_table tree)) }
{
    if !are_none(alloc, &table.checks)? {
        return Ok(false);
    }
    if !are_plain(alloc, table)? {
        return Ok(false);
    }
    if !is_named(table, b"slots", tree) {
        return Ok(false);
    }
    if !has_slots_keys(table) {
        return Ok(false);
    }
    Ok(are_slots_columns(table.columns.as_slice()))
}

#[tactic(auto, using(crate::proofs::TableLemmas::index_is))]
fn is_slots_index(index: &Index, table: u32, tree: u32) -> bool
    ensures { IsTrue result ↔ (index.now ≡ slots_index table tree) }
{
    if index.name.as_slice() != b"sqlite_autoindex_slots_1".as_slice() {
        return false;
    }
    if index.table != table {
        return false;
    }
    if index.tree != tree {
        return false;
    }
    if !is_key(index.columns.as_slice()) {
        return false;
    }
    if index.order.digits != 0 {
        return false;
    }
    index.is_unique
}

fn are_slots_indexes(indexes: &[Index], table: u32, tree: u32) -> bool
    ensures { IsTrue result ↔ (indexes.now ≡ slots_index table tree ∷ []) }
{
    let [index] = indexes else {
        return false;
    };
    is_slots_index(index, table, tree)
}

fn life_alone(alloc: Global, table: &Table) -> Result<Found, AllocError>
    ensures { IfOk result (λ found. IsFound found (table.now ∷ []) []) }
{
    if !is_life(alloc, table, 0)? {
        return Ok(Found::Foreign);
    }
    Ok(Found::LifeAlone)
}

fn life_first(
    alloc: Global,
    first: &Table,
    second: &Table,
    beside: &[Table],
) -> Result<Found, AllocError>
    ensures { IfOk result (λ found. IsFound found (first.now ∷ second.now ∷ beside.now) (slots_index 1 2 ∷ [])) }
{
    if !is_life(alloc, first, 0)? {
        return Ok(Found::Foreign);
    }
    if !is_slots(alloc, second, 1)? {
        return Ok(Found::Foreign);
    }
    if !are_beside(alloc, beside)? {
        return Ok(Found::Foreign);
    }
    Ok(Found::LifeFirst)
}

fn slots_first(
    alloc: Global,
    first: &Table,
    second: &Table,
    beside: &[Table],
) -> Result<Found, AllocError>
    ensures { IfOk result (λ found. IsFound found (first.now ∷ second.now ∷ beside.now) (slots_index 0 1 ∷ [])) }
{
    if !is_slots(alloc, first, 0)? {
        return Ok(Found::Foreign);
    }
    if !is_life(alloc, second, 2)? {
        return Ok(Found::Foreign);
    }
    if !are_beside(alloc, beside)? {
        return Ok(Found::Foreign);
    }
    Ok(Found::SlotsFirst)
}

fn alone(alloc: Global, table: &Table, indexes: &[Index]) -> Result<Found, AllocError>
    ensures { IfOk result (λ found. IsFound found (table.now ∷ []) indexes.now) }
{
    if indexes.is_empty() {
        return life_alone(alloc, table);
    }
    if !are_slots_indexes(indexes, 0, 1) {
        return Ok(Found::Foreign);
    }
    if !is_slots(alloc, table, 0)? {
        return Ok(Found::Foreign);
    }
    Ok(Found::SlotsAlone)
}

fn together(
    alloc: Global,
    first: &Table,
    second: &Table,
    beside: &[Table],
    indexes: &[Index],
) -> Result<Found, AllocError>
    ensures { IfOk result (λ found. IsFound found (first.now ∷ second.now ∷ beside.now) indexes.now) }
{
    if are_slots_indexes(indexes, 1, 2) {
        return life_first(alloc, first, second, beside);
    }
    if !are_slots_indexes(indexes, 0, 1) {
        return Ok(Found::Foreign);
    }
    slots_first(alloc, first, second, beside)
}

fn empty(indexes: &[Index]) -> Found
    ensures { IsFound result [] indexes.now }
{
    if indexes.is_empty() {
        Found::Neither
    } else {
        Found::Foreign
    }
}

/// Which of the two tables the schema has.
fn tables_in(alloc: Global, schema: &Schema) -> Result<Found, AllocError>
    ensures { IfOk result (IsFoundIn schema.now) }
{
    if !schema.views.is_empty() {
        return Ok(Found::Foreign);
    }
    let indexes = schema.indexes.as_slice();
    match schema.tables.as_slice() {
        [] => Ok(empty(indexes)),
        [table] => alone(alloc, table, indexes),
        [first, second, beside @ ..] => together(alloc, first, second, beside, indexes),
    }
}

/// Which of the two tables the database of a connection has.
pub fn find_tables<S: Alter>(alloc: Global, conn: &Connection<S>) -> Result<Found, AllocError>
    ensures { IfOk result (IsFoundIn (state S.Store conn.now).now.schema) }
{
    tables_in(alloc, conn.schema())
}
