// Whether the facts of a table hold.
ghost use Rattle.std.specs.Prelude.{◌≡◌, ◌<◌, ◌≤◌, ◌↔◌, ◌+◌, ◌≢◌, [], ◌∷◌, IsTrue, IsFalse, map, length, codes, take, count_by, IfOk};
ghost use Rattle.std.specs.List.{AllByRecursion};
ghost use Rattle.hc_text.specs.Names.{SameName};
ghost use Rattle.hc_schema.specs.Tables.{IsNewName, NamesDiffer, IsColumn, IsNotNull, IsAlias, AreDistinct, AscendFrom, IsIndex, AreKeyColumns, IsMade, AreNumbered, is_rule, is_primary, IsKeyNotNull, IsWellFormed, most_keys, column_names, index_names};

use crate::names::{automatic_name, is_reserved};
use crate::{Column, Index, IndexKind, NoMemory, Table};
use hc_text::is_same_name;
use hc_value::Class;
use std::alloc::Global;

/// Whether the facts of a table hold, but for the lengths of its records.
pub fn is_well_formed(alloc: Global, table: &Table) -> Result<bool, NoMemory>
    ensures { IfOk result (λ well. IsTrue well ↔ IsWellFormed table.now) }
{
    let columns = table.columns.as_slice();
    let indexes = table.indexes.as_slice();
    let name = table.name.as_str();
    if is_reserved(name) || !do_trees_ascend(table.tree, indexes) || table.tree == 0 {
        return Ok(false);
    }
    if columns.is_empty() || columns.len() > 255 || !are_columns(columns) {
        return Ok(false);
    }
    if !do_columns_differ(columns) || !is_alias(columns, table.alias) {
        return Ok(false);
    }
    if !are_indexes(columns.len(), indexes) || !do_indexes_differ(name, indexes) {
        return Ok(false);
    }
    if count_keys(indexes) > most_keys(table.alias) || !are_keys_not_null(columns, indexes) {
        return Ok(false);
    }
    are_numbered(alloc, name, indexes)
}

// ---- names

// Whether no column has this name.
fn lacks_column(name: &str, columns: &[Column]) -> bool
    ensures { IsTrue result ↔ AllByRecursion (λ column. SameName name.now column.name → ⊥) columns.now }
{
    columns
        .iter()
        .all(|column| !is_same_name(name, column.name.as_str()))
}

// Whether the columns' names differ.
fn do_columns_differ(columns: &[Column]) -> bool
    ensures { IsTrue result ↔ NamesDiffer (column_names columns.now) }
{
    let mut left = columns;
    while let Some((column, rest)) = left.split_first() {
        if !lacks_column(column.name.as_str(), rest) {
            return false;
        }
        left = rest;
    }
    true
}

// Whether no index has this name.
fn lacks_index(name: &str, indexes: &[Index]) -> bool
    ensures { IsTrue result ↔ AllByRecursion (λ index. SameName name.now index.name → ⊥) indexes.now }
{
    indexes
        .iter()
        .all(|index| !is_same_name(name, index.name.as_str()))
}

// Whether the names of the table and its indexes differ.
fn do_indexes_differ(name: &str, indexes: &[Index]) -> bool
    ensures { IsTrue result ↔ NamesDiffer (name.now ∷ index_names indexes.now) }
{
    if !lacks_index(name, indexes) {
        return false;
    }
    let mut left = indexes;
    while let Some((index, rest)) = left.split_first() {
        if !lacks_index(index.name.as_str(), rest) {
            return false;
        }
        left = rest;
    }
    true
}

// ---- columns

// Whether each column has one of the three classes.
fn are_columns(columns: &[Column]) -> bool
    ensures { IsTrue result ↔ AllByRecursion IsColumn columns.now }
{
    let mut left = columns;
    while let Some((column, rest)) = left.split_first() {
        if !is_column(column) {
            return false;
        }
        left = rest;
    }
    true
}

fn is_column(column: &Column) -> bool
    ensures { IsTrue result ↔ IsColumn column.now }
{
    let _name = column.name.as_str();
    column.class != Class::Null
}

// Whether a column refuses NULL.
fn is_not_null(columns: &[Column], k: u32) -> bool
    ensures { IsTrue result ↔ IsNotNull columns.now k }
{
    match columns.get(k as usize) {
        Some(column) => column.not_null,
        None => false,
    }
}

// Whether the alias column may be one.
fn is_alias(columns: &[Column], alias: Option<u32>) -> bool
    ensures { IsTrue result ↔ IsAlias columns.now alias }
{
    let Some(k) = alias else {
        return true;
    };
    match columns.get(k as usize) {
        Some(column) => column.class == Class::Int && column.not_null,
        None => false,
    }
}

// ---- indexes

// Whether the trees of the indexes ascend, from above the table's.
fn do_trees_ascend(tree: u32, indexes: &[Index]) -> bool
    ensures { IsTrue result ↔ AscendFrom tree (map (λ index. index.tree) indexes.now) }
{
    let mut low = tree;
    let mut left = indexes;
    while let Some((index, rest)) = left.split_first() {
        if index.tree <= low {
            return false;
        }
        low = index.tree;
        left = rest;
    }
    true
}

fn are_indexes(count: usize, indexes: &[Index]) -> bool
    ensures { IsTrue result ↔ AllByRecursion (IsIndex count) indexes.now }
{
    let mut left = indexes;
    while let Some((index, rest)) = left.split_first() {
        if !is_index(count, index) {
            return false;
        }
        left = rest;
    }
    true
}

// Whether an index has columns of the table, each once.
fn is_index(count: usize, index: &Index) -> bool
    ensures { IsTrue result ↔ IsIndex count index.now }
{
    let _name = index.name.as_str();
    let _tree = index.tree;
    are_key_columns(count, index.columns.as_slice())
}

// Whether these are columns of the table, one or more and each once.
fn are_key_columns(count: usize, columns: &[u32]) -> bool
    ensures { IsTrue result ↔ AreKeyColumns count columns.now }
{
    if columns.is_empty() || !are_below(columns, count) {
        return false;
    }
    are_distinct(columns)
}

// Whether each is a number below the bound.
fn are_below(numbers: &[u32], bound: usize) -> bool
    ensures { IsTrue result ↔ AllByRecursion (λ k. k < bound) numbers.now }
{
    numbers.iter().all(|k| (*k as usize) < bound)
}

// Whether a number is not in a list.
fn lacks_number(number: u32, numbers: &[u32]) -> bool
    ensures { IsTrue result ↔ AllByRecursion (λ m. number ≢ m) numbers.now }
{
    numbers.iter().all(|m| *m != number)
}

// Whether no number stands twice.
fn are_distinct(numbers: &[u32]) -> bool
    ensures { IsTrue result ↔ AreDistinct numbers.now }
{
    let mut left = numbers;
    while let Some((number, rest)) = left.split_first() {
        if !lacks_number(*number, rest) {
            return false;
        }
        left = rest;
    }
    true
}

fn is_rule(kind: IndexKind) -> bool
    ensures { result ≡ is_rule kind }
{
    matches!(kind, IndexKind::UniqueRule | IndexKind::Primary)
}

fn is_primary(kind: IndexKind) -> bool
    ensures { result ≡ is_primary kind }
{
    kind == IndexKind::Primary
}

// Whether each index was made by a statement of its own.
fn are_made(indexes: &[Index]) -> bool
    ensures { IsTrue result ↔ AllByRecursion IsMade indexes.now }
{
    indexes.iter().all(|index| !is_rule(index.kind) && !is_reserved(index.name.as_str()))
}

// Whether the indexes of the rules come first, with names that count from 1.
fn are_numbered(alloc: Global, table: &str, indexes: &[Index]) -> Result<bool, NoMemory>
    ensures { IfOk result (λ numbered. IsTrue numbered ↔ AreNumbered table.now 1 indexes.now) }
{
    let mut n: u64 = 1;
    let mut left = indexes;
    while let Some((index, rest)) = left.split_first() {
        if !is_rule(index.kind) {
            return Ok(are_made(left));
        }
        if automatic_name(alloc, table, n)? != index.name {
            return Ok(false);
        }
        n = n.saturating_add(1);
        left = rest;
    }
    Ok(true)
}

// How many primary keys are indexes.
fn count_keys(indexes: &[Index]) -> usize
    ensures { result ≡ count_by (λ index. is_primary index.kind) indexes.now }
{
    indexes
        .iter()
        .filter(|index| is_primary(index.kind))
        .count()
}

fn most_keys(alias: Option<u32>) -> usize
    ensures { result ≡ most_keys alias }
{
    match alias {
        Some(_) => 0,
        None => 1,
    }
}

// Whether the columns of primary keys refuse NULL.
fn are_keys_not_null(columns: &[Column], indexes: &[Index]) -> bool
    ensures { IsTrue result ↔ AllByRecursion (IsKeyNotNull columns.now) indexes.now }
{
    indexes.iter().all(|index| !is_primary(index.kind)
        || are_not_null(columns, index.columns.as_slice()))
}

// Whether each of these columns refuses NULL.
fn are_not_null(columns: &[Column], numbers: &[u32]) -> bool
    ensures { IsTrue result ↔ AllByRecursion (IsNotNull columns.now) numbers.now }
{
    numbers.iter().all(|k| is_not_null(columns, *k))
}
