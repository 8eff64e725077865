// A row as cells.
ghost use Rattle.std.specs.Prelude.{◌≡◌, ◌++◌, [], ◌∷◌, ◌<◌, ◌≤◌, ◌↔◌, ℤ, IsTrue, FitsSigned, length, map, Some, List, slice_get, slice_set, IfOk, IfSome, IfNone};
ghost use Rattle.std.specs.Int.{w64};
ghost use Rattle.hc_value.specs.declared.value.Value.{Value as AnyValue};
ghost use Rattle.hc_value.specs.declared.value.Value.TheVariants.{Int, Null};
ghost use Rattle.hc_key.specs.Keys.{key_bytes};
ghost use Rattle.std.specs.List.{AllByRecursion};
ghost use Rattle.hc_schema.specs.Cells.{IsShort, IsTable, entry_len, value_at, stored_values, row_entry, row_index_entry, row_entries, row_cells};
ghost use Rattle.hc_schema.specs.Databases.{FitsColumn, HasRowid, IsRowCell, IsSized};
ghost use Rattle.hc_schema.specs.declared.row.Row.{Row as AnyRow};
ghost use Rattle.hc_schema.specs.Tables.{Pairwise};

use crate::entry::{Entry, entry_lens, write_all};
use crate::reading::read_values;
use crate::{Cell, Column, Index, NoMemory, Table};
use hc_key::laws::keys_of_different_lists_differ;
use hc_key::{KeyFault, values_of};
use hc_value::{Value, class, copy};
use sqlite_items::Items;
use std::alloc::{AllocError, Global};

/// A row of a table.
#[derive(Debug, Drop)]
pub struct Row {
    pub rowid: i64,
    /// A value for each column.
    pub values: Items<Value>,
}

/// The row whose own cell this is. `None` exactly where it is not the cell of a row that the table may have.
pub fn row_of(alloc: Global, table: &Table, cell: &Cell) -> Result<Option<Row>, NoMemory>
    requires { IsTable table.now }
    // What is answered is such a row.
    ensures found { IfOk result (λ answer. IfSome answer (λ row. IsRowCell table.now cell.now row)) }
    // Each such row is answered.
    ensures none { IfOk result (λ answer. IfNone answer ((row : AnyRow) → IsRowCell table.now cell.now row → ⊥)) }
{
    let Some(rowid) = read_rowid(alloc, table.tree, cell.key.as_slice())? else {
        return Ok(None);
    };
    let Some(stored) = read_values(alloc, cell.rec.as_slice())? else {
        return Ok(None);
    };
    let Some(values) = with_rowid(table.alias, rowid, stored) else {
        return Ok(None);
    };
    if do_fit(table.columns.as_slice(), values.as_slice()) {
        Ok(Some(Row { rowid, values }))
    } else {
        Ok(None)
    }
}

// The rowid of a key of the tree.
fn read_rowid(alloc: Global, tree: u32, key: &[u8]) -> Result<Option<i64>, NoMemory>
    ensures found { IfOk result (λ answer. IfSome answer (λ rowid. FitsSigned w64 rowid × (key.now ≡ key_bytes tree (Int rowid ∷ [])))) }
    ensures all { IfOk result (λ answer. (rowid : ℤ) → FitsSigned w64 rowid → key.now ≡ key_bytes tree (Int rowid ∷ []) → answer ≡ Some rowid) }
{
    keys_of_different_lists_differ();
    if key.len() as u64 >= 1 << 32 {
        return Ok(None);
    }
    match values_of(alloc, key) {
        Ok((found, values)) => Ok(rowid_from(tree, found, values.as_slice())),
        Err(KeyFault::Bad { .. }) => Ok(None),
        Err(KeyFault::NoMemory) => Err(AllocError),
    }
}

fn rowid_from(tree: u32, found: u32, values: &[Value]) -> Option<i64>
    ensures some { IfSome result (λ rowid. (found ≡ tree) × (values.now ≡ Int rowid ∷ [])) }
    ensures all { (rowid : ℤ) → found ≡ tree → values.now ≡ Int rowid ∷ [] → result ≡ Some rowid }
{
    match values {
        [Value::Int(rowid)] if found == tree => Some(*rowid),
        _ => None,
    }
}

// The values of a row by those that its record has. The alias column's has to be NULL there.
fn with_rowid(alias: Option<u32>, rowid: i64, stored: Items<Value>) -> Option<Items<Value>>
    ensures some { IfSome result (λ values. (stored ≡ stored_values alias values) × HasRowid alias (record { rowid = rowid; values = values })) }
    ensures all { (row : AnyRow) → row.rowid ≡ rowid → IsSized alias row.values → HasRowid alias row → stored ≡ stored_values alias row.values → result ≡ Some row.values }
{
    match alias {
        Some(k) => with_rowid_at(k, rowid, stored),
        None => Some(stored),
    }
}

// The same where the k-th column is the alias column.
fn with_rowid_at(k: u32, rowid: i64, stored: Items<Value>) -> Option<Items<Value>>
    ensures some { IfSome result (λ values. (stored ≡ slice_set values k Null) × (value_at values k ≡ Int rowid)) }
    ensures all { (values : List AnyValue) → k < length values → value_at values k ≡ Int rowid → stored ≡ slice_set values k Null → result ≡ Some values }
{
    let mut values = stored;
    if !has_null(values.as_slice(), k as usize) {
        return None;
    }
    values.set(k as usize, Value::Int(rowid));
    Some(values)
}

// Whether NULL is at a place.
fn has_null(values: &[Value], k: usize) -> bool
    ensures { IsTrue result ↔ (slice_get values.now k ≡ Some Null) }
{
    match values.get(k) {
        Some(Value::Null) => true,
        _ => false,
    }
}

// Whether there is a value for each column that the column may have.
fn do_fit(columns: &[Column], values: &[Value]) -> bool
    ensures { IsTrue result ↔ Pairwise FitsColumn columns.now values.now }
{
    let mut left = columns;
    let mut right = values;
    while let Some((column, rest)) = left.split_first() {
        let Some((value, more)) = right.split_first() else {
            return false;
        };
        if !does_fit(column, value) {
            return false;
        }
        left = rest;
        right = more;
    }
    right.is_empty()
}

fn does_fit(column: &Column, value: &Value) -> bool
    ensures { IsTrue result ↔ FitsColumn column.now value.now }
{
    match value {
        Value::Null => !column.not_null,
        _ => class(value) == column.class,
    }
}

/// How many bytes key and record of each cell of a row have together: its own, and then those in the indexes in order
/// of creation. No key and no record is made, so it is told also of a row whose record is too long.
pub fn row_lens(
    alloc: Global,
    table: &Table,
    rowid: i64,
    values: &[Value],
) -> Result<Items<u64>, NoMemory>
    ensures { IfOk result (λ lens. lens ≡ map entry_len (row_entries table.now rowid values.now)) }
{
    let entries = row_entries(alloc, table, rowid, values)?;
    entry_lens(alloc, entries.as_slice())
}

/// The cells of a row: its own, and then those in the indexes in order of creation.
pub fn row_cells(
    alloc: Global,
    table: &Table,
    rowid: i64,
    values: &[Value],
) -> Result<Items<Cell>, NoMemory>
    requires { IsShort (row_entry table.now rowid values.now) }
    ensures { IfOk result (λ cells. cells ≡ row_cells table.now rowid values.now) }
{
    let entries = row_entries(alloc, table, rowid, values)?;
    write_all(alloc, entries.as_slice())
}

// The entries of a row.
fn row_entries(
    alloc: Global,
    table: &Table,
    rowid: i64,
    values: &[Value],
) -> Result<Items<Entry>, NoMemory>
    ensures { IfOk result (λ entries. entries ≡ row_entries table.now rowid values.now) }
{
    let mut entries = Items::new(alloc);
    entries.push(row_entry(alloc, table, rowid, values)?)?;
    for index in table.indexes.as_slice() {
        entries.push(row_index_entry(alloc, rowid, values, index)?)?;
    }
    Ok(entries)
}

// A row's own entry.
fn row_entry(alloc: Global, table: &Table, rowid: i64, values: &[Value]) -> Result<Entry, NoMemory>
    ensures { IfOk result (λ entry. entry ≡ row_entry table.now rowid values.now) }
{
    let mut own = Items::new(alloc);
    own.push(Value::Int(rowid))?;
    Ok(Entry {
        tree: table.tree,
        key: own,
        values: stored_values(alloc, table.alias, values)?,
    })
}

// The values that a row's record has.
fn stored_values(
    alloc: Global,
    alias: Option<u32>,
    values: &[Value],
) -> Result<Items<Value>, NoMemory>
    ensures { IfOk result (λ stored. stored ≡ stored_values alias values.now) }
{
    let mut stored = Items::new(alloc);
    for value in values {
        stored.push(copy(alloc, value)?)?;
    }
    if let Some(k) = alias {
        if (k as usize) < stored.len() {
            stored.set(k as usize, Value::Null);
        }
    }
    Ok(stored)
}

// A row's entry in an index.
fn row_index_entry(
    alloc: Global,
    rowid: i64,
    values: &[Value],
    index: &Index,
) -> Result<Entry, NoMemory>
    ensures { IfOk result (λ entry. entry ≡ row_index_entry rowid values.now index.now) }
{
    let mut key = indexed_values(alloc, values, index.columns.as_slice())?;
    key.push(Value::Int(rowid))?;
    Ok(Entry {
        tree: index.tree,
        key,
        values: Items::new(alloc),
    })
}

// The values of the columns of an index.
fn indexed_values(
    alloc: Global,
    values: &[Value],
    columns: &[u32],
) -> Result<Items<Value>, NoMemory>
    ensures { IfOk result (λ found. found ≡ map (value_at values.now) columns.now) }
{
    let mut found = Items::new(alloc);
    for k in columns {
        found.push(value_at(alloc, values, *k)?)?;
    }
    Ok(found)
}

// The value of a column.
fn value_at(alloc: Global, values: &[Value], k: u32) -> Result<Value, NoMemory>
    ensures { IfOk result (λ value. value ≡ value_at values.now k) }
{
    match values.get(k as usize) {
        Some(value) => copy(alloc, value),
        None => Ok(Value::Null),
    }
}
