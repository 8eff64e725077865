// A table as the cells of the catalog, and back.
ghost use Rattle.std.specs.Prelude.{◌≡◌, ◌++◌, [], ◌∷◌, ◌+◌, ◌<◌, ◌≤◌, ◌^◌, ◌↔◌, IsTrue, length, map, IfOk, IfSome, IfNone};
ghost use Rattle.std.specs.List.{AllByRecursion};
ghost use Rattle.hc_value.specs.declared.value.Value.TheVariants.{Text};
ghost use Rattle.hc_schema.specs.declared.table.Table.{Table as AnyTable};
ghost use Rattle.hc_schema.specs.Tables.{IsWellFormed};
ghost use Rattle.hc_schema.specs.Cells.{IsTable, entry_len, table_entries, name_entries, table_cells, name_cells, table_entry, column_entry, column_entries, index_entry, index_name_entry, column_values, index_values, alias_number, flag_number, number, kind_number, class_number, key_name};

use crate::checks::is_well_formed;
use crate::entry::{Entry, are_short, entry_lens, write_all};
use crate::names::key_name;
use crate::reading::read_table;
use crate::{Cell, Column, Index, IndexKind, NoMemory, Table};
use hc_value::{Class, Str, Value};
use sqlite_items::Items;
use std::alloc::Global;

/// The table whose cells these are. `None` exactly where they are not the cells that some database has in the
/// catalog range of one of its tables, in ascending order of keys.
pub fn table_of(alloc: Global, cells: &[Cell]) -> Result<Option<Table>, NoMemory>
    // What is answered is such a table.
    ensures found { IfOk result (λ answer. IfSome answer (λ table. IsTable table × (cells.now ≡ table_cells table))) }
    // Each such table is answered.
    ensures none { IfOk result (λ answer. IfNone answer ((table : AnyTable) → IsTable table → cells.now ≡ table_cells table → ⊥)) }
{
    let Some(table) = read_table(alloc, cells)? else {
        return Ok(None);
    };
    if has_cells(alloc, &table, cells)? {
        Ok(Some(table))
    } else {
        Ok(None)
    }
}

// Whether this is a table, and the cells are those in its catalog range.
fn has_cells(alloc: Global, table: &Table, cells: &[Cell]) -> Result<bool, NoMemory>
    ensures { IfOk result (λ has. IsTrue has ↔ (IsTable table.now × (cells.now ≡ table_cells table.now))) }
{
    if !is_well_formed(alloc, table)? {
        return Ok(false);
    }
    let entries = table_entries(alloc, table)?;
    let names = name_entries(alloc, table)?;
    if !are_short(entries.as_slice()) || !are_short(names.as_slice()) {
        return Ok(false);
    }
    let written = write_all(alloc, entries.as_slice())?;
    Ok(are_same(cells, written.as_slice()))
}

// Whether two lists of cells are the same.
fn are_same(cells: &[Cell], others: &[Cell]) -> bool
    ensures { IsTrue result ↔ (cells.now ≡ others.now) }
{
    let mut left = cells;
    let mut right = others;
    while let Some((cell, rest)) = left.split_first() {
        let Some((other, more)) = right.split_first() else {
            return false;
        };
        if !is_same(cell, other) {
            return false;
        }
        left = rest;
        right = more;
    }
    right.is_empty()
}

fn is_same(cell: &Cell, other: &Cell) -> bool
    ensures { IsTrue result ↔ (cell.now ≡ other.now) }
{
    cell.key.as_slice() == other.key.as_slice() && cell.rec.as_slice() == other.rec.as_slice()
}

/// All cells of a table in the catalog: those in its catalog range in ascending order of keys, and then those of
/// the names of its indexes in order of creation.
pub fn cells_of(alloc: Global, table: &Table) -> Result<Items<Cell>, NoMemory>
    requires { IsTable table.now }
    ensures { IfOk result (λ cells. cells ≡ table_cells table.now ++ name_cells table.now) }
{
    let entries = table_entries(alloc, table)?;
    let names = name_entries(alloc, table)?;
    let mut cells = write_all(alloc, entries.as_slice())?;
    cells.append(write_all(alloc, names.as_slice())?)?;
    Ok(cells)
}

/// How many bytes key and record of each of the cells of `cells_of` have together, in the same order. No key and no
/// record is made, so it is told also of a table whose records are too long.
pub fn catalog_lens(alloc: Global, table: &Table) -> Result<Items<u64>, NoMemory>
    requires { IsWellFormed table.now }
    ensures { IfOk result (λ lens. lens ≡ map entry_len (table_entries table.now ++ name_entries table.now)) }
{
    let mut entries = table_entries(alloc, table)?;
    entries.append(name_entries(alloc, table)?)?;
    entry_lens(alloc, entries.as_slice())
}

// ---- the entries

// The entries in the catalog range of a table.
fn table_entries(alloc: Global, table: &Table) -> Result<Items<Entry>, NoMemory>
    requires { length table.now.columns ≤ 255 }
    ensures { IfOk result (λ entries. entries ≡ table_entries table.now) }
{
    let mut entries = Items::new(alloc);
    entries.push(table_entry(alloc, table)?)?;
    entries.append(column_entries(alloc, table.name.as_str(), table.columns.as_slice())?)?;
    entries.append(index_entries(alloc, table.name.as_str(), table.indexes.as_slice())?)?;
    Ok(entries)
}

// The entry of a table itself.
fn table_entry(alloc: Global, table: &Table) -> Result<Entry, NoMemory>
    requires { length table.now.columns ≤ 255 }
    ensures { IfOk result (λ entry. entry ≡ table_entry table.now) }
{
    let mut values = Items::new(alloc);
    values.push(text(alloc, table.name.as_str())?)?;
    values.push(number(u64::from(table.tree)))?;
    values.push(number(table.columns.len() as u64))?;
    values.push(number(alias_number(table.alias)))?;
    Ok(Entry {
        tree: 0,
        key: name_key(alloc, table.name.as_str(), 0)?,
        values,
    })
}

// The entries of columns, numbered from 1.
fn column_entries(alloc: Global, table: &str, columns: &[Column]) -> Result<Items<Entry>, NoMemory>
    requires { length columns.now ≤ 255 }
    ensures { IfOk result (λ entries. entries ≡ column_entries table.now 1 columns.now) }
{
    let mut entries = Items::new(alloc);
    let mut k: u64 = 1;
    for column in columns {
        entries.push(column_entry(alloc, table, k, column)?)?;
        k += 1;
    }
    Ok(entries)
}

// The entry of the k-th column.
fn column_entry(alloc: Global, table: &str, k: u64, column: &Column) -> Result<Entry, NoMemory>
    requires { k < 2 ^ 63 }
    ensures { IfOk result (λ entry. entry ≡ column_entry table.now k column.now) }
{
    let mut key = name_key(alloc, table, 0)?;
    key.push(number(k))?;
    let mut values = Items::new(alloc);
    values.push(text(alloc, column.name.as_str())?)?;
    values.push(number(class_number(column.class)))?;
    values.push(number(u64::from(column.not_null)))?;
    Ok(Entry {
        tree: 0,
        key,
        values,
    })
}

// The entries of indexes in the range of their table.
fn index_entries(alloc: Global, table: &str, indexes: &[Index]) -> Result<Items<Entry>, NoMemory>
    ensures { IfOk result (λ entries. entries ≡ map (index_entry table.now) indexes.now) }
{
    let mut entries = Items::new(alloc);
    for index in indexes {
        entries.push(index_entry(alloc, table, index)?)?;
    }
    Ok(entries)
}

fn index_entry(alloc: Global, table: &str, index: &Index) -> Result<Entry, NoMemory>
    ensures { IfOk result (λ entry. entry ≡ index_entry table.now index.now) }
{
    let mut values = Items::new(alloc);
    values.push(text(alloc, index.name.as_str())?)?;
    values.push(number(kind_number(index.kind)))?;
    values.append(column_numbers(alloc, index.columns.as_slice())?)?;
    Ok(Entry {
        tree: 0,
        key: name_key(alloc, table, index.tree)?,
        values,
    })
}

// The columns of an index, numbered from 1.
fn column_numbers(alloc: Global, columns: &[u32]) -> Result<Items<Value>, NoMemory>
    ensures { IfOk result (λ numbers. numbers ≡ map (λ k. number (k + 1)) columns.now) }
{
    let mut numbers = Items::new(alloc);
    for k in columns {
        numbers.push(number(u64::from(*k) + 1))?;
    }
    Ok(numbers)
}

// The entries of the names of indexes.
fn name_entries(alloc: Global, table: &Table) -> Result<Items<Entry>, NoMemory>
    ensures { IfOk result (λ entries. entries ≡ name_entries table.now) }
{
    let mut entries = Items::new(alloc);
    for index in table.indexes.as_slice() {
        entries.push(index_name_entry(alloc, table.name.as_str(), index)?)?;
    }
    Ok(entries)
}

fn index_name_entry(alloc: Global, table: &str, index: &Index) -> Result<Entry, NoMemory>
    ensures { IfOk result (λ entry. entry ≡ index_name_entry table.now index.now) }
{
    let mut values = Items::new(alloc);
    values.push(Value::Null)?;
    values.push(text(alloc, table)?)?;
    values.push(number(u64::from(index.tree)))?;
    Ok(Entry {
        tree: 0,
        key: name_key(alloc, index.name.as_str(), 0)?,
        values,
    })
}

// ---- values

// A name and a number, with which each key of the catalog begins.
fn name_key(alloc: Global, name: &str, n: u32) -> Result<Items<Value>, NoMemory>
    ensures { IfOk result (λ key. key ≡ key_name name.now ∷ number n ∷ []) }
{
    let mut key = Items::new(alloc);
    key.push(key_name(alloc, name)?)?;
    key.push(number(u64::from(n)))?;
    Ok(key)
}

fn text(alloc: Global, name: &str) -> Result<Value, NoMemory>
    ensures { IfOk result (λ value. value ≡ Text name.now) }
{
    Ok(Value::Text(Str::from_text(alloc, name)?))
}

fn number(n: u64) -> Value
    requires { n < 2 ^ 63 }
    ensures { result ≡ number n }
{
    Value::Int(n as i64)
}

fn alias_number(alias: Option<u32>) -> u64
    ensures number { result ≡ alias_number alias }
    ensures short { result ≤ 2 ^ 32 }
{
    match alias {
        Some(k) => u64::from(k) + 1,
        None => 0,
    }
}

fn class_number(class: Class) -> u64
    ensures number { result ≡ class_number class }
    ensures short { result ≤ 3 }
{
    match class {
        Class::Null => 0,
        Class::Int => 1,
        Class::Text => 2,
        Class::Blob => 3,
    }
}

fn kind_number(kind: IndexKind) -> u64
    ensures number { result ≡ kind_number kind }
    ensures short { result ≤ 3 }
{
    match kind {
        IndexKind::Plain => 0,
        IndexKind::Unique => 1,
        IndexKind::UniqueRule => 2,
        IndexKind::Primary => 3,
    }
}
