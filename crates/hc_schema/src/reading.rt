// A table as its cells tell it. Whether they are the cells of such a table is tested afterwards.
ghost use Rattle.std.specs.Prelude.{◌≡◌, ◌≢◌, ◌++◌, ℕ, [], ◌∷◌, ◌+◌, ◌<◌, ◌^◌, List, Option, Some, length, map, pos, IfOk, IfSome};
ghost use Rattle.std.specs.List.{AllByRecursion};
ghost use Rattle.hc_value.specs.declared.storage.Class.{Class as AnyClass};
ghost use Rattle.hc_value.specs.declared.value.Value.{Value as AnyValue};
ghost use Rattle.hc_key.specs.Keys.{key_bytes};
ghost use Rattle.hc_schema.specs.declared.table.Table.{Table as AnyTable};
ghost use Rattle.hc_schema.specs.declared.table.Column.{Column as AnyColumn};
ghost use Rattle.hc_schema.specs.declared.table.Index.{Index as AnyIndex};
ghost use Rattle.hc_schema.specs.declared.table.IndexKind.{IndexKind as AnyKind};
ghost use Rattle.hc_schema.specs.Tables.{IsColumn, Pairwise};
ghost use Rattle.hc_schema.specs.Cells.{IsTable, IsShort, table_cells, cell_of, index_entry, table_values, column_values, index_values, number, alias_number, class_number, kind_number, flag_number};
ghost use Rattle.hc_schema.specs.declared.reading.Head.{Head as AnyHead};
ghost use Rattle.hc_schema.specs.Reading.{IsRecord, IsHead, head_values, IsColumnNumber, IsColumnCell, IsIndexCell, IsNumberOf, IsRest};

use crate::{Cell, Column, Index, IndexKind, NoMemory, Table};
use hc_record::{RecordFault, decode};
use hc_value::{Class, Str, Value};
use sqlite_items::Items;
use std::alloc::{AllocError, Global};

/// The one table that may have these cells.
pub fn read_table(alloc: Global, cells: &[Cell]) -> Result<Option<Table>, NoMemory>
    ensures { IfOk result (λ answer. (table : AnyTable) → IsTable table → cells.now ≡ table_cells table → answer ≡ Some table) }
{
    let Some((first, rest)) = cells.split_first() else {
        return Ok(None);
    };
    let Some(head) = read_head(alloc, first.rec.as_slice())? else {
        return Ok(None);
    };
    if rest.len() < head.count as usize {
        return Ok(None);
    }
    let (columns, indexes) = rest.split_at(head.count as usize);
    read_rest(alloc, head, columns, indexes)
}

// The table after its own cell.
fn read_rest(
    alloc: Global,
    head: Head,
    columns: &[Cell],
    indexes: &[Cell],
) -> Result<Option<Table>, NoMemory>
    ensures { IfOk result (λ answer. (table : AnyTable) → IsRest head columns.now indexes.now table → answer ≡ Some table) }
{
    let Some(columns) = read_columns(alloc, columns)? else {
        return Ok(None);
    };
    let Some(indexes) = read_indexes(alloc, indexes)? else {
        return Ok(None);
    };
    Ok(Some(Table {
        name: head.name,
        tree: head.tree,
        columns,
        alias: head.alias,
        indexes,
    }))
}

// ---- records

/// The values of a record.
pub fn read_values(alloc: Global, bytes: &[u8]) -> Result<Option<Items<Value>>, NoMemory>
    ensures found { IfOk result (λ answer. IfSome answer (λ values. IsRecord values bytes.now)) }
    ensures all { IfOk result (λ answer. (values : List AnyValue) → IsRecord values bytes.now → answer ≡ Some values) }
{
    if bytes.len() as u64 >= 1 << 32 {
        return Ok(None);
    }
    match decode(alloc, bytes) {
        Ok(values) => Ok(Some(values)),
        Err(RecordFault::Bad { .. }) => Ok(None),
        Err(RecordFault::NoMemory) => Err(AllocError),
    }
}

// What a table's own cell tells.
#[derive(Debug, Drop)]
struct Head {
    name: Str,
    tree: u32,
    count: u32,
    alias: Option<u32>,
}

fn read_head(alloc: Global, bytes: &[u8]) -> Result<Option<Head>, NoMemory>
    ensures { IfOk result (λ answer. (head : AnyHead) → IsHead head → IsRecord (head_values head) bytes.now → answer ≡ Some head) }
{
    match read_values(alloc, bytes)? {
        Some(values) => head_from(alloc, values.as_slice()),
        None => Ok(None),
    }
}

fn head_from(alloc: Global, values: &[Value]) -> Result<Option<Head>, NoMemory>
    ensures { IfOk result (λ answer. (head : AnyHead) → IsHead head → values.now ≡ head_values head → answer ≡ Some head) }
{
    let [
        Value::Text(name),
        Value::Int(tree),
        Value::Int(count),
        Value::Int(alias),
    ] = values
    else {
        return Ok(None);
    };
    let (Ok(tree), Ok(count), Ok(alias)) = (
        u32::try_from(*tree),
        u32::try_from(*count),
        u32::try_from(*alias),
    ) else {
        return Ok(None);
    };
    Ok(Some(Head {
        name: Str::from_text(alloc, name.as_str())?,
        tree,
        count,
        alias: alias.checked_sub(1),
    }))
}

// ---- columns

// The columns of these cells, in order.
fn read_columns(alloc: Global, cells: &[Cell]) -> Result<Option<Items<Column>>, NoMemory>
    ensures { IfOk result (λ answer. (columns : List AnyColumn) → Pairwise IsColumnCell cells.now columns → answer ≡ Some columns) }
{
    let mut columns = Items::new(alloc);
    let mut left = cells;
    while let Some((cell, rest)) = left.split_first() {
        let Some(column) = read_column(alloc, cell.rec.as_slice())? else {
            return Ok(None);
        };
        columns.push(column)?;
        left = rest;
    }
    Ok(Some(columns))
}

fn read_column(alloc: Global, bytes: &[u8]) -> Result<Option<Column>, NoMemory>
    ensures { IfOk result (λ answer. (column : AnyColumn) → IsColumn column → IsRecord (column_values column) bytes.now → answer ≡ Some column) }
{
    match read_values(alloc, bytes)? {
        Some(values) => column_from(alloc, values.as_slice()),
        None => Ok(None),
    }
}

fn column_from(alloc: Global, values: &[Value]) -> Result<Option<Column>, NoMemory>
    ensures { IfOk result (λ answer. (column : AnyColumn) → IsColumn column → values.now ≡ column_values column → answer ≡ Some column) }
{
    let [Value::Text(name), Value::Int(class), Value::Int(flag)] = values else {
        return Ok(None);
    };
    let Some(class) = class_from(*class) else {
        return Ok(None);
    };
    Ok(Some(Column {
        name: Str::from_text(alloc, name.as_str())?,
        class,
        not_null: *flag == 1,
    }))
}

fn class_from(n: i64) -> Option<Class>
    ensures { (class : AnyClass) → class ≢ Class.Null → n ≡ pos (class_number class) → result ≡ Some class }
{
    match n {
        1 => Some(Class::Int),
        2 => Some(Class::Text),
        3 => Some(Class::Blob),
        _ => None,
    }
}

// ---- indexes

// The indexes of these cells, in order.
fn read_indexes(alloc: Global, cells: &[Cell]) -> Result<Option<Items<Index>>, NoMemory>
    ensures { IfOk result (λ answer. (indexes : List AnyIndex) → Pairwise IsIndexCell cells.now indexes → answer ≡ Some indexes) }
{
    let mut indexes = Items::new(alloc);
    let mut left = cells;
    while let Some((cell, rest)) = left.split_first() {
        let Some(index) = read_index(alloc, cell)? else {
            return Ok(None);
        };
        indexes.push(index)?;
        left = rest;
    }
    Ok(Some(indexes))
}

fn read_index(alloc: Global, cell: &Cell) -> Result<Option<Index>, NoMemory>
    ensures { IfOk result (λ answer. (index : AnyIndex) → IsIndexCell cell.now index → answer ≡ Some index) }
{
    let Some(tree) = read_tree(cell.key.as_slice()) else {
        return Ok(None);
    };
    match read_values(alloc, cell.rec.as_slice())? {
        Some(values) => index_from(alloc, tree, values.as_slice()),
        None => Ok(None),
    }
}

fn index_from(alloc: Global, tree: u32, values: &[Value]) -> Result<Option<Index>, NoMemory>
    ensures { IfOk result (λ answer. (index : AnyIndex) → AllByRecursion IsColumnNumber index.columns → tree ≡ index.tree → values.now ≡ index_values index → answer ≡ Some index) }
{
    let [Value::Text(name), Value::Int(kind), numbers @ ..] = values else {
        return Ok(None);
    };
    index_with(alloc, tree, name.as_str(), *kind, numbers)
}

fn index_with(
    alloc: Global,
    tree: u32,
    name: &str,
    kind: i64,
    numbers: &[Value],
) -> Result<Option<Index>, NoMemory>
    ensures { IfOk result (λ answer. (index : AnyIndex) → name.now ≡ index.name → tree ≡ index.tree → kind ≡ pos (kind_number index.kind) → Pairwise IsNumberOf numbers.now index.columns → answer ≡ Some index) }
{
    let Some(kind) = kind_from(kind) else {
        return Ok(None);
    };
    let Some(columns) = columns_from(alloc, numbers)? else {
        return Ok(None);
    };
    Ok(Some(Index {
        name: Str::from_text(alloc, name)?,
        tree,
        kind,
        columns,
    }))
}

fn kind_from(n: i64) -> Option<IndexKind>
    ensures { (kind : AnyKind) → n ≡ pos (kind_number kind) → result ≡ Some kind }
{
    match n {
        0 => Some(IndexKind::Plain),
        1 => Some(IndexKind::Unique),
        2 => Some(IndexKind::UniqueRule),
        3 => Some(IndexKind::Primary),
        _ => None,
    }
}

// The columns that are numbered from 1 here.
fn columns_from(alloc: Global, values: &[Value]) -> Result<Option<Items<u32>>, NoMemory>
    ensures { IfOk result (λ answer. (columns : List ℕ) → Pairwise IsNumberOf values.now columns → answer ≡ Some columns) }
{
    let mut columns = Items::new(alloc);
    let mut left = values;
    while let Some((value, rest)) = left.split_first() {
        let Some(k) = column_from_number(value) else {
            return Ok(None);
        };
        columns.push(k)?;
        left = rest;
    }
    Ok(Some(columns))
}

fn column_from_number(value: &Value) -> Option<u32>
    ensures { (k : ℕ) → IsNumberOf value.now k → result ≡ Some k }
{
    let Value::Int(n) = value else {
        return None;
    };
    u32::try_from(*n).ok()?.checked_sub(1)
}

// The tree that a key of the catalog ends with.
fn read_tree(key: &[u8]) -> Option<u32>
    ensures { (name : AnyValue) (tree : ℕ) → tree < 2 ^ 32 → key.now ≡ key_bytes 0 (name ∷ number tree ∷ []) → result ≡ Some tree }
{
    let (_, last) = key.split_last_chunk::<4>()?;
    Some(u32::from_be_bytes(*last))
}
