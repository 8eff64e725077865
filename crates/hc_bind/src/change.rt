// INSERT, UPDATE and DELETE: the table, and then names and expressions in the order of text, a name as it is met.
ghost use Rattle.std.specs.Prelude.{◌≡◌, [], length, map, nat_eq, IfOk, Ok};
ghost use Rattle.std.specs.List.{list_any};
ghost use Rattle.hc_schema.specs.Binding.Faults.{each, walk, TwoColumns as Two-columns};
ghost use Rattle.hc_schema.specs.Binding.Changes.{column_called, named_column, row_columns, all_placed, with_column, all_fit_columns, fitted_row, new_row, set_value, new_set, with_set, filtered};
ghost use Rattle.hc_schema.specs.Binding.Statements.{insert, update, delete, binding_of};
ghost use Rattle.hc_bind.specs.Answers.{FaultIs, Tells, TellsBy};
ghost use Rattle.hc_bind.specs.Places.{placed_of};
ghost use Rattle.hc_bind.specs.Scopes.{seen};

use crate::BindFault;
use crate::class::fits;
use crate::names::is_same;
use crate::operator::values;
use crate::row::{each_on_rows, on_rows, push_condition};
use crate::scope::{Scope, counted, no_column, scope_of, table_called};
use hc_ast::{Assign, Bound, Expr, ExprRow};
use hc_schema::{BoundRow, BoundSet, BoundStmt, Column, Table, Typed};
use hc_value::{NoMemory, Str};
use sqlite_items::Items;
use std::alloc::Global;

/// A column of a table with its place.
#[derive(Clone, Copy)]
pub struct Placed<'a> {
    pub column: &'a Column,
    pub place: u32,
}

fn two_columns(alloc: Global, column: &Column) -> BindFault
    ensures { FaultIs result (Two-columns column.now.name) }
{
    match Str::from_text(alloc, column.name.as_str()) {
        Ok(name) => BindFault::TwoColumns(name),
        Err(_) => BindFault::NoMemory,
    }
}

// The first column of a name.
fn column_called<'a>(
    alloc: Global,
    columns: &'a [Column],
    name: &str,
) -> Result<Placed<'a>, BindFault>
    ensures { TellsBy placed_of (column_called 0 columns.now name.now) result }
{
    for (i, column) in columns.iter().enumerate() {
        if is_same(column.name.as_str(), name) {
            let place = counted(i)?;
            return Ok(Placed { column, place });
        }
    }
    Err(no_column(alloc, name))
}

// The columns that rows have values for: those named, or all.
fn row_columns<'a>(
    alloc: Global,
    columns: &'a [Column],
    names: &Option<Items<Str>>,
) -> Result<Vec<Placed<'a>>, BindFault>
    ensures { TellsBy (λ v. map placed_of v.items) (row_columns columns.now names.now) result }
{
    match names {
        None => all_placed(alloc, columns),
        Some(names) => named_columns(alloc, columns, names.as_slice()),
    }
}

fn all_placed<'a>(alloc: Global, columns: &'a [Column]) -> Result<Vec<Placed<'a>>, BindFault>
    ensures { TellsBy (λ v. map placed_of v.items) (Ok (all_placed 0 columns.now)) result }
{
    let mut found = Vec::with_capacity(alloc, columns.len())?;
    for (i, column) in columns.iter().enumerate() {
        let place = counted(i)?;
        found.push(Placed { column, place })?;
    }
    Ok(found)
}

fn named_columns<'a>(
    alloc: Global,
    columns: &'a [Column],
    names: &[Str],
) -> Result<Vec<Placed<'a>>, BindFault>
    ensures { TellsBy (λ v. map placed_of v.items) (walk (with_column columns.now) [] names.now) result }
{
    let mut found: Vec<Placed<'a>> = Vec::new(alloc);
    for name in names {
        match named_column(alloc, columns, found.as_slice(), name.as_str()) {
            Ok(placed) => found.push(placed)?,
            Err(fault) => return Err(fault),
        }
    }
    Ok(found)
}

fn any_placed(before: &[Placed<'_>], place: u32) -> bool
    ensures { result ≡ list_any (λ p. nat_eq place p.place) before.now }
{
    before.iter().any(|p| place == p.place)
}

fn is_named(before: &[Placed<'_>], place: u32) -> bool
    ensures { result ≡ list_any (nat_eq place) (map (λ p. p.place) (map placed_of before.now)) }
{
    any_placed(before, place)
}

fn any_set(before: &[BoundSet], place: u32) -> bool
    ensures { result ≡ list_any (λ set. nat_eq place set.column) before.now }
{
    before.iter().any(|set| place == set.column)
}

fn is_set(before: &[BoundSet], place: u32) -> bool
    ensures { result ≡ list_any (nat_eq place) (map (λ set. set.column) before.now) }
{
    any_set(before, place)
}

// The column of a name, which is not among those named before.
fn named_column<'a>(
    alloc: Global,
    columns: &'a [Column],
    before: &[Placed<'a>],
    name: &str,
) -> Result<Placed<'a>, BindFault>
    ensures { TellsBy placed_of (named_column columns.now (map (λ p. p.place) (map placed_of before.now)) name.now) result }
{
    let found = column_called(alloc, columns, name)?;
    if is_named(before, found.place) {
        return Err(two_columns(alloc, found.column));
    }
    Ok(found)
}

// Whether each value fits the class of its column.
fn all_fit_columns(places: &[Placed<'_>], row: &[Typed]) -> bool
    requires { length places.now ≡ length row.now }
    ensures { result ≡ all_fit_columns (map placed_of places.now) row.now }
{
    for (i, t) in row.iter().enumerate() {
        if !fits(t.class, places[i].column.class) {
            return false;
        }
    }
    true
}

// A row has a value for each column, of its class.
fn fitted_row(alloc: Global, places: &[Placed<'_>], row: Vec<Typed>) -> Result<BoundRow, BindFault>
    ensures { Tells (fitted_row (map placed_of places.now) row.items) result }
{
    if row.len() != places.len() {
        return Err(BindFault::Arity {
            given: counted(row.len())?,
            wanted: counted(places.len())?,
        });
    }
    if !all_fit_columns(places, row.as_slice()) {
        return Err(BindFault::Mixed);
    }
    Ok(BoundRow {
        values: values(alloc, row)?,
    })
}

fn new_row(alloc: Global, places: &[Placed<'_>], row: &ExprRow) -> Result<BoundRow, BindFault>
    ensures { Tells (new_row (map placed_of places.now) row.now) result }
{
    let scope = Scope::new(alloc);
    match each_on_rows(alloc, &scope, row.values.as_slice()) {
        Ok(values) => fitted_row(alloc, places, values),
        Err(fault) => Err(fault),
    }
}

fn new_rows(
    alloc: Global,
    places: &[Placed<'_>],
    rows: &[ExprRow],
) -> Result<Items<BoundRow>, BindFault>
    ensures { Tells (each (map (new_row (map placed_of places.now)) rows.now)) result }
{
    let mut found = Items::new(alloc);
    for row in rows {
        match new_row(alloc, places, row) {
            Ok(row) => found.push(row)?,
            Err(fault) => return Err(fault),
        }
    }
    Ok(found)
}

// The places alone.
#[tactic(auto, using(crate::proofs::Columns::map_places))]
fn columns_of(alloc: Global, places: &[Placed<'_>]) -> Result<Items<u32>, NoMemory>
    ensures { IfOk result (λ ks. ks ≡ map (λ p. p.place) (map placed_of places.now)) }
{
    let places: Vec<u32> = places.iter().map(|p| p.place).collect(alloc)?;
    Ok(Items::from_vec(places))
}

pub fn insert<'a>(
    alloc: Global,
    tables: &'a [Table],
    name: &str,
    names: &Option<Items<Str>>,
    rows: &[ExprRow],
) -> Result<BoundStmt<'a>, BindFault>
    ensures { TellsBy binding_of (insert tables.now name.now names.now rows.now) result }
{
    let table = table_called(alloc, tables, name)?;
    let places = row_columns(alloc, table.columns.as_slice(), names)?;
    let rows = new_rows(alloc, places.as_slice(), rows)?;
    let columns = columns_of(alloc, places.as_slice())?;
    Ok(BoundStmt::Insert {
        table,
        columns,
        rows,
    })
}

// The value of a SET, which fits the column's class.
fn set_value(
    alloc: Global,
    scope: &Scope<'_>,
    value: &Expr,
    p: Placed<'_>,
) -> Result<BoundSet, BindFault>
    ensures { Tells (set_value (seen scope.now) value.now (placed_of p.entry)) result }
{
    let t = on_rows(alloc, scope, value)?;
    if !fits(t.class, p.column.class) {
        return Err(BindFault::Mixed);
    }
    Ok(BoundSet {
        column: p.place,
        value: t.value,
    })
}

fn set_column<'a>(
    alloc: Global,
    columns: &'a [Column],
    before: &[BoundSet],
    name: &str,
) -> Result<Placed<'a>, BindFault>
    ensures { TellsBy placed_of (named_column columns.now (map (λ set. set.column) before.now) name.now) result }
{
    let found = column_called(alloc, columns, name)?;
    if is_set(before, found.place) {
        return Err(two_columns(alloc, found.column));
    }
    Ok(found)
}

fn new_set(
    alloc: Global,
    scope: &Scope<'_>,
    columns: &[Column],
    before: &[BoundSet],
    assign: &Assign,
) -> Result<BoundSet, BindFault>
    ensures { Tells (new_set (seen scope.now) columns.now before.now assign.now) result }
{
    let p = set_column(alloc, columns, before, assign.column.as_str())?;
    set_value(alloc, scope, &assign.value, p)
}

fn sets(
    alloc: Global,
    scope: &Scope<'_>,
    columns: &[Column],
    assigns: &[Assign],
) -> Result<Items<BoundSet>, BindFault>
    ensures { Tells (walk (with_set (seen scope.now) columns.now) [] assigns.now) result }
{
    let mut found = Items::new(alloc);
    for assign in assigns {
        match new_set(alloc, scope, columns, found.as_slice(), assign) {
            Ok(set) => found.push(set)?,
            Err(fault) => return Err(fault),
        }
    }
    Ok(found)
}

// The conjuncts of a condition; none without one.
fn filtered(
    alloc: Global,
    scope: &Scope<'_>,
    filter: &Option<Expr>,
) -> Result<Items<Bound>, BindFault>
    ensures { Tells (filtered (seen scope.now) filter.now) result }
{
    let mut found = Vec::new(alloc);
    if let Some(e) = filter {
        push_condition(alloc, scope, e, &mut found)?;
    }
    Ok(Items::from_vec(found))
}

pub fn update<'a>(
    alloc: Global,
    tables: &'a [Table],
    name: &str,
    assigns: &[Assign],
    filter: &Option<Expr>,
) -> Result<BoundStmt<'a>, BindFault>
    ensures { TellsBy binding_of (update tables.now name.now assigns.now filter.now) result }
{
    let table = table_called(alloc, tables, name)?;
    let scope = scope_of(alloc, table)?;
    let sets = sets(alloc, &scope, table.columns.as_slice(), assigns)?;
    let conjuncts = filtered(alloc, &scope, filter)?;
    Ok(BoundStmt::Update {
        table,
        sets,
        conjuncts,
    })
}

pub fn delete<'a>(
    alloc: Global,
    tables: &'a [Table],
    name: &str,
    filter: &Option<Expr>,
) -> Result<BoundStmt<'a>, BindFault>
    ensures { TellsBy binding_of (delete tables.now name.now filter.now) result }
{
    let table = table_called(alloc, tables, name)?;
    let scope = scope_of(alloc, table)?;
    let conjuncts = filtered(alloc, &scope, filter)?;
    Ok(BoundStmt::Delete { table, conjuncts })
}
