// The path of one table.
ghost use Rattle.std.specs.Prelude.{◌≡◌, ◌<◌, ◌^◌, length};
ghost use Rattle.std.specs.List.{AllByRecursion};
ghost use Rattle.std.specs.Option.{unwrap_or};
ghost use Rattle.hc_schema.specs.declared.path.Path.TheVariants.{Whole};
ghost use Rattle.hc_schema.specs.Paths.{path_of, index_path, index_pin};
ghost use Rattle.hc_plan.specs.Statements.{width_of, query_path, change_path, statement_path, IsCountable, IsCountableTable};

use crate::pins::first_pin;
use hc_ast::Bound;
use hc_schema::{BoundStmt, Index, Path, Table};

/// How the rows of a statement's table are reached. `table` is its place among the statement's tables, from 0.
///
/// The first conjunct that says what the rowid equals, by tables before it alone, gives one rowid. Else the first index
/// by creation whose first column is said so gives the rows with that value. Else all rows are gone over, and so is
/// the answer for a table that the statement does not have.
pub fn path(stmt: &BoundStmt<'_>, table: u32) -> Path
    requires { IsCountable stmt.now }
    ensures { result ≡ statement_path stmt.now table }
{
    match stmt {
        BoundStmt::Select(q) => query_path(q.tables.as_slice(), q.conjuncts.as_slice(), table),
        BoundStmt::Update {
            table: t,
            conjuncts,
            ..
        } => change_path(t, conjuncts.as_slice(), table),
        BoundStmt::Delete {
            table: t,
            conjuncts,
        } => change_path(t, conjuncts.as_slice(), table),
        _ => Path::Whole,
    }
}

fn query_path(tables: &[&Table], conjuncts: &[Bound], table: u32) -> Path
    requires conjuncts { length conjuncts.now < 2 ^ 32 }
    requires columns { width_of tables.now < 2 ^ 32 }
    requires indexes { AllByRecursion (λ t. IsCountableTable t.now) tables.now }
    ensures { result ≡ query_path tables.now conjuncts.now table }
{
    match tables.get(table as usize) {
        Some(t) => path_of(t, width(&tables[..table as usize]), conjuncts),
        None => Path::Whole,
    }
}

fn change_path(t: &Table, conjuncts: &[Bound], table: u32) -> Path
    requires conjuncts { length conjuncts.now < 2 ^ 32 }
    requires indexes { IsCountableTable t.now }
    ensures { result ≡ change_path t.now conjuncts.now table }
{
    if table > 0 {
        return Path::Whole;
    }
    path_of(t, 0, conjuncts)
}

fn path_of(t: &Table, offset: u64, conjuncts: &[Bound]) -> Path
    requires conjuncts { length conjuncts.now < 2 ^ 32 }
    requires indexes { length t.now.indexes < 2 ^ 32 }
    requires offset { offset < 2 ^ 32 }
    ensures { result ≡ path_of t.now offset conjuncts.now }
{
    if let Some(k) = t.alias {
        if let Some(conjunct) = first_pin(conjuncts, offset, offset + u64::from(k)) {
            return Path::Rowid { conjunct };
        }
    }
    match index_path(t.indexes.as_slice(), offset, conjuncts) {
        Some(path) => path,
        None => Path::Whole,
    }
}

// By the first index whose first column is pinned.
fn index_path(indexes: &[Index], offset: u64, conjuncts: &[Bound]) -> Option<Path>
    requires conjuncts { length conjuncts.now < 2 ^ 32 }
    requires indexes { length indexes.now < 2 ^ 32 }
    requires offset { offset < 2 ^ 32 }
    ensures { result ≡ index_path 0 offset conjuncts.now indexes.now }
{
    let mut left = indexes;
    let mut index: u32 = 0;
    while let Some((first, rest)) = left.split_first() {
        if let Some(conjunct) = index_pin(first, offset, conjuncts) {
            return Some(Path::ByIndex { index, conjunct });
        }
        left = rest;
        index += 1;
    }
    None
}

// The first conjunct that pins the first column of an index.
fn index_pin(index: &Index, offset: u64, conjuncts: &[Bound]) -> Option<u32>
    requires conjuncts { length conjuncts.now < 2 ^ 32 }
    requires offset { offset < 2 ^ 32 }
    ensures { result ≡ index_pin index.now offset conjuncts.now }
{
    let column = index.columns.as_slice().first()?;
    first_pin(conjuncts, offset, offset + u64::from(*column))
}

// How many columns the tables have together.
fn width(tables: &[&Table]) -> u64
    requires { width_of tables.now < 2 ^ 32 }
    ensures { result ≡ width_of tables.now }
{
    let mut width = 0;
    for t in tables {
        width += t.columns.len() as u64;
    }
    width
}
