// Conjuncts with the paths of tables, worked out by hand from the rule at the head of `specs/Paths.antt` of `hc_schema`.
ghost use Rattle.std.specs.Prelude.{◌<◌, length};

use hc_ast::{BinaryOp, Bound};
use hc_plan::path;
use hc_schema::{BoundStmt, Column, Index, IndexKind, Path, Table};
use hc_value::{Class, NoMemory, Str, Value};
use sqlite_items::{Boxed, Items};
use std::alloc::{AllocError, Global};
use std::test::Fail;

// One side of a conjunct: a column by its place, a number, its negative, or a column and a number added.
#[derive(Clone, Copy)]
enum Side {
    Column(u32),
    Number(i64),
    Negative(i64),
    Sum(u32, i64),
}

type Conjunct = (BinaryOp, Side, Side);

fn number(n: i64) -> Bound {
    Bound::Value(Value::Int(n))
}

fn side_of(alloc: Global, s: Side) -> Result<Bound, NoMemory> {
    Ok(match s {
        Side::Column(place) => Bound::Column(place),
        Side::Number(n) => number(n),
        Side::Negative(n) => Bound::Minus(Boxed::new(alloc, number(n))?),
        Side::Sum(place, n) => Bound::Binary {
            op: BinaryOp::Add,
            left: Boxed::new(alloc, Bound::Column(place))?,
            right: Boxed::new(alloc, number(n))?,
        },
    })
}

fn conjuncts(alloc: Global, list: &[Conjunct]) -> Result<Items<Bound>, NoMemory> {
    let mut out = Items::new(alloc);
    for (op, left, right) in list {
        let left = Boxed::new(alloc, side_of(alloc, *left)?)?;
        let right = Boxed::new(alloc, side_of(alloc, *right)?)?;
        out.push(Bound::Binary {
            op: *op,
            left,
            right,
        })?;
    }
    Ok(out)
}

fn index(alloc: Global, name: &str, columns: &[u32]) -> Result<Index, NoMemory> {
    let mut list = Items::new(alloc);
    for column in columns {
        list.push(*column)?;
    }
    Ok(Index {
        name: Str::from_text(alloc, name)?,
        tree: 2,
        kind: IndexKind::Plain,
        columns: list,
    })
}

fn columns(alloc: Global, names: &[&'static str]) -> Result<Items<Column>, NoMemory> {
    let mut list = Items::new(alloc);
    for name in names {
        list.push(Column {
            name: Str::from_text(alloc, name)?,
            class: Class::Int,
            not_null: false,
        })?;
    }
    Ok(list)
}

// `CREATE TABLE t(id INTEGER PRIMARY KEY, a INTEGER, b INTEGER, c INTEGER); CREATE INDEX i ON t(a, b); CREATE INDEX j ON t(b);`
fn first_table(alloc: Global) -> Result<Table, NoMemory> {
    let mut indexes = Items::new(alloc);
    indexes.push(index(alloc, "i", &[1, 2])?)?;
    indexes.push(index(alloc, "j", &[2])?)?;
    Ok(Table {
        name: Str::from_text(alloc, "t")?,
        tree: 1,
        columns: columns(alloc, &["id", "a", "b", "c"])?,
        alias: Some(0),
        indexes,
    })
}

// The path of the one table of DELETE, which has few indexes, by few conjuncts.
fn delete_path(table: &Table, conjuncts: Items<Bound>, place: u32) -> Path
    requires conjuncts { length conjuncts < 256 }
    requires indexes { length table.now.indexes < 256 }
{
    path(&BoundStmt::Delete { table, conjuncts }, place)
}

// The path of a place among the tables of DELETE from the first table.
fn found_path(alloc: Global, list: &[Conjunct], place: u32) -> Result<Path, NoMemory> {
    let table = first_table(alloc)?;
    let conjuncts = conjuncts(alloc, list)?;
    if conjuncts.len() > 255 {
        return Err(AllocError);
    }
    if table.indexes.len() > 255 {
        return Err(AllocError);
    }
    Ok(delete_path(&table, conjuncts, place))
}

// Conjuncts of a change of the first table, with its path.
const CHANGES: [(&[Conjunct], Path); 19] = [
    (&[], Path::Whole),
    // either side may be the column
    (
        &[(BinaryOp::Eq, Side::Column(0), Side::Number(1))],
        Path::Rowid { conjunct: 0 },
    ),
    (
        &[(BinaryOp::Eq, Side::Number(1), Side::Column(0))],
        Path::Rowid { conjunct: 0 },
    ),
    (
        &[(BinaryOp::Eq, Side::Column(1), Side::Number(5))],
        Path::ByIndex {
            index: 0,
            conjunct: 0,
        },
    ),
    (
        &[(BinaryOp::Eq, Side::Column(2), Side::Negative(7))],
        Path::ByIndex {
            index: 1,
            conjunct: 0,
        },
    ),
    // no index begins with the column
    (
        &[(BinaryOp::Eq, Side::Column(3), Side::Number(1))],
        Path::Whole,
    ),
    // the rowid comes before an index
    (
        &[
            (BinaryOp::Eq, Side::Column(1), Side::Number(5)),
            (BinaryOp::Eq, Side::Column(0), Side::Negative(1)),
        ],
        Path::Rowid { conjunct: 1 },
    ),
    // the first index comes before the first conjunct
    (
        &[
            (BinaryOp::Eq, Side::Column(2), Side::Number(7)),
            (BinaryOp::Eq, Side::Column(1), Side::Number(5)),
        ],
        Path::ByIndex {
            index: 0,
            conjunct: 1,
        },
    ),
    // of two conjuncts the first
    (
        &[
            (BinaryOp::Eq, Side::Column(0), Side::Number(1)),
            (BinaryOp::Eq, Side::Column(0), Side::Number(2)),
        ],
        Path::Rowid { conjunct: 0 },
    ),
    (
        &[
            (BinaryOp::Eq, Side::Column(3), Side::Number(1)),
            (BinaryOp::Eq, Side::Number(1), Side::Column(1)),
            (BinaryOp::Eq, Side::Column(1), Side::Number(2)),
        ],
        Path::ByIndex {
            index: 0,
            conjunct: 1,
        },
    ),
    // other operators
    (
        &[(BinaryOp::Is, Side::Column(0), Side::Number(1))],
        Path::Whole,
    ),
    (
        &[(BinaryOp::Lt, Side::Column(0), Side::Number(1))],
        Path::Whole,
    ),
    (
        &[(BinaryOp::Ge, Side::Column(1), Side::Number(1))],
        Path::Whole,
    ),
    (
        &[(BinaryOp::Or, Side::Column(0), Side::Number(1))],
        Path::Whole,
    ),
    // the other side has a column of the table
    (
        &[(BinaryOp::Eq, Side::Column(0), Side::Column(0))],
        Path::Whole,
    ),
    (
        &[(BinaryOp::Eq, Side::Column(0), Side::Column(1))],
        Path::Whole,
    ),
    (
        &[(BinaryOp::Eq, Side::Column(1), Side::Sum(2, 1))],
        Path::Whole,
    ),
    // the side is no column alone
    (
        &[(BinaryOp::Eq, Side::Sum(0, 0), Side::Number(1))],
        Path::Whole,
    ),
    (
        &[(BinaryOp::Eq, Side::Number(1), Side::Number(1))],
        Path::Whole,
    ),
];

#[test]
fn a_change_has_the_path_of_its_conjuncts(rt: HostRuntime) -> Result<(), Fail> {
    let alloc = rt.alloc();
    for (list, wanted) in &CHANGES {
        assert_eq!(rt; found_path(alloc, list, 0)?, *wanted);
    }
    Ok(())
}

#[test]
fn a_table_that_is_not_there_is_read_whole(rt: HostRuntime) -> Result<(), Fail> {
    let alloc = rt.alloc();
    let list = [(BinaryOp::Eq, Side::Column(0), Side::Number(1))];
    assert_eq!(rt; found_path(alloc, &list, 1)?, Path::Whole);
    Ok(())
}
