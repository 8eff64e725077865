// What a database has at an id, and the database with one more row.
ghost use Rattle.std.specs.Prelude.{◌≡◌, filter, IfOk, int_lt};
ghost use Rattle.hc_meaning.specs.Database.{rows_at, value_at, with_row};

use crate::Db;
use hc_value::NoMemory;
use sqlite_items::Items;
use std::alloc::Global;

/// The value of the row with this id, if there is one.
pub fn value_at(db: &[(i64, i64)], id: i64) -> Option<i64>
    ensures { result ≡ value_at db.now id }
{
    for row in db {
        if row.0 == id {
            return Some(row.1);
        }
    }
    None
}

/// The rows with this id.
pub fn rows_at(alloc: Global, db: &[(i64, i64)], id: i64) -> Result<Db, NoMemory>
    ensures { IfOk result (λ rows. rows ≡ rows_at db.now id) }
{
    let mut rows = Items::new(alloc);
    for row in db {
        if row.0 == id {
            rows.push(*row)?;
        }
    }
    Ok(rows)
}

/// The database with this row in its place, instead of any other with its id.
pub fn with_row(alloc: Global, db: &[(i64, i64)], id: i64, v: i64) -> Result<Db, NoMemory>
    ensures { IfOk result (λ rows. rows ≡ with_row db.now id v) }
{
    let mut rows = rows_below(alloc, db, id)?;
    rows.push((id, v))?;
    rows.append(rows_above(alloc, db, id)?)?;
    Ok(rows)
}

fn rows_below(alloc: Global, db: &[(i64, i64)], id: i64) -> Result<Db, NoMemory>
    ensures { IfOk result (λ rows. rows ≡ filter (λ row. int_lt row.0 id) db.now) }
{
    let rows = db.iter().copied().filter(|row| row.0 < id).collect(alloc)?;
    Ok(Items::from_vec(rows))
}

fn rows_above(alloc: Global, db: &[(i64, i64)], id: i64) -> Result<Db, NoMemory>
    ensures { IfOk result (λ rows. rows ≡ filter (λ row. int_lt id row.0) db.now) }
{
    let rows = db.iter().copied().filter(|row| id < row.0).collect(alloc)?;
    Ok(Items::from_vec(rows))
}
