// What statements answer, and the database after them.
ghost use Rattle.std.specs.Prelude.{◌≡◌, [], ◌∷◌, IfOk};
ghost use Rattle.hc_meaning.specs.Run.{duplicate, run, run_all, selected};

use crate::reference::rows;
use crate::{Answer, Outcome, Ran, Statement};
use hc_transcript::{Line, Refusal, Row};
use hc_value::{NoMemory, Str, Value};
use sqlite_items::Items;
use std::alloc::Global;

/// What one statement answers on a database, and the database after it.
pub fn run(alloc: Global, db: &[(i64, i64)], statement: &Statement) -> Result<Outcome, NoMemory>
    ensures { IfOk result (λ outcome. outcome ≡ run db.now statement.now) }
{
    match *statement {
        Statement::Insert { id, v } => insert(alloc, db, id, v),
        Statement::Select { id } => {
            let rows = rows::rows_at(alloc, db, id)?;
            Ok(Outcome {
                answer: selected(alloc, rows.as_slice())?,
                db: Items::from_slice(alloc, db)?,
            })
        }
    }
}

/// What statements answer that run one after another, each on the database that the one before it
/// left.
pub fn run_all(alloc: Global, db: &[(i64, i64)], statements: &[Statement]) -> Result<Ran, NoMemory>
    ensures { IfOk result (λ ran. ran ≡ run_all db.now statements.now) }
{
    let mut answers = Items::new(alloc);
    let mut db = Items::from_slice(alloc, db)?;
    for statement in statements {
        let Outcome { answer, db: next } = run(alloc, db.as_slice(), statement)?;
        answers.push(answer)?;
        db = next;
    }
    Ok(Ran { answers, db })
}

fn insert(alloc: Global, db: &[(i64, i64)], id: i64, v: i64) -> Result<Outcome, NoMemory>
    ensures { IfOk result (λ outcome. outcome ≡ run db.now (Statement.Insert id v)) }
{
    if rows::value_at(db, id).is_some() {
        return Ok(Outcome {
            answer: duplicate(alloc)?,
            db: Items::from_slice(alloc, db)?,
        });
    }
    Ok(Outcome {
        answer: Answer {
            rows: Items::new(alloc),
            last: Line::Ok(1),
        },
        db: rows::with_row(alloc, db, id, v)?,
    })
}

fn duplicate(alloc: Global) -> Result<Answer, NoMemory>
    ensures { IfOk result (λ answer. answer ≡ duplicate) }
{
    let table = Str::from_text(alloc, "t")?;
    let name = Str::from_text(alloc, "id")?;
    Ok(Answer {
        rows: Items::new(alloc),
        last: Line::Error(Refusal::Primary { table, name }),
    })
}

// The column v of these rows.
fn selected(alloc: Global, rows: &[(i64, i64)]) -> Result<Answer, NoMemory>
    ensures { IfOk result (λ answer. answer ≡ selected rows.now) }
{
    let mut shown = Items::new(alloc);
    for row in rows {
        shown.push(row_of(alloc, row.1)?)?;
    }
    Ok(Answer {
        rows: shown,
        last: Line::Ok(rows.len() as u64),
    })
}

fn row_of(alloc: Global, v: i64) -> Result<Row, NoMemory>
    ensures { IfOk result (λ row. row ≡ record { values = Value.Int v ∷ [] }) }
{
    let mut values = Items::new(alloc);
    values.push(Value::Int(v))?;
    Ok(Row { values })
}
