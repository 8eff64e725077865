// What a statement of one of the three forms answers and puts, by the value that is at its id.
ghost use Rattle.std.specs.Prelude.{◌≡◌, IfOk, ℤ, Some};
ghost use Rattle.hc_table.specs.declared.action.Action.TheVariants.{Inserts, Selects};
ghost use Rattle.hc_table.specs.Statements as table;

use crate::Action;
use hc_meaning::Answer;
use hc_transcript::{Line, Refusal, Row};
use hc_value::{NoMemory, Str, Value};
use sqlite_items::Items;
use std::alloc::Global;

impl Action {
    /// The id of the one row that it looks at.
    pub fn id(self) -> i64
        ensures { result ≡ table.id_of self }
    {
        match self {
            Action::Inserts(id, _) | Action::Selects(id) | Action::Updates(id, _) => id,
        }
    }

    /// The value that is put at its id, by the value that is there.
    pub fn put_at(self, there: Option<i64>) -> Option<i64>
        ensures { result ≡ table.put_at self there }
    {
        match (self, there) {
            (Action::Inserts(_, v), None) | (Action::Updates(_, v), Some(_)) => Some(v),
            _ => None,
        }
    }

    /// What it answers, by the value that is at its id.
    ///
    /// # Errors
    ///
    /// `NoMemory` where an allocation is refused.
    pub fn answer_at(self, alloc: Global, there: Option<i64>) -> Result<Answer, NoMemory>
        ensures { IfOk result (λ answer. answer ≡ table.answer_at self there) }
    {
        match (self, there) {
            (Action::Inserts(_, _), None) => Ok(changed(alloc, 1)),
            (Action::Inserts(_, _), Some(_)) => repeated(alloc),
            (Action::Selects(_), Some(v)) => selected(alloc, v),
            (Action::Updates(_, _), Some(_)) => Ok(changed(alloc, 1)),
            (Action::Selects(_) | Action::Updates(_, _), None) => Ok(changed(alloc, 0)),
        }
    }
}

// So many rows were changed, or given.
fn changed(alloc: Global, count: u64) -> Answer
    ensures { result ≡ table.changed count }
{
    Answer {
        rows: Items::new(alloc),
        last: Line::Ok(count),
    }
}

// A row with the id is there already.
fn repeated(alloc: Global) -> Result<Answer, NoMemory>
    ensures { IfOk result (λ answer. answer ≡ table.repeated) }
{
    Ok(Answer {
        rows: Items::new(alloc),
        last: Line::Error(Refusal::Primary {
            table: Str::from_text(alloc, "t")?,
            name: Str::from_text(alloc, "id")?,
        }),
    })
}

// The one row with this value.
fn selected(alloc: Global, v: i64) -> Result<Answer, NoMemory>
    ensures { IfOk result (λ answer. answer ≡ table.answer_at (Selects v) (Some v)) }
{
    let mut values = Items::new(alloc);
    values.push(Value::Int(v))?;
    let mut rows = Items::new(alloc);
    rows.push(Row { values })?;
    Ok(Answer {
        rows,
        last: Line::Ok(1),
    })
}

/// What a statement of no form answers. The table's language has none that begins so.
pub fn no_statement(alloc: Global) -> Answer
    ensures { result ≡ table.no_statement }
{
    Answer {
        rows: Items::new(alloc),
        last: Line::Error(Refusal::Syntax { at: 0 }),
    }
}
