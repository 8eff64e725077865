// The database that a script runs on, one statement after another.
ghost use Rattle.std.specs.Prelude.{◌≡◌, ◌+◌, ◌<◌, ◌^◌, [], ◌∷◌, if◌then◌else◌, is_none, map, option_to_list, codes, IfOk, OnOk, OnErr};
ghost use Rattle.std.specs.Ordering.{int_cmp};
ghost use Rattle.std.specs.List.Sorted.{IsStrictlySortedBy-prop};
ghost use Rattle.std.specs.Map.{keys_of};
ghost use Rattle.hc_meaning.specs.Database.{IsDb, value_at, with_row};
ghost use Rattle.hc_meaning.specs.Run.{run};
ghost use Rattle.hc_meaning.specs.Played.{reply_to, commits_after};

use hc_meaning::Statement;
use hc_transcript::{Ending, Line, Refusal, Reply, Row};
use hc_value::{NoMemory, Str, Value};
use sqlite_items::Items;
use std::alloc::Global;
use std::collections::BTreeMap;
use std::collections::btree_map::Entry;

/// The rows of the table by id, and how many commits they have taken.
#[derive(Drop)]
pub struct Engine {
    rows: BTreeMap<i64, i64>,
    commits: u32,
    ghost in_order: { IsDb rows.entries } by { IsStrictlySortedBy-prop int_cmp (keys_of rows.entries) },
}

impl Engine {
    /// The empty database, before the first commit.
    pub fn new(alloc: Global) -> Engine
        ensures rows { result.rows.entries ≡ [] }
        ensures commits { result.commits ≡ 0 }
    {
        Engine {
            rows: BTreeMap::new(alloc),
            commits: 0,
        }
    }

    /// Runs one statement as a transaction of its own. Without memory nothing changes.
    pub fn execute(&mut self, alloc: Global, statement: &Statement) -> Result<Reply, NoMemory>
        requires { self.old.commits + 1 < 2 ^ 32 }
        ensures reply { IfOk result (λ reply. reply
            ≡ reply_to self.old.commits self.old.rows.entries statement.now) }
        ensures rows { OnOk result (self.new.rows.entries
            ≡ (run self.old.rows.entries statement.now).db) }
        ensures commits { OnOk result (self.new.commits
            ≡ commits_after self.old.commits self.old.rows.entries statement.now) }
        ensures no_memory { OnErr result ((self.new.rows.entries ≡ self.old.rows.entries)
            × (self.new.commits ≡ self.old.commits)) }
    {
        match *statement {
            Statement::Insert { id, v } => self.insert(alloc, id, v),
            Statement::Select { id } => self.select(alloc, id),
        }
    }

    fn insert(&mut self, alloc: Global, id: i64, v: i64) -> Result<Reply, NoMemory>
        requires { self.old.commits + 1 < 2 ^ 32 }
        ensures reply { IfOk result (λ reply. reply
            ≡ reply_to self.old.commits self.old.rows.entries (Statement.Insert id v)) }
        ensures rows { OnOk result (self.new.rows.entries
            ≡ (run self.old.rows.entries (Statement.Insert id v)).db) }
        ensures commits { OnOk result (self.new.commits
            ≡ commits_after self.old.commits self.old.rows.entries (Statement.Insert id v)) }
        ensures no_memory { OnErr result ((self.new.rows.entries ≡ self.old.rows.entries)
            × (self.new.commits ≡ self.old.commits)) }
    {
        let rows = Items::new(alloc);
        if add_row(&mut self.rows, id, v)? {
            self.commits += 1;
            Ok(Reply {
                rows,
                last: Line::Ok(1),
                ending: Some(Ending::Commit(self.commits)),
            })
        } else {
            Ok(Reply {
                rows,
                last: Line::Error(duplicate(alloc)?),
                ending: Some(Ending::RolledBack(self.commits)),
            })
        }
    }

    fn select(&self, alloc: Global, id: i64) -> Result<Reply, NoMemory>
        ensures { IfOk result (λ reply. reply
            ≡ reply_to self.now.commits self.now.rows.entries (Statement.Select id)) }
    {
        let rows = found_rows(alloc, self.rows.get(&id).copied())?;
        let count = rows.len() as u64;
        Ok(Reply {
            rows,
            last: Line::Ok(count),
            ending: Some(Ending::Snapshot(self.commits)),
        })
    }
}

// Adds a row, unless one with its id is there.
fn add_row(rows: &mut BTreeMap<i64, i64>, id: i64, v: i64) -> Result<bool, NoMemory>
    ensures added { IfOk result (λ added. added ≡ is_none (value_at rows.old.entries id)) }
    ensures rows { IfOk result (λ added. rows.new.entries
        ≡ (if added then with_row rows.old.entries id v else rows.old.entries)) }
    ensures err { OnErr result (rows.new.entries ≡ rows.old.entries) }
    ensures in_order { IsDb rows.new.entries }
{
    match rows.entry(id)? {
        Entry::Occupied(_) => Ok(false),
        Entry::Vacant(place) => {
            place.insert(v);
            Ok(true)
        }
    }
}

// The rows of a query that found this value, or none.
fn found_rows(alloc: Global, found: Option<i64>) -> Result<Items<Row>, NoMemory>
    ensures { IfOk result (λ rows. rows
        ≡ map (λ v. record { values = Value.Int v ∷ [] }) (option_to_list found)) }
{
    let mut rows = Items::new(alloc);
    if let Some(v) = found {
        let mut values = Items::new(alloc);
        values.push(Value::Int(v))?;
        rows.push(Row { values })?;
    }
    Ok(rows)
}

// The refusal of a row whose id is there.
fn duplicate(alloc: Global) -> Result<Refusal, NoMemory>
    ensures { IfOk result (λ refusal. refusal ≡ Refusal.Primary (codes "t") (codes "id")) }
{
    let table = Str::from_text(alloc, "t")?;
    let name = Str::from_text(alloc, "id")?;
    Ok(Refusal::Primary { table, name })
}
