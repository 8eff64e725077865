// The run of the setup script alone, its statements one after another, each as a transaction of its own.
ghost use Rattle.std.specs.Prelude.{◌≡◌, ◌+◌, ◌^◌, ◌<◌, IfOk, length};
ghost use Rattle.hc_meaning.specs.Database.{empty_db};
ghost use Rattle.hc_meaning.specs.Played.{commits_at, ending_after, played};

use crate::reference::execution;
use crate::{Outcome, Statement};
use hc_transcript::{Ending, Line, Reply};
use hc_value::NoMemory;
use sqlite_items::Items;
use std::alloc::Global;

/// The replies to statements that run one after another from the empty database.
pub fn played(alloc: Global, statements: &[Statement]) -> Result<Vec<Reply>, NoMemory>
    requires { length statements.now < 2 ^ 32 }
    ensures { IfOk result (λ replies. replies.items ≡ played 0 empty_db statements.now) }
{
    let mut replies = Vec::new(alloc);
    let mut db = Items::new(alloc);
    let mut commits = 0;
    for statement in statements {
        let Outcome { answer, db: next } = execution::run(alloc, db.as_slice(), statement)?;
        let ending = ending_after(commits, statement, &answer.last);
        replies.push(Reply {
            rows: answer.rows,
            last: answer.last,
            ending: Some(ending),
        })?;
        commits = commits_at(commits, ending);
        db = next;
    }
    Ok(replies)
}

// How a statement ends after so many commits.
fn ending_after(commits: u32, statement: &Statement, last: &Line) -> Ending
    requires { commits + 1 < 2 ^ 32 }
    ensures { result ≡ ending_after commits statement.now last.now }
{
    match (statement, last) {
        (Statement::Insert { .. }, Line::Ok(_)) => Ending::Commit(commits + 1),
        (Statement::Select { .. }, Line::Ok(_)) => Ending::Snapshot(commits),
        (_, Line::Error(_)) => Ending::RolledBack(commits),
    }
}

// How many commits there are after this ending.
fn commits_at(commits: u32, ending: Ending) -> u32
    ensures { result ≡ commits_at commits ending }
{
    match ending {
        Ending::Commit(k) => k,
        Ending::Snapshot(_) | Ending::RolledBack(_) => commits,
    }
}
