//! Tests of the public functions of `hc_meaning`: which runs the reference model calls right, and by
//! which part of the definition it refuses the others. The expected replies follow from SQLite's rules
//! for a table with a primary key, and were worked out by hand.
ghost use Rattle.std.specs.Prelude.{◌^◌, ◌<◌, All, IsTrue, length};

use hc_meaning::reference::{
    ascend, cut_all, history, is_in_order, is_legal, is_right_run, others_are_read, played,
};
use hc_meaning::{Script, Statement};
use hc_transcript::{Ending, Line, Refusal, Reply, Row, Transcript};
use hc_value::{NoMemory, Str, Value};
use sqlite_items::Items;
use std::alloc::Global;
use std::process::Abort;
use std::test::Fail;

/// The lines of a reply before its ending.
#[derive(Clone, Copy)]
enum Lines {
    /// `ok N`, without a row.
    Count(u64),
    /// `row V` and `ok 1`.
    Value(i64),
    /// `error 1555 't' 'id'`.
    Duplicate,
}

/// What a run is found to be.
#[derive(Clone, Copy, Debug, PartialEq, Eq)]
enum Finding {
    Right,
    /// The scripts are not of different connections, by number.
    NotAscending,
    /// The replies are not those of the statements, or an ending is missing or of another form.
    NotCut,
    /// The commits are not numbered from 1 on, each once.
    NotNumbered,
    /// A commit's replies are not those of the database before it, or it changed nothing.
    NotLegal,
    /// Another transaction's replies are not those of the database that it names, or a snapshot
    /// changed something.
    NotRead,
    /// A number falls, a commit's is not above the one before it, or another connection's does not
    /// count the setup's commits.
    NotInOrder,
}

/// A piece of the scripts.
#[derive(Clone, Copy)]
enum Written {
    /// A connection's script begins.
    Conn(u32),
    /// Its next statement.
    Says(Statement),
}

/// A piece of the transcripts.
#[derive(Clone, Copy)]
enum Printed {
    /// A connection's transcript begins.
    Conn(u32),
    /// Its next reply.
    Says(Lines, Ending),
    /// The same without an ending.
    Open(Lines),
}

/// A name, the scripts, the transcripts, and what they are.
type Case<'a> = (&'a str, &'a [Written], &'a [Printed], Finding);

#[test]
fn one_connection_is_right_or_told_apart(rt: HostRuntime) -> Result<(), Fail> {
    let (c0, p0) = (Written::Conn(0), Printed::Conn(0));
    let first = Written::Says(Statement::Insert { id: 1, v: 10 });
    let again = Written::Says(Statement::Insert { id: 1, v: 11 });
    let second = Written::Says(Statement::Insert { id: 2, v: 20 });
    let read = Written::Says(Statement::Select { id: 1 });
    let absent = Written::Says(Statement::Select { id: 9 });

    let commit_0 = Printed::Says(Lines::Count(1), Ending::Commit(0));
    let commit_1 = Printed::Says(Lines::Count(1), Ending::Commit(1));
    let commit_2 = Printed::Says(Lines::Count(1), Ending::Commit(2));
    let taken_at_1 = Printed::Says(Lines::Duplicate, Ending::RolledBack(1));
    let none_at_0 = Printed::Says(Lines::Count(0), Ending::Snapshot(0));
    let none_at_2 = Printed::Says(Lines::Count(0), Ending::Snapshot(2));
    let none_commit_1 = Printed::Says(Lines::Count(0), Ending::Commit(1));
    let one_at_0 = Printed::Says(Lines::Count(1), Ending::Snapshot(0));
    let rolled_back_0 = Printed::Says(Lines::Count(1), Ending::RolledBack(0));
    let ten_at_1 = Printed::Says(Lines::Value(10), Ending::Snapshot(1));
    let twenty_at_2 = Printed::Says(Lines::Value(20), Ending::Snapshot(2));
    let taken_open = Printed::Open(Lines::Duplicate);
    let taken_commit_2 = Printed::Says(Lines::Duplicate, Ending::Commit(2));

    let cases: [Case<'_>; 17] = [
        (
            "a row is read back",
            &[c0, first, read],
            &[p0, commit_1, ten_at_1],
            Finding::Right,
        ),
        (
            "an id that is taken is refused",
            &[c0, first, again],
            &[p0, commit_1, taken_at_1],
            Finding::Right,
        ),
        (
            "an id that is absent has no row",
            &[c0, absent],
            &[p0, none_at_0],
            Finding::Right,
        ),
        (
            "a missing reply",
            &[c0, first, again],
            &[p0, commit_1],
            Finding::NotCut,
        ),
        (
            "a missing ending",
            &[c0, first, again],
            &[p0, commit_1, taken_open],
            Finding::NotCut,
        ),
        (
            "a commit after an error",
            &[c0, first, again],
            &[p0, commit_1, taken_commit_2],
            Finding::NotCut,
        ),
        (
            "a rollback after ok",
            &[c0, first],
            &[p0, rolled_back_0],
            Finding::NotCut,
        ),
        (
            "a commit number that is passed over",
            &[c0, first],
            &[p0, commit_2],
            Finding::NotNumbered,
        ),
        (
            "a snapshot after the last commit",
            &[c0, first, absent],
            &[p0, commit_1, none_at_2],
            Finding::NotRead,
        ),
        (
            "the value of another id",
            &[c0, first, second, read],
            &[p0, commit_1, commit_2, twenty_at_2],
            Finding::NotRead,
        ),
        (
            "an id that is taken is written",
            &[c0, first, again],
            &[p0, commit_1, commit_2],
            Finding::NotLegal,
        ),
        (
            "a snapshot of an insertion",
            &[c0, first],
            &[p0, one_at_0],
            Finding::NotRead,
        ),
        (
            "a commit of a query",
            &[c0, absent],
            &[p0, none_commit_1],
            Finding::NotLegal,
        ),
        (
            "a snapshot from before the last commit",
            &[c0, first, absent],
            &[p0, commit_1, none_at_0],
            Finding::NotInOrder,
        ),
        (
            "a commit with the number 0",
            &[c0, first],
            &[p0, commit_0],
            Finding::NotNumbered,
        ),
        (
            "a reply too many",
            &[c0, first],
            &[p0, commit_1, commit_2],
            Finding::NotCut,
        ),
        (
            "commit numbers that fall",
            &[c0, first, second],
            &[p0, commit_2, commit_1],
            Finding::NotInOrder,
        ),
    ];
    each_is_found(&rt, rt.alloc(), &cases)
}

#[test]
fn several_connections_are_right_or_told_apart(rt: HostRuntime) -> Result<(), Fail> {
    let (c0, c1, c2) = (Written::Conn(0), Written::Conn(1), Written::Conn(2));
    let first = Written::Says(Statement::Insert { id: 1, v: 10 });
    let second = Written::Says(Statement::Insert { id: 2, v: 20 });
    let again = Written::Says(Statement::Insert { id: 2, v: 21 });
    let third = Written::Says(Statement::Insert { id: 3, v: 30 });
    let read = Written::Says(Statement::Select { id: 1 });
    let read_second = Written::Says(Statement::Select { id: 2 });
    let absent = Written::Says(Statement::Select { id: 9 });

    let (p0, p1, p2) = (Printed::Conn(0), Printed::Conn(1), Printed::Conn(2));
    let commit_1 = Printed::Says(Lines::Count(1), Ending::Commit(1));
    let commit_2 = Printed::Says(Lines::Count(1), Ending::Commit(2));
    let commit_3 = Printed::Says(Lines::Count(1), Ending::Commit(3));
    let ten_at_1 = Printed::Says(Lines::Value(10), Ending::Snapshot(1));
    let twenty_at_1 = Printed::Says(Lines::Value(20), Ending::Snapshot(1));
    let twenty_at_2 = Printed::Says(Lines::Value(20), Ending::Snapshot(2));
    let twenty_at_3 = Printed::Says(Lines::Value(20), Ending::Snapshot(3));
    let none_at_0 = Printed::Says(Lines::Count(0), Ending::Snapshot(0));
    let none_at_1 = Printed::Says(Lines::Count(0), Ending::Snapshot(1));
    let none_at_2 = Printed::Says(Lines::Count(0), Ending::Snapshot(2));
    let taken_at_1 = Printed::Says(Lines::Duplicate, Ending::RolledBack(1));
    let taken_at_2 = Printed::Says(Lines::Duplicate, Ending::RolledBack(2));

    let cases: [Case<'_>; 19] = [
        (
            "a connection reads the setup",
            &[c0, first, c1, read],
            &[p0, commit_1, p1, ten_at_1],
            Finding::Right,
        ),
        (
            "a snapshot from before the setup",
            &[c0, first, c1, read],
            &[p0, commit_1, p1, none_at_0],
            Finding::NotInOrder,
        ),
        (
            "an older snapshot than the last commit",
            &[c0, first, c1, second, c2, read_second],
            &[p0, commit_1, p1, commit_2, p2, none_at_1],
            Finding::Right,
        ),
        (
            "the newest snapshot",
            &[c0, first, c1, second, c2, read_second],
            &[p0, commit_1, p1, commit_2, p2, twenty_at_2],
            Finding::Right,
        ),
        (
            "a commit that is not seen",
            &[c0, first, c1, second, c2, read_second],
            &[p0, commit_1, p1, commit_2, p2, none_at_2],
            Finding::NotRead,
        ),
        (
            "a snapshot of commits that are not there",
            &[c0, first, c1, second, c2, read_second],
            &[p0, commit_1, p1, commit_2, p2, twenty_at_3],
            Finding::NotRead,
        ),
        (
            "an id that another connection took is written",
            &[c0, first, c1, second, c2, again],
            &[p0, commit_1, p1, commit_2, p2, commit_3],
            Finding::NotLegal,
        ),
        (
            "an id that another connection took is refused",
            &[c0, first, c1, second, c2, again],
            &[p0, commit_1, p1, commit_2, p2, taken_at_2],
            Finding::Right,
        ),
        (
            "an id is refused before it is taken",
            &[c0, first, c1, second, c2, again],
            &[p0, commit_1, p1, commit_2, p2, taken_at_1],
            Finding::NotRead,
        ),
        (
            "commits of one connection fall",
            &[c0, first, c1, second, third],
            &[p0, commit_1, p1, commit_3, commit_2],
            Finding::NotInOrder,
        ),
        (
            "commits of two connections cross",
            &[c0, first, c1, second, c2, third],
            &[p0, commit_1, p1, commit_3, p2, commit_2],
            Finding::Right,
        ),
        (
            "two commits have one number",
            &[c0, first, c1, second, c2, third],
            &[p0, commit_1, p1, commit_2, p2, commit_2],
            Finding::NotNumbered,
        ),
        (
            "a commit before the setup's",
            &[c0, first, c1, second],
            &[p0, commit_2, p1, commit_1],
            Finding::NotInOrder,
        ),
        (
            "snapshots of one connection fall",
            &[c0, first, c1, absent, absent, c2, second],
            &[p0, commit_1, p1, none_at_2, none_at_1, p2, commit_2],
            Finding::NotInOrder,
        ),
        (
            "transcripts in another order",
            &[c0, first, c1, second, c2, read_second],
            &[p0, commit_1, p2, none_at_1, p1, commit_2],
            Finding::NotCut,
        ),
        (
            "a transcript of a connection without statements",
            &[c0, first, c1],
            &[p0, commit_1, p1],
            Finding::NotCut,
        ),
        (
            "two scripts of one connection",
            &[c1, first, c1, first],
            &[p1, commit_1, p1, commit_1],
            Finding::NotAscending,
        ),
        (
            "scripts in another order",
            &[c0, first, c2, read_second, c1, second],
            &[p0, commit_1, p2, none_at_1, p1, commit_2],
            Finding::NotAscending,
        ),
        (
            "the setup reads a commit of another connection",
            &[c0, read_second, c1, second],
            &[p0, twenty_at_1, p1, commit_1],
            Finding::Right,
        ),
    ];
    each_is_found(&rt, rt.alloc(), &cases)
}

// The judge does not call `played`, and no run but the serial one is right.
#[test]
fn a_serial_run_is_played(rt: HostRuntime) -> Result<(), Fail> {
    let statements = [
        Statement::Insert { id: 1, v: 10 },
        Statement::Insert { id: 1, v: 11 },
        Statement::Insert { id: 2, v: 20 },
        Statement::Select { id: 2 },
        Statement::Select { id: 9 },
    ];
    let mut scripts = Vec::new(rt.alloc());
    scripts.push(Script {
        conn: 0,
        statements: Items::from_slice(rt.alloc(), &statements)?,
    })?;
    let mut transcripts = Vec::new(rt.alloc());
    transcripts.push(Transcript {
        conn: 0,
        replies: Items::from_vec(played(rt.alloc(), &statements)?),
    })?;
    let found = judge(&rt, rt.alloc(), scripts.as_slice(), transcripts.as_slice())?;
    assert_eq!(rt; found, Finding::Right);
    Ok(())
}

fn each_is_found(rt: &impl Abort, alloc: Global, cases: &[Case<'_>]) -> Result<(), Fail> {
    for (name, written, printed, want) in cases {
        let scripts = scripts(alloc, written)?;
        let transcripts = transcripts(alloc, printed)?;
        let found = judge(rt, alloc, scripts.as_slice(), transcripts.as_slice())?;
        assert_eq!(rt; found, *want, "{name}");
    }
    Ok(())
}

// What the parts of the definition find, one after another. The whole judge has to agree.
fn judge(
    rt: &impl Abort,
    alloc: Global,
    scripts: &[Script],
    transcripts: &[Transcript],
) -> Result<Finding, NoMemory> {
    // The contracts want fewer than 2^32 statements in each script.
    assert!(rt; are_short(scripts));
    let found = by_parts(alloc, scripts, transcripts)?;
    let right = is_right_run(alloc, scripts, transcripts)?;
    assert_eq!(rt; right, found == Finding::Right);
    Ok(found)
}

fn by_parts(
    alloc: Global,
    scripts: &[Script],
    transcripts: &[Transcript],
) -> Result<Finding, NoMemory>
    requires { All (λ script. length script.statements < 2 ^ 32) scripts.now }
{
    if !ascend(scripts) {
        return Ok(Finding::NotAscending);
    }
    let Some(transactions) = cut_all(alloc, scripts, transcripts)? else {
        return Ok(Finding::NotCut);
    };
    let Some(committed) = history(alloc, transactions.as_slice())? else {
        return Ok(Finding::NotNumbered);
    };
    if !is_legal(alloc, committed.as_slice())? {
        return Ok(Finding::NotLegal);
    }
    if !others_are_read(alloc, transactions.as_slice(), committed.as_slice())? {
        return Ok(Finding::NotRead);
    }
    if !is_in_order(transactions.as_slice(), committed.as_slice()) {
        return Ok(Finding::NotInOrder);
    }
    Ok(Finding::Right)
}

fn are_short(scripts: &[Script]) -> bool
    ensures { IsTrue result → All (λ script. length script.statements < 2 ^ 32) scripts.now }
{
    scripts.iter().all(|script| script.statements.len() < 100)
}

fn scripts(alloc: Global, written: &[Written]) -> Result<Vec<Script>, NoMemory> {
    let mut scripts = Vec::new(alloc);
    for (at, piece) in written.iter().enumerate() {
        if let Written::Conn(conn) = *piece {
            let statements = statements_up_to_next(alloc, &written[at + 1..])?;
            scripts.push(Script { conn, statements })?;
        }
    }
    Ok(scripts)
}

fn statements_up_to_next(alloc: Global, written: &[Written]) -> Result<Items<Statement>, NoMemory> {
    let mut statements = Items::new(alloc);
    for piece in written {
        let Written::Says(statement) = *piece else {
            return Ok(statements);
        };
        statements.push(statement)?;
    }
    Ok(statements)
}

fn transcripts(alloc: Global, printed: &[Printed]) -> Result<Vec<Transcript>, NoMemory> {
    let mut transcripts = Vec::new(alloc);
    for (at, piece) in printed.iter().enumerate() {
        if let Printed::Conn(conn) = *piece {
            let replies = replies_up_to_next(alloc, &printed[at + 1..])?;
            transcripts.push(Transcript { conn, replies })?;
        }
    }
    Ok(transcripts)
}

fn replies_up_to_next(alloc: Global, printed: &[Printed]) -> Result<Items<Reply>, NoMemory> {
    let mut replies = Items::new(alloc);
    for piece in printed {
        let (lines, ending) = match *piece {
            Printed::Conn(_) => return Ok(replies),
            Printed::Says(lines, ending) => (lines, Some(ending)),
            Printed::Open(lines) => (lines, None),
        };
        replies.push(reply(alloc, lines, ending)?)?;
    }
    Ok(replies)
}

fn reply(alloc: Global, lines: Lines, ending: Option<Ending>) -> Result<Reply, NoMemory> {
    let mut rows = Items::new(alloc);
    let last = match lines {
        Lines::Count(count) => Line::Ok(count),
        Lines::Value(v) => {
            let mut values = Items::new(alloc);
            values.push(Value::Int(v))?;
            rows.push(Row { values })?;
            Line::Ok(1)
        }
        Lines::Duplicate => Line::Error(Refusal::Primary {
            table: Str::from_text(alloc, "t")?,
            name: Str::from_text(alloc, "id")?,
        }),
    };
    Ok(Reply { rows, last, ending })
}
