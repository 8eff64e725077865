// Which transactions are found of scripts with their outputs, or which of the first two parts of a right run fails.
// The outputs were written out by hand from the rules for endings. What a statement means makes no difference here.
use hc_ast::Stmt;
use hc_judge::{Front, Script, find_transactions};
use hc_meaning::Command;
use hc_reply::read;
use hc_transcript::Refusal;
use hc_value::{NoMemory, Str};
use sqlite_items::Items;
use std::alloc::Global;
use std::process::Abort;
use std::test::Fail;

#[derive(Clone, Copy, Debug, PartialEq, Eq)]
enum Finding {
    /// So many transactions.
    Transactions(usize),
    /// The first part fails.
    NotPaired,
    /// The second part fails.
    NotCut,
    /// The text is no output.
    Unread,
}

// A command for a letter: BEGIN, COMMIT, ROLLBACK, SAVEPOINT, ROLLBACK TO, RELEASE, what is no statement, and any statement.
fn command(alloc: Global, letter: u8) -> Result<Command, NoMemory> {
    match letter {
        b'b' => Ok(Command::Begin),
        b'c' => Ok(Command::Commit),
        b'r' => Ok(Command::Rollback),
        b'p' => Ok(Command::Savepoint(Str::from_text(alloc, "a")?)),
        b't' => Ok(Command::RollbackTo(Str::from_text(alloc, "a")?)),
        b'l' => Ok(Command::Release(Str::from_text(alloc, "a")?)),
        b'f' => Ok(Command::Fault(Refusal::Syntax { at: 6 })),
        _ => statement(alloc),
    }
}

fn statement(alloc: Global) -> Result<Command, NoMemory> {
    let name = Str::from_text(alloc, "t")?;
    Ok(Command::Run(Stmt::DropTable { maybe: true, name }))
}

fn script(alloc: Global, conn: u32, letters: &[u8]) -> Result<Script, NoMemory> {
    let mut commands = Items::new(alloc);
    for letter in letters {
        commands.push(command(alloc, *letter)?)?;
    }
    Ok(Script::new(conn, commands))
}

pub fn scripts(alloc: Global, all: &[(u32, &[u8])]) -> Result<Vec<Script>, NoMemory> {
    let mut scripts = Vec::new(alloc);
    for one in all {
        scripts.push(script(alloc, one.0, one.1)?)?;
    }
    Ok(scripts)
}

fn told(found: &Front<'_>) -> Finding {
    match found {
        Front::Transactions(all) => Finding::Transactions(all.len()),
        Front::NotPaired => Finding::NotPaired,
        Front::NotCut => Finding::NotCut,
    }
}

fn find(alloc: Global, all: &[(u32, &[u8])], output: &[u8]) -> Result<Finding, NoMemory> {
    let scripts = scripts(alloc, all)?;
    let Ok(transcripts) = read(alloc, output) else {
        return Ok(Finding::Unread);
    };
    let found = find_transactions(alloc, scripts.as_slice(), transcripts.as_slice())?;
    Ok(told(&found))
}

fn are_found(rt: &impl Abort, alloc: Global, cases: &[(&[(u32, &[u8])], &[u8], Finding)]) {
    for case in cases {
        assert_eq!(rt; find(alloc, case.0, case.1), Ok(case.2), "{:?}", case.1);
    }
}

const SETUP: (u32, &[u8]) = (0, b"ss");

// Runs of two rows that the setup puts: of several connections, with conflicts, and with a savepoint.
const RUNS: [(&[(u32, &[u8])], &[u8], Finding); 7] = [
    (
        &[SETUP, (1, b"bs")],
        b"conn 0\nok 1\ncommit 1\nok 1\ncommit 2\nconn 1\nok 0\nok 1\nrolled back 2\n",
        Finding::Transactions(3),
    ),
    (
        &[SETUP, (1, b"bsc"), (2, b"bsc")],
        b"conn 0\nok 1\ncommit 1\nok 1\ncommit 2\nconn 1\nok 0\nok 1\nok 0\ncommit 3\n\
        conn 2\nok 0\nok 1\nok 0\ncommit 4\n",
        Finding::Transactions(4),
    ),
    (
        &[SETUP, (1, b"bsc"), (2, b"bsc")],
        b"conn 0\nok 1\ncommit 1\nok 1\ncommit 2\nconn 1\nok 0\nok 1\nok 0\ncommit 3\n\
        conn 2\nok 0\nok 1\nerror 517 conn 1 txn 1 key X'00000001028000000000000001'\nrolled back 2\n",
        Finding::Transactions(4),
    ),
    (
        &[SETUP, (1, b"ss"), (2, b"bssc")],
        b"conn 0\nok 1\ncommit 1\nok 1\ncommit 2\nconn 1\nok 1\ncommit 3\nok 1\ncommit 4\n\
        conn 2\nok 0\nrow 11\nok 1\nrow 11\nok 1\nok 0\nsnapshot 3\n",
        Finding::Transactions(5),
    ),
    (
        &[SETUP, (1, b"bssc"), (2, b"bssc")],
        b"conn 0\nok 1\ncommit 1\nok 1\ncommit 2\nconn 1\nok 0\nrow 20\nok 1\nok 1\nok 0\ncommit 3\n\
        conn 2\nok 0\nrow 10\nok 1\nok 1\nerror 517 conn 1 txn 1 key X'00000001028000000000000001'\nrolled back 2\n",
        Finding::Transactions(4),
    ),
    (
        &[SETUP, (1, b"s"), (2, b"bsc")],
        b"conn 0\nok 1\ncommit 1\nok 1\ncommit 2\nconn 1\nok 1\nsnapshot 2\n\
        conn 2\nok 0\nok 1\nok 0\ncommit 3\n",
        Finding::Transactions(4),
    ),
    (
        &[(0, b"ssbspstslc")],
        b"conn 0\nok 1\ncommit 1\nok 1\ncommit 2\nok 0\nok 1\nok 0\nok 1\nok 0\nrow 11\nok 1\nok 0\nok 0\ncommit 3\n",
        Finding::Transactions(3),
    ),
];

// Out of memory at each place: a statement of its own with an ending and without, BEGIN, a statement of an open transaction,
// COMMIT without an ending, which leaves the transaction open, and with one, ROLLBACK, and the script's last command.
const SEVENS: [(&[(u32, &[u8])], &[u8], Finding); 9] = [
    (&[(0, b"s")], b"conn 0\nerror 7\n", Finding::Transactions(0)),
    (
        &[(0, b"s")],
        b"conn 0\nerror 7\nrolled back 0\n",
        Finding::Transactions(1),
    ),
    (
        &[(0, b"bs")],
        b"conn 0\nerror 7\nok 0\nsnapshot 0\n",
        Finding::Transactions(1),
    ),
    (
        &[(0, b"bsc")],
        b"conn 0\nok 0\nerror 7\nok 0\nsnapshot 0\n",
        Finding::Transactions(1),
    ),
    (
        &[(0, b"bscc")],
        b"conn 0\nok 0\nok 1\nerror 7\nok 0\ncommit 1\n",
        Finding::Transactions(1),
    ),
    (
        &[(0, b"bsc")],
        b"conn 0\nok 0\nok 1\nerror 7\nrolled back 0\n",
        Finding::Transactions(1),
    ),
    (
        &[(0, b"bsr")],
        b"conn 0\nok 0\nok 1\nerror 7\nrolled back 0\n",
        Finding::Transactions(1),
    ),
    (
        &[(0, b"bs")],
        b"conn 0\nok 0\nerror 7\nrolled back 0\n",
        Finding::Transactions(1),
    ),
    (
        &[(0, b"b")],
        b"conn 0\nerror 7\nrolled back 0\n",
        Finding::Transactions(1),
    ),
];

// Commands in no transaction, and scripts without a command.
const OUTSIDE: [(&[(u32, &[u8])], &[u8], Finding); 4] = [
    (
        &[(0, b"crptlf")],
        b"conn 0\nerror 1 no transaction\nerror 1 no transaction\nerror 1 no transaction\n\
        error 1 no transaction\nerror 1 no transaction\nerror 1 syntax at 6\n",
        Finding::Transactions(0),
    ),
    (&[], b"", Finding::Transactions(0)),
    (&[(0, b""), (1, b"")], b"", Finding::Transactions(0)),
    (
        &[(0, b""), (3, b"s"), (4, b"")],
        b"conn 3\nok 1\ncommit 1\n",
        Finding::Transactions(1),
    ),
];

const UNPAIRED: [(&[(u32, &[u8])], &[u8], Finding); 8] = [
    // a transcript is missing, or too many are there
    (
        &[(0, b"s"), (1, b"s")],
        b"conn 0\nok 1\ncommit 1\n",
        Finding::NotPaired,
    ),
    (&[(0, b"s")], b"", Finding::NotPaired),
    (
        &[(0, b"s"), (1, b"")],
        b"conn 0\nok 1\ncommit 1\nconn 1\nok 1\ncommit 2\n",
        Finding::NotPaired,
    ),
    // one is of another connection
    (
        &[(0, b"s")],
        b"conn 1\nok 1\ncommit 1\n",
        Finding::NotPaired,
    ),
    // a reply is missing, or one is too many
    (
        &[(0, b"ss")],
        b"conn 0\nok 1\ncommit 1\n",
        Finding::NotPaired,
    ),
    (
        &[(0, b"s")],
        b"conn 0\nok 1\ncommit 1\nok 1\ncommit 2\n",
        Finding::NotPaired,
    ),
    // scripts of one connection, or not by number
    (
        &[(0, b""), (0, b"s")],
        b"conn 0\nok 1\ncommit 1\n",
        Finding::NotPaired,
    ),
    (
        &[(1, b"s"), (0, b"")],
        b"conn 1\nok 1\ncommit 1\n",
        Finding::NotPaired,
    ),
];

const UNCUT: [(&[(u32, &[u8])], &[u8], Finding); 14] = [
    // an ending is missing: of a statement of its own, of COMMIT, and at the script's end
    (&[(0, b"s")], b"conn 0\nok 1\n", Finding::NotCut),
    (&[(0, b"bc")], b"conn 0\nok 0\nok 0\n", Finding::NotCut),
    (&[(0, b"bs")], b"conn 0\nok 0\nok 1\n", Finding::NotCut),
    (&[(0, b"bs")], b"conn 0\nok 0\nerror 7\n", Finding::NotCut),
    // one is where none may be
    (
        &[(0, b"bsc")],
        b"conn 0\nok 0\nok 1\ncommit 1\nok 0\nsnapshot 0\n",
        Finding::NotCut,
    ),
    (
        &[(0, b"c")],
        b"conn 0\nerror 1 no transaction\nrolled back 0\n",
        Finding::NotCut,
    ),
    // one is of another form
    (
        &[(0, b"bsc")],
        b"conn 0\nok 0\nok 1\nok 0\nrolled back 0\n",
        Finding::NotCut,
    ),
    (
        &[(0, b"bsr")],
        b"conn 0\nok 0\nok 1\nok 0\nsnapshot 0\n",
        Finding::NotCut,
    ),
    (
        &[(0, b"s")],
        b"conn 0\nerror 1 no table 't'\nsnapshot 0\n",
        Finding::NotCut,
    ),
    (
        &[(0, b"bsc")],
        b"conn 0\nok 0\nok 1\nerror 1 no transaction\nrolled back 0\n",
        Finding::NotCut,
    ),
    (
        &[(0, b"bs")],
        b"conn 0\nok 0\nok 1\ncommit 1\n",
        Finding::NotCut,
    ),
    // a command in no transaction has another answer
    (&[(0, b"c")], b"conn 0\nok 0\n", Finding::NotCut),
    (
        &[(0, b"f")],
        b"conn 0\nerror 1 syntax at 5\n",
        Finding::NotCut,
    ),
    (
        &[(0, b"f")],
        b"conn 0\nerror 1 no transaction\n",
        Finding::NotCut,
    ),
];

#[test]
fn runs_are_cut(rt: HostRuntime) {
    are_found(&rt, rt.alloc(), &RUNS);
}

#[test]
fn a_seven_is_left_out_or_ends(rt: HostRuntime) {
    are_found(&rt, rt.alloc(), &SEVENS);
}

#[test]
fn commands_outside_are_in_no_transaction(rt: HostRuntime) {
    are_found(&rt, rt.alloc(), &OUTSIDE);
}

#[test]
fn transcripts_are_not_those_of_the_scripts(rt: HostRuntime) {
    are_found(&rt, rt.alloc(), &UNPAIRED);
}

#[test]
fn endings_are_not_in_their_places(rt: HostRuntime) {
    are_found(&rt, rt.alloc(), &UNCUT);
}
