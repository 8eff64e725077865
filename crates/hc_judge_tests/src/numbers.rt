// What the printed numbers say: whether there is a history, and whether they are in order. The outputs were written out by
// hand from the rules for numbers. What a statement means makes no difference here.
ghost use Rattle.hc_verdict.specs.Histories.{DifferByName};

use crate::front::scripts;
use hc_judge::{Front, Shown};
use hc_reply::read;
use hc_value::NoMemory;
use hc_verdict::{find_history, find_named, is_in_order};
use std::alloc::Global;
use std::process::Abort;
use std::test::Fail;

#[derive(Clone, Copy, Debug, PartialEq, Eq)]
enum Finding {
    /// The numbers are in order, and so many commits are in the history.
    InOrder(usize),
    /// The commit numbers are not 1 to n, each once.
    NoHistory,
    /// There is a history, and the numbers are not in order.
    OutOfOrder,
    /// The text is no output, or no transactions are found.
    NotFound,
}

fn numbers(alloc: Global, all: &[(u32, &[u8])], output: &[u8]) -> Result<Finding, NoMemory> {
    let scripts = scripts(alloc, all)?;
    let Ok(transcripts) = read(alloc, output) else {
        return Ok(Finding::NotFound);
    };
    match find_named(alloc, scripts.as_slice(), transcripts.as_slice())? {
        Front::Transactions(transactions) => told(alloc, transactions.as_slice()),
        Front::NotPaired | Front::NotCut => Ok(Finding::NotFound),
    }
}

fn told(alloc: Global, transactions: &[Shown<'_>]) -> Result<Finding, NoMemory>
    requires { DifferByName transactions.now }
{
    let Some(history) = find_history(alloc, transactions)? else {
        return Ok(Finding::NoHistory);
    };
    if is_in_order(transactions, history.as_slice()) {
        Ok(Finding::InOrder(history.len()))
    } else {
        Ok(Finding::OutOfOrder)
    }
}

fn are_told(rt: &impl Abort, alloc: Global, cases: &[(&[(u32, &[u8])], &[u8], Finding)]) {
    for case in cases {
        assert_eq!(rt; numbers(alloc, case.0, case.1), Ok(case.2), "{:?}", case.1);
    }
}

const SETUP: (u32, &[u8]) = (0, b"s");

const IN_ORDER: [(&[(u32, &[u8])], &[u8], Finding); 5] = [
    (&[], b"", Finding::InOrder(0)),
    (
        &[SETUP, (1, b"s"), (2, b"s")],
        b"conn 0\nok 1\ncommit 1\nconn 1\nok 1\ncommit 3\nconn 2\nok 1\ncommit 2\n",
        Finding::InOrder(3),
    ),
    // reads before, between and after the commits, which see no fewer than the setup's
    (
        &[SETUP, (1, b"sss"), (2, b"ss")],
        b"conn 0\nok 1\ncommit 1\nconn 1\nok 0\nsnapshot 1\nok 1\ncommit 2\nok 0\nsnapshot 3\n\
        conn 2\nok 1\ncommit 3\nok 0\nsnapshot 3\n",
        Finding::InOrder(3),
    ),
    // a commit that was refused, and one more
    (
        &[SETUP, (1, b"s"), (2, b"ss")],
        b"conn 0\nok 1\ncommit 1\nconn 1\nok 1\ncommit 2\n\
        conn 2\nerror 517 conn 1 txn 1 key X'01'\nrolled back 1\nok 1\ncommit 3\n",
        Finding::InOrder(3),
    ),
    // no setup
    (
        &[(3, b"s"), (4, b"s")],
        b"conn 3\nok 1\ncommit 2\nconn 4\nok 1\ncommit 1\n",
        Finding::InOrder(2),
    ),
];

const NO_HISTORY: [(&[(u32, &[u8])], &[u8], Finding); 5] = [
    // 0, a number that is left out, two of one number, in one connection too, and one too great
    (&[SETUP], b"conn 0\nok 1\ncommit 0\n", Finding::NoHistory),
    (
        &[SETUP, (1, b"s")],
        b"conn 0\nok 1\ncommit 1\nconn 1\nok 1\ncommit 3\n",
        Finding::NoHistory,
    ),
    (
        &[SETUP, (1, b"s")],
        b"conn 0\nok 1\ncommit 1\nconn 1\nok 1\ncommit 1\n",
        Finding::NoHistory,
    ),
    (
        &[(0, b"ss")],
        b"conn 0\nok 1\ncommit 1\nok 1\ncommit 1\n",
        Finding::NoHistory,
    ),
    (
        &[SETUP],
        b"conn 0\nok 1\ncommit 4294967295\n",
        Finding::NoHistory,
    ),
];

const OUT_OF_ORDER: [(&[(u32, &[u8])], &[u8], Finding); 7] = [
    // a commit number falls
    (
        &[SETUP, (1, b"ss")],
        b"conn 0\nok 1\ncommit 1\nconn 1\nok 1\ncommit 3\nok 1\ncommit 2\n",
        Finding::OutOfOrder,
    ),
    // a snapshot's number falls, after a commit, after a snapshot and after what was rolled back
    (
        &[SETUP, (1, b"ss")],
        b"conn 0\nok 1\ncommit 1\nconn 1\nok 1\ncommit 2\nok 0\nsnapshot 1\n",
        Finding::OutOfOrder,
    ),
    (
        &[SETUP, (1, b"s"), (2, b"ss")],
        b"conn 0\nok 1\ncommit 1\nconn 1\nok 1\ncommit 2\nconn 2\nok 0\nsnapshot 2\nok 0\nsnapshot 1\n",
        Finding::OutOfOrder,
    ),
    (
        &[SETUP, (1, b"s"), (2, b"ss")],
        b"conn 0\nok 1\ncommit 1\nconn 1\nok 1\ncommit 2\n\
        conn 2\nerror 7\nrolled back 2\nok 0\nsnapshot 1\n",
        Finding::OutOfOrder,
    ),
    // a commit number is not above an earlier snapshot
    (
        &[SETUP, (1, b"s"), (2, b"ss")],
        b"conn 0\nok 1\ncommit 1\nconn 1\nok 1\ncommit 3\nconn 2\nok 0\nsnapshot 2\nok 1\ncommit 2\n",
        Finding::OutOfOrder,
    ),
    // the setup's commit is not the first
    (
        &[SETUP, (1, b"s")],
        b"conn 0\nok 1\ncommit 2\nconn 1\nok 1\ncommit 1\n",
        Finding::OutOfOrder,
    ),
    // another connection does not count it
    (
        &[SETUP, (1, b"s")],
        b"conn 0\nok 1\ncommit 1\nconn 1\nok 0\nsnapshot 0\n",
        Finding::OutOfOrder,
    ),
];

#[test]
fn numbers_are_in_order(rt: HostRuntime) {
    are_told(&rt, rt.alloc(), &IN_ORDER);
}

#[test]
fn commit_numbers_have_no_history(rt: HostRuntime) {
    are_told(&rt, rt.alloc(), &NO_HISTORY);
}

#[test]
fn numbers_are_not_in_order(rt: HostRuntime) {
    are_told(&rt, rt.alloc(), &OUT_OF_ORDER);
}
