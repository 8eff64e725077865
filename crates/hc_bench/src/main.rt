//! Times the read log: 100,000 ranges added in ascending order, 10,000 added in scattered order, and a
//! look-up of 200,000 keys in each log; then commits through a desk, and one transaction's reads, writes and savepoints. The
//! counts go to standard output, the times to standard error.
#![tactic(auto)]

ghost use Rattle.std.specs.Prelude.{◌<◌, ◌≤◌, IfSome};

mod machine;
mod transaction;
mod workload;

use crate::machine::{ascending_writes, commit_keys, lowest_keys, read_cells};
use crate::transaction::{Order, read_keys, set_marks, write_keys};
use crate::workload::{ascending, count_covered, scattered};
use hc_core::{Core, ListDesk};
use hc_range::{ReadLog, contains};
use hc_test_desks::{may_be_reserved, open, put_all};
use hc_txn::Txn;
use std::time::{Duration, Instant};
use std::{env, io};

fn main(rt: HostRuntime) -> io::Result<()> {
    if let Some(writes) = writes_alone(&rt) {
        time_writes(&rt, writes, Order::Scattered)?;
        return Ok(());
    }
    if let Some(keys) = keys_alone(&rt) {
        return commit_alone(&rt, keys);
    }
    let start = Instant::now(&rt)?;
    let log = ascending(rt.alloc())?;
    report(
        &rt,
        "added in ascending order",
        log.ranges().len(),
        start.elapsed(&rt)?,
    )?;
    look_up(&rt, &log)?;
    let start = Instant::now(&rt)?;
    let log = scattered(rt.alloc())?;
    report(
        &rt,
        "added in scattered order",
        log.ranges().len(),
        start.elapsed(&rt)?,
    )?;
    look_up(&rt, &log)?;
    let few = time_commits(&rt, FEW_KEYS)?;
    let many = time_commits(&rt, many_keys(&rt))?;
    report_ratio(
        &rt,
        "a commit of one key among many",
        few.commits,
        many.commits,
    )?;
    report_ratio(
        &rt,
        "a read of about 1,000 cells among many keys",
        few.read,
        many.read,
    )?;
    let few = time_puts(&rt, FEW_WRITES)?;
    let writes = many_keys(&rt) / 2;
    let many = time_puts(&rt, writes)?;
    let of_one = few.checked_div(u128::from(FEW_WRITES)).unwrap_or(0);
    let of_many = many.checked_div(u128::from(writes)).unwrap_or(0);
    report_ratio(&rt, "a put among many writes", of_one, of_many)?;
    time_transactions(&rt, writes)
}

// Times scattered reads and writes of one transaction against ascending ones, and savepoints among many writes.
fn time_transactions(rt: &HostRuntime, count: u32) -> io::Result<()> {
    let ascending = time_reads(rt, count, Order::Ascending)?;
    let scattered = time_reads(rt, count, Order::Scattered)?;
    report_order(rt, "reads", ascending, scattered)?;
    let few = time_writes(rt, FEW_MARKED, Order::Ascending)?;
    let ascending = time_writes(rt, count, Order::Ascending)?;
    let scattered = time_writes(rt, count, Order::Scattered)?;
    report_order(rt, "writes", ascending.writes, scattered.writes)?;
    report_ratio(
        rt,
        "1,000 savepoints among many writes",
        few.marks,
        scattered.marks,
    )
}

fn report_order(rt: &HostRuntime, what: &str, ascending: u128, scattered: u128) -> io::Result<()> {
    let hundredths = scattered
        .saturating_mul(100)
        .checked_div(ascending)
        .unwrap_or(0);
    eprintln!(rt; "scattered {what} in a transaction: {hundredths} hundredths of ascending ones")
}

const FEW_MARKED: u32 = 50;

const MARKS: u32 = 1_000;

// Times point reads of one transaction, in nanoseconds.
fn time_reads(rt: &HostRuntime, count: u32, order: Order) -> io::Result<u128> {
    let alloc = rt.alloc();
    let mut core = Core::new(alloc, 1)?;
    if !core.takes_desk(0) {
        return Ok(0);
    }
    let mut desk = ListDesk {
        core: &mut core,
        conn: 0,
    };
    let mut txn = Txn::begin(alloc, &mut desk);
    let start = Instant::now(rt)?;
    let none = read_keys(&mut desk, alloc, &mut txn, count, order)?;
    let time = start.elapsed(rt)?;
    println!(rt; "{none} keys read that have no record")?;
    Ok(time.as_nanos())
}

// What is timed in a transaction, in nanoseconds.
#[derive(Clone, Copy)]
struct Written {
    // Its writes.
    writes: u128,
    // 1,000 savepoints after them.
    marks: u128,
}

fn time_writes(rt: &HostRuntime, count: u32, order: Order) -> io::Result<Written> {
    let alloc = rt.alloc();
    let mut core = Core::new(alloc, 1)?;
    if !core.takes_desk(0) {
        return Ok(Written {
            writes: 0,
            marks: 0,
        });
    }
    let mut desk = ListDesk {
        core: &mut core,
        conn: 0,
    };
    let mut txn = Txn::begin(alloc, &mut desk);
    let start = Instant::now(rt)?;
    write_keys(&mut desk, alloc, &mut txn, count, order)?;
    let writes = start.elapsed(rt)?.as_nanos();
    println!(rt; "{count} keys written")?;
    let start = Instant::now(rt)?;
    let marks = set_marks(&mut txn, MARKS)?;
    let time = start.elapsed(rt)?;
    println!(rt; "{marks} savepoints set")?;
    Ok(Written {
        writes,
        marks: time.as_nanos(),
    })
}

// A time in hundredths of another one.
fn report_ratio(rt: &HostRuntime, what: &str, few: u128, many: u128) -> io::Result<()> {
    let hundredths = many.saturating_mul(100).checked_div(few).unwrap_or(0);
    eprintln!(rt; "{what}: {hundredths} hundredths of one among few")
}

const FEW_KEYS: u32 = 1_000;

const FEW_WRITES: u32 = 500;

const MORE_COMMITS: u32 = 1_000;

// What is timed where some number of keys is there, in nanoseconds.
#[derive(Clone, Copy)]
struct Times {
    // Further commits of one key.
    commits: u128,
    // A read of about 1,000 cells.
    read: u128,
}

const NO_TIMES: Times = Times {
    commits: 0,
    read: 0,
};

// How many keys one transaction writes, and nothing else is done: 1,000 where there are four arguments, and 100,000 where there
// are five.
fn writes_alone(rt: &HostRuntime) -> Option<u32> {
    match env::args(rt) {
        Ok(words) if words.len() > 5 => Some(100_000),
        Ok(words) if words.len() > 4 => Some(1_000),
        _ => None,
    }
}

// How many keys are committed and nothing else: 1,000 where there are two arguments, and 100,000 where there are three.
fn keys_alone(rt: &HostRuntime) -> Option<u32>
    ensures { IfSome result (λ keys. keys ≤ 100000) }
{
    match env::args(rt) {
        Ok(words) if words.len() > 3 => Some(100_000),
        Ok(words) if words.len() > 2 => Some(FEW_KEYS),
        _ => None,
    }
}

fn commit_alone(rt: &HostRuntime, keys: u32) -> io::Result<()>
    requires { keys ≤ 100000 }
{
    let alloc = rt.alloc();
    let mut core = Core::new(alloc, 1)?;
    if !core.takes_desk(0) {
        return Ok(());
    }
    let mut desk = ListDesk {
        core: &mut core,
        conn: 0,
    };
    let Some(sum) = commit_keys(&mut desk, alloc, 0, keys) else {
        return Ok(());
    };
    println!(rt; "{sum} is the sum of {keys} commit numbers")
}

// The whole size where there is an argument.
fn many_keys(rt: &HostRuntime) -> u32
    ensures { (0 < result) × (result ≤ 100000) }
{
    match env::args(rt) {
        Ok(words) if words.len() > 1 => 100_000,
        _ => 5_000,
    }
}

// Commits one key each in some number of transactions, and then times a read and further commits.
fn time_commits(rt: &HostRuntime, keys: u32) -> io::Result<Times>
    requires { (0 < keys) × (keys ≤ 100000) }
{
    let alloc = rt.alloc();
    let mut core = Core::new(alloc, 1)?;
    if !core.takes_desk(0) {
        return Ok(NO_TIMES);
    }
    let mut desk = ListDesk {
        core: &mut core,
        conn: 0,
    };
    let start = Instant::now(rt)?;
    let Some(sum) = commit_keys(&mut desk, alloc, 0, keys) else {
        return Ok(NO_TIMES);
    };
    let time = start.elapsed(rt)?;
    println!(rt; "{sum} is the sum of {keys} commit numbers")?;
    let millis = time.as_millis();
    eprintln!(rt; "{keys} commits of one key: {millis} ms")?;
    let range = lowest_keys(alloc, keys)?;
    if !contains(&range, range.lo.as_slice()) {
        return Ok(NO_TIMES);
    }
    // The first read goes over all that was committed before it.
    let start = Instant::now(rt)?;
    let Some(_cells) = read_cells(&mut desk, alloc, &range) else {
        return Ok(NO_TIMES);
    };
    let millis = start.elapsed(rt)?.as_millis();
    eprintln!(rt; "the first read after them: {millis} ms")?;
    let start = Instant::now(rt)?;
    let Some(cells) = read_cells(&mut desk, alloc, &range) else {
        return Ok(NO_TIMES);
    };
    let read = start.elapsed(rt)?.as_nanos();
    println!(rt; "{cells} cells read among {keys} keys")?;
    let start = Instant::now(rt)?;
    let Some(sum) = commit_keys(&mut desk, alloc, keys, MORE_COMMITS) else {
        return Ok(NO_TIMES);
    };
    let commits = start.elapsed(rt)?.as_nanos();
    println!(rt; "{sum} is the sum of the next {MORE_COMMITS}")?;
    Ok(Times { commits, read })
}

// Times the puts of one transaction, the last key first, in nanoseconds.
fn time_puts(rt: &HostRuntime, count: u32) -> io::Result<u128> {
    let alloc = rt.alloc();
    let mut core = Core::new(alloc, 1)?;
    let writes = ascending_writes(alloc, count)?;
    if !core.takes_desk(0) || !may_be_reserved(writes.as_slice()) {
        return Ok(0);
    }
    let mut desk = ListDesk {
        core: &mut core,
        conn: 0,
    };
    if open(&mut desk, alloc, 1, writes.as_slice()).is_err() {
        return Ok(0);
    }
    let start = Instant::now(rt)?;
    if put_all(&mut desk, writes.as_slice()).is_err() {
        return Ok(0);
    }
    let time = start.elapsed(rt)?;
    println!(rt; "{count} writes put")?;
    Ok(time.as_nanos())
}

// Looks up the same keys in each log: of the ascending ranges each holds one, and the next is after it.
fn look_up(rt: &HostRuntime, log: &ReadLog) -> io::Result<()> {
    let start = Instant::now(rt)?;
    let covered = count_covered(log);
    report(rt, "keys found covered", covered, start.elapsed(rt)?)
}

fn report(rt: &HostRuntime, what: &str, count: usize, time: Duration) -> io::Result<()> {
    println!(rt; "{count} {what}")?;
    let millis = time.as_millis();
    eprintln!(rt; "{count} {what}: {millis} ms")
}
