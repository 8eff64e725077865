//! One connection's transactions, call by call, over any desk. Keys and records are written as numbers in hexadecimal.
ghost use Rattle.std.specs.Prelude.{◌≡◌, ◌+◌, ◌<◌, ◌≤◌, Some, IfOk};
ghost use Rattle.hc_core.specs.Account.{IsIdle, txns};
ghost use Rattle.hc_core.specs.Desk.{GoesOn};
ghost use Rattle.hc_core.specs.Running.{greatest_ord};
ghost use Rattle.hc_txn.specs.Transactions.{IsOf};
ghost use Rattle.hc_txn_tests.specs.Lanes.{IsLane, KeepsReads};

use hc_commit::{CommitFault, commit, rollback};
use hc_core::{Desk, Part};
use hc_range::{Bytes, NoMemory, Range};
use hc_transcript::Ending;
use hc_txn::{Txn, WriteFault};
use sqlite_items::Items;
use std::alloc::{AllocError, Global};

/// A call of a transaction.
#[derive(Debug, Clone, Copy)]
pub enum Do {
    Begin,
    Get(u32),
    // From a key up to another; an upper end of 0 means that there is none.
    Range(u32, u32),
    // The last cell, from a key up to another.
    Last(u32, u32),
    // A record of 0 is a tombstone.
    Write(u32, u32),
    // A key and a record of these lengths, each byte of them 61.
    WriteLong(usize, usize),
    // From a key of some length up to one of another, each byte of them 61; an upper end of length 0 means that there is none.
    RangeLong(usize, usize),
    Start,
    Keep,
    Undo,
    Mark(&'static str),
    UndoTo(&'static str),
    Release(&'static str),
    Commit,
    Rollback,
}

fn bytes(alloc: Global, number: u32) -> Result<Bytes, NoMemory> {
    let zeros = match number {
        0..=0xff => 3,
        0x100..=0xffff => 2,
        0x1_0000..=0xff_ffff => 1,
        _ => 0,
    };
    Bytes::from_slice(alloc, &number.to_be_bytes()[zeros..])
}

fn end(alloc: Global, end: u32) -> Result<Option<Bytes>, NoMemory> {
    match end {
        0 => Ok(None),
        end => Ok(Some(bytes(alloc, end)?)),
    }
}

fn push_bytes(alloc: Global, text: &mut String, bytes: &[u8]) -> Result<(), NoMemory> {
    for byte in bytes {
        text.push_str(format!(in alloc; "{byte:02x}")?.as_str())?;
    }
    Ok(())
}

fn begin<D: Desk>(alloc: Global, desk: &mut D) -> Txn
    requires idle { IsIdle (txns (D.account desk.old)) }
    ensures of { IsOf (D.account desk.new) result }
    ensures ords { greatest_ord (txns (D.account desk.new)) ≡ greatest_ord (txns (D.account desk.old)) }
    ensures on { GoesOn D.conn D.most D.seen D.later desk.old desk.new }
{
    Txn::begin(alloc, desk)
}

fn get<D: Desk>(alloc: Global, desk: &mut D, txn: &mut Txn, key: u32) -> Result<String, NoMemory>
    requires of { IsOf (D.account desk.old) txn.old }
    ensures of { IsOf (D.account desk.new) txn.new }
    ensures ords { greatest_ord (txns (D.account desk.new)) ≡ greatest_ord (txns (D.account desk.old)) }
    ensures on { GoesOn D.conn D.most D.seen D.later desk.old desk.new }
{
    let key = bytes(alloc, key)?;
    let found = txn.get(desk, key.as_slice())?;
    found_text(alloc, found)
}

fn found_text(alloc: Global, found: Option<Bytes>) -> Result<String, NoMemory> {
    let mut text = String::new(alloc);
    match found {
        Some(rec) => push_bytes(alloc, &mut text, rec.as_slice())?,
        None => text.push_str("none")?,
    }
    Ok(text)
}

fn long(alloc: Global, len: usize) -> Result<Bytes, NoMemory> {
    let mut bytes = Vec::new(alloc);
    for _ in 0..len {
        bytes.push(0x61)?;
    }
    Ok(Bytes::from_vec(bytes))
}

fn long_end(alloc: Global, len: usize) -> Result<Option<Bytes>, NoMemory> {
    match len {
        0 => Ok(None),
        len => Ok(Some(long(alloc, len)?)),
    }
}

fn range<D: Desk>(
    alloc: Global,
    desk: &mut D,
    txn: &mut Txn,
    lo: Bytes,
    hi: Option<Bytes>,
) -> Result<String, NoMemory>
    requires of { IsOf (D.account desk.old) txn.old }
    ensures of { IsOf (D.account desk.new) txn.new }
    ensures ords { greatest_ord (txns (D.account desk.new)) ≡ greatest_ord (txns (D.account desk.old)) }
    ensures on { GoesOn D.conn D.most D.seen D.later desk.old desk.new }
{
    let range = Range { lo, hi };
    let mut part = Part {
        cells: Items::new(alloc),
    };
    txn.read_range(desk, &range, &mut part)?;
    cells_text(alloc, &part)
}

fn last<D: Desk>(
    alloc: Global,
    desk: &mut D,
    txn: &mut Txn,
    from: u32,
    upto: u32,
) -> Result<String, NoMemory>
    requires of { IsOf (D.account desk.old) txn.old }
    ensures of { IsOf (D.account desk.new) txn.new }
    ensures ords { greatest_ord (txns (D.account desk.new)) ≡ greatest_ord (txns (D.account desk.old)) }
    ensures on { GoesOn D.conn D.most D.seen D.later desk.old desk.new }
{
    let range = Range {
        lo: bytes(alloc, from)?,
        hi: end(alloc, upto)?,
    };
    let mut part = Part {
        cells: Items::new(alloc),
    };
    let some = txn.last(desk, &range, &mut part)?;
    last_text(alloc, some, &part)
}

fn last_text(alloc: Global, some: bool, part: &Part) -> Result<String, NoMemory> {
    if some {
        cells_text(alloc, part)
    } else {
        format!(in alloc; "no cell")
    }
}

fn cells_text(alloc: Global, part: &Part) -> Result<String, NoMemory> {
    let mut text = format!(in alloc; "cells")?;
    for cell in part.cells.as_slice() {
        text.push_str(" ")?;
        push_bytes(alloc, &mut text, cell.key.as_slice())?;
        text.push_str("=")?;
        push_bytes(alloc, &mut text, cell.rec.as_slice())?;
    }
    Ok(text)
}

fn lent(bytes: &Option<Bytes>) -> Option<&[u8]> {
    match bytes {
        Some(bytes) => Some(bytes.as_slice()),
        None => None,
    }
}

fn write<D: Desk>(
    alloc: Global,
    desk: &mut D,
    txn: &mut Txn,
    key: Bytes,
    rec: Option<Bytes>,
) -> Result<String, NoMemory>
    requires of { IsOf (D.account desk.old) txn.old }
    ensures of { IsOf (D.account desk.new) txn.new }
    ensures ords { greatest_ord (txns (D.account desk.new)) ≡ greatest_ord (txns (D.account desk.old)) }
    ensures on { GoesOn D.conn D.most D.seen D.later desk.old desk.new }
{
    match txn.write(desk, key.as_slice(), lent(&rec)) {
        Ok(()) => format!(in alloc; "written"),
        Err(WriteFault::TooBig(size)) => format!(in alloc; "too big {size}"),
        Err(WriteFault::NoMemory) => Err(AllocError),
    }
}

fn undo_to(alloc: Global, txn: &mut Txn, name: &str) -> Result<String, NoMemory>
    ensures { KeepsReads txn.old txn.new }
{
    match txn.undo_to(name) {
        Ok(()) => format!(in alloc; "undone"),
        Err(fault) => format!(in alloc; "{fault}"),
    }
}

fn release(alloc: Global, txn: &mut Txn, name: &str) -> Result<String, NoMemory>
    ensures { KeepsReads txn.old txn.new }
{
    match txn.release(name) {
        Ok(()) => format!(in alloc; "released"),
        Err(fault) => format!(in alloc; "{fault}"),
    }
}

fn mark(alloc: Global, txn: &mut Txn, name: &str) -> Result<String, NoMemory>
    ensures { KeepsReads txn.old txn.new }
{
    txn.mark(name)?;
    format!(in alloc; "marked")
}

fn statement(alloc: Global, txn: &mut Txn, what: Do) -> Result<String, NoMemory>
    ensures { KeepsReads txn.old txn.new }
{
    match what {
        Do::Start => txn.start_statement(),
        Do::Keep => txn.keep_statement()?,
        _ => txn.undo_statement(),
    }
    format!(in alloc; "done")
}

// A call that asks no desk.
fn alone(alloc: Global, txn: &mut Txn, what: Do) -> Result<String, NoMemory>
    ensures { KeepsReads txn.old txn.new }
{
    match what {
        Do::Mark(name) => mark(alloc, txn, name),
        Do::UndoTo(name) => undo_to(alloc, txn, name),
        Do::Release(name) => release(alloc, txn, name),
        what => statement(alloc, txn, what),
    }
}

// A call of an open transaction that leaves it open.
fn within<D: Desk>(alloc: Global, desk: &mut D, txn: &mut Txn, what: Do) -> Result<String, NoMemory>
    requires of { IsOf (D.account desk.old) txn.old }
    ensures of { IsOf (D.account desk.new) txn.new }
    ensures ords { greatest_ord (txns (D.account desk.new)) ≡ greatest_ord (txns (D.account desk.old)) }
    ensures on { GoesOn D.conn D.most D.seen D.later desk.old desk.new }
{
    match what {
        Do::Begin => format!(in alloc; "not now"),
        Do::Get(key) => get(alloc, desk, txn, key),
        Do::Range(from, upto) => range(alloc, desk, txn, bytes(alloc, from)?, end(alloc, upto)?),
        Do::RangeLong(from, upto) => {
            range(alloc, desk, txn, long(alloc, from)?, long_end(alloc, upto)?)
        }
        Do::Last(from, upto) => last(alloc, desk, txn, from, upto),
        Do::Write(key, rec) => write(alloc, desk, txn, bytes(alloc, key)?, end(alloc, rec)?),
        Do::WriteLong(key, rec) => {
            write(alloc, desk, txn, long(alloc, key)?, Some(long(alloc, rec)?))
        }
        what => alone(alloc, txn, what),
    }
}

fn ending_text(alloc: Global, ending: Ending) -> Result<String, NoMemory> {
    match ending {
        Ending::Commit(number) => format!(in alloc; "commit {number}"),
        Ending::Snapshot(number) => format!(in alloc; "snapshot {number}"),
        Ending::RolledBack(number) => format!(in alloc; "rolled back {number}"),
    }
}

fn fault_text(alloc: Global, fault: CommitFault, ending: Ending) -> Result<String, NoMemory> {
    let mut text = match fault {
        CommitFault::Met(met) => {
            let mut text = format!(in alloc; "met conn {} ord {} key ", met.conn, met.ord)?;
            push_bytes(alloc, &mut text, met.key.as_slice())?;
            text
        }
        fault => format!(in alloc; "{fault}")?,
    };
    text.push_str(", ")?;
    text.push_str(ending_text(alloc, ending)?.as_str())?;
    Ok(text)
}

fn commit_text<D: Desk>(alloc: Global, desk: &mut D, txn: Txn, ord: u32) -> Result<String, NoMemory>
    requires of { IsOf (D.account desk.old) txn }
    requires ord { (greatest_ord (txns (D.account desk.old)) < ord) × (ord ≤ 131071) }
    ensures ended { IsIdle (txns (D.account desk.new)) }
    ensures ords { greatest_ord (txns (D.account desk.new)) ≤ ord }
    ensures on { GoesOn D.conn D.most D.seen D.later desk.old desk.new }
{
    match commit(txn, desk, ord) {
        Ok(ending) => ending_text(alloc, ending),
        Err((fault, ending)) => fault_text(alloc, fault, ending),
    }
}

fn rollback_text<D: Desk>(alloc: Global, desk: &mut D, txn: Txn) -> Result<String, NoMemory>
    requires of { IsOf (D.account desk.old) txn }
    ensures ended { IsIdle (txns (D.account desk.new)) }
    ensures ords { greatest_ord (txns (D.account desk.new)) ≡ greatest_ord (txns (D.account desk.old)) }
    ensures on { GoesOn D.conn D.most D.seen D.later desk.old desk.new }
{
    let ending = rollback(txn, desk);
    ending_text(alloc, ending)
}

/// Makes a call, and answers the transaction that is open then, with the answer as text.
pub fn step<D: Desk>(
    alloc: Global,
    desk: &mut D,
    current: Option<Txn>,
    ord: u32,
    what: Do,
) -> Result<(Option<Txn>, String), NoMemory>
    requires lane { IsLane (D.account desk.old) current ord }
    requires ord { ord ≤ 131071 }
    ensures lane { IfOk result (λ r. IsLane (D.account desk.new) r.0 (ord + 1)) }
    ensures on { GoesOn D.conn D.most D.seen D.later desk.old desk.new }
{
    match current {
        None => match what {
            Do::Begin => {
                let txn = begin(alloc, desk);
                let text = format!(in alloc; "began {}", txn.snapshot().0)?;
                Ok((Some(txn), text))
            }
            _ => Ok((None, format!(in alloc; "not now")?)),
        },
        Some(mut txn) => match what {
            Do::Commit => Ok((None, commit_text(alloc, desk, txn, ord)?)),
            Do::Rollback => Ok((None, rollback_text(alloc, desk, txn)?)),
            what => {
                let text = within(alloc, desk, &mut txn, what)?;
                Ok((Some(txn), text))
            }
        },
    }
}
