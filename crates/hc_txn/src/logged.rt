// A range is read and logged: memory for the log is taken before the desk is asked, and what was read is logged then
// without memory.
ghost use Rattle.std.specs.Prelude.{◌≡◌, ◌++◌, ℕ, List, ◌⊎◌, ◌↔◌, IfOk, OnOk};
ghost use Rattle.hc_range.specs.Ranges.{InAny, InRange};
ghost use Rattle.hc_core.specs.Desk.{GoesOn, IsReading};
ghost use Rattle.hc_core.specs.declared.cells.Cell.{Cell};
ghost use Rattle.hc_txn.specs.Reading.{HasLogged, HasReadAll, IsFoundAt, IsReadSoFar, only};
ghost use Rattle.hc_txn.specs.Stores.{Store, HasExactly};
ghost use Rattle.hc_txn.specs.Transactions.{LogsKeyToo, LogsRangeToo};

use crate::reading::{HowFar, read_range};
use hc_core::{Cell, Desk, Part};
use hc_range::{Bytes, NoMemory, Range, contains};
use hc_reads::{Prepared, Reads};
use sqlite_items::Items;
use std::alloc::{AllocError, Global};

// The log that covers what was read too.
fn united(prepared: Prepared, how_far: &HowFar) -> Reads
    ensures { (key : List ℕ) → InAny result key ↔ (InAny prepared.log key ⊎ IsReadSoFar prepared.range how_far.now key) }
{
    match how_far {
        HowFar::Whole => prepared.unite(),
        HowFar::Upto(key) => prepared.unite_below(key.as_slice()),
        HowFar::Nothing => prepared.cancel(),
    }
}

// Reads a range with a log that has room for it.
fn read_prepared<D: Desk>(
    prepared: Prepared,
    alloc: Global,
    desk: &mut D,
    range: &Range,
    out: &mut Part,
) -> (Reads, Result<(), NoMemory>)
    requires reading { IsReading (D.account desk.old) }
    requires some { InRange range.now range.now.lo }
    requires prepared { prepared.range ≡ range.now }
    ensures read { OnOk result.1 (HasReadAll (D.conn desk.old) range.now (D.account desk.old) (D.account desk.new) out.old.cells out.new.cells) }
    ensures logged { HasLogged (D.conn desk.old) range.now (D.account desk.old) (D.account desk.new) prepared.log result.0 }
    ensures whole { OnOk result.1 (LogsRangeToo range.now prepared.log result.0) }
    ensures out { (more : List Cell) × (out.new.cells ≡ out.old.cells ++ more) }
    ensures on { GoesOn D.conn D.most D.seen D.later desk.old desk.new }
{
    let how_far = read_range(desk, alloc, range, out);
    let log = united(prepared, &how_far);
    match &how_far {
        HowFar::Whole => (log, Ok(())),
        _ => (log, Err(AllocError)),
    }
}

/// Reads a range, adds its cells to `out`, and logs what was read, which without memory may be a part of it.
pub fn read_logged<D: Desk>(
    log: &mut Reads,
    alloc: Global,
    desk: &mut D,
    range: &Range,
    out: &mut Part,
) -> Result<(), NoMemory>
    requires reading { IsReading (D.account desk.old) }
    ensures read { OnOk result (HasReadAll (D.conn desk.old) range.now (D.account desk.old) (D.account desk.new) out.old.cells out.new.cells) }
    ensures logged { HasLogged (D.conn desk.old) range.now (D.account desk.old) (D.account desk.new) log.old log.new }
    ensures whole { OnOk result (LogsRangeToo range.now log.old log.new) }
    ensures out { (more : List Cell) × (out.new.cells ≡ out.old.cells ++ more) }
    ensures on { GoesOn D.conn D.most D.seen D.later desk.old desk.new }
{
    if !contains(range, range.lo.as_slice()) {
        return Ok(());
    }
    let taken = std::mem::replace(log, Reads::new(alloc));
    match taken.prepare(range) {
        Ok(prepared) => {
            let (after, done) = read_prepared(prepared, alloc, desk, range, out);
            *log = after;
            done
        }
        Err(before) => {
            *log = before;
            Err(AllocError)
        }
    }
}

// The range of one key.
fn only(alloc: Global, key: &[u8]) -> Result<Range, NoMemory>
    ensures { IfOk result (λ range. range ≡ only key.now) }
{
    let lo = Bytes::from_slice(alloc, key)?;
    let mut next = Vec::from_slice(alloc, key)?;
    next.push(0)?;
    Ok(Range {
        lo,
        hi: Some(Bytes::from_vec(next)),
    })
}

// The record of the one cell that a range of one key may have.
fn record_in(part: Part, key: &[u8]) -> Option<Bytes>
    ensures { (store : Store) → HasExactly store (only key.now) part.cells → result ≡ store key.now }
{
    let Part { mut cells } = part;
    match cells.pop() {
        Some(cell) => {
            let Cell { key: _key, rec } = cell;
            Some(rec)
        }
        None => None,
    }
}

/// Reads and logs one key: its record, if it has one.
pub fn read_key<D: Desk>(
    log: &mut Reads,
    alloc: Global,
    desk: &mut D,
    key: &[u8],
) -> Result<Option<Bytes>, NoMemory>
    requires reading { IsReading (D.account desk.old) }
    ensures found { IfOk result (λ found. IsFoundAt (D.account desk.new) key.now found) }
    ensures logged { HasLogged (D.conn desk.old) (only key.now) (D.account desk.old) (D.account desk.new) log.old log.new }
    ensures whole { OnOk result (LogsKeyToo key.now log.old log.new) }
    ensures on { GoesOn D.conn D.most D.seen D.later desk.old desk.new }
{
    let range = only(alloc, key)?;
    let mut part = Part {
        cells: Items::new(alloc),
    };
    read_logged(log, alloc, desk, &range, &mut part)?;
    Ok(record_in(part, key))
}
