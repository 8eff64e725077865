// The last cell of a range is read and logged.
ghost use Rattle.std.specs.Prelude.{◌≡◌, ◌<◌, ℕ, get_or, IfOk};
ghost use Rattle.hc_core.specs.Desk.{GoesOn, IsReading};
ghost use Rattle.hc_txn.specs.Lasts.{HasReadDown, HasReadToLast, IsLeft, later_cell, part_from};
ghost use Rattle.hc_txn.specs.Reading.{HasLogged};
ghost use Rattle.hc_txn.specs.Transactions.{LogsRangeToo};

use crate::own::OwnWrites;
use hc_core::{Cell, Desk, Part};
use hc_range::{Bytes, NoMemory, Range, is_below};
use hc_reads::{Prepared, Reads};
use sqlite_items::Items;
use std::alloc::{AllocError, Global};

// Each byte of a slice is below 256.
fn are_bytes(bytes: &[u8])
    ensures { (i : ℕ) → get_or bytes.now i 0 < 256 }
{}

// Reads the last cell of a range with a log that has room for the range.
fn last_prepared<D: Desk>(
    prepared: Prepared,
    alloc: Global,
    desk: &mut D,
    range: &Range,
) -> (Reads, Result<Option<Cell>, NoMemory>)
    requires reading { IsReading (D.account desk.old) }
    requires prepared { prepared.range ≡ range.now }
    ensures last { IfOk result.1 (λ found. HasReadToLast (D.conn desk.old) range.now found (D.account desk.old) (D.account desk.new)) }
    ensures logged { HasLogged (D.conn desk.old) range.now (D.account desk.old) (D.account desk.new) prepared.log result.0 }
    ensures whole { IfOk result.1 (λ found. LogsRangeToo (part_from range.now found) prepared.log result.0) }
    ensures on { GoesOn D.conn D.most D.seen D.later desk.old desk.new }
{
    let mut part = Part {
        cells: Items::new(alloc),
    };
    match desk.last(alloc, range, &mut part) {
        Ok(true) => {
            let Part { mut cells } = part;
            let Some(cell) = cells.pop() else {
                unreachable!();
            };
            are_bytes(cell.key.as_slice());
            let log = prepared.unite_from(cell.key.as_slice());
            (log, Ok(Some(cell)))
        }
        Ok(false) => (prepared.unite(), Ok(None)),
        Err(_) => (prepared.cancel(), Err(AllocError)),
    }
}

// Reads the last cell of a range, if it has one, and logs the part from its key on, or the whole range.
fn read_last<D: Desk>(
    log: &mut Reads,
    alloc: Global,
    desk: &mut D,
    range: &Range,
) -> Result<Option<Cell>, NoMemory>
    requires reading { IsReading (D.account desk.old) }
    ensures last { IfOk result (λ found. HasReadToLast (D.conn desk.old) range.now found (D.account desk.old) (D.account desk.new)) }
    ensures logged { HasLogged (D.conn desk.old) range.now (D.account desk.old) (D.account desk.new) log.old log.new }
    ensures whole { IfOk result (λ found. LogsRangeToo (part_from range.now found) log.old log.new) }
    ensures on { GoesOn D.conn D.most D.seen D.later desk.old desk.new }
{
    let taken = std::mem::replace(log, Reads::new(alloc));
    match taken.prepare(range) {
        Ok(prepared) => {
            let (after, found) = last_prepared(prepared, alloc, desk, range);
            *log = after;
            found
        }
        Err(before) => {
            *log = before;
            Err(AllocError)
        }
    }
}

// The part of a range below a key.
fn part_below(alloc: Global, range: &Range, key: Bytes) -> Result<Range, NoMemory>
    ensures { IfOk result (λ part. part ≡ record { lo = range.now.lo; hi = Some key }) }
{
    Ok(Range {
        lo: Bytes::from_slice(alloc, range.lo.as_slice())?,
        hi: Some(key),
    })
}

/// Reads the last cell of a range that own writes do not clear, if it has one, and logs the part from its key on, or the
/// whole range. Where a cell is cleared it goes on below it.
pub fn read_down<D: Desk>(
    log: &mut Reads,
    own: &OwnWrites,
    alloc: Global,
    desk: &mut D,
    range: &Range,
) -> Result<Option<Cell>, NoMemory>
    requires reading { IsReading (D.account desk.old) }
    ensures last { IfOk result (λ found. HasReadDown (D.conn desk.old) own.now.own range.now found (D.account desk.old) (D.account desk.new)) }
    ensures left { IfOk result (IsLeft own.now.own) }
    ensures logged { HasLogged (D.conn desk.old) range.now (D.account desk.old) (D.account desk.new) log.old log.new }
    ensures whole { IfOk result (λ found. LogsRangeToo (part_from range.now found) log.old log.new) }
    ensures on { GoesOn D.conn D.most D.seen D.later desk.old desk.new }
{
    let mut found = read_last(log, alloc, desk, range)?;
    while let Some(cell) = found {
        if !own.clears(cell.key.as_slice()) {
            return Ok(Some(cell));
        }
        let below = part_below(alloc, range, cell.key)?;
        found = read_last(log, alloc, desk, &below)?;
    }
    Ok(None)
}

/// The part of a range from an own cell's key on, or a copy of the range where there is none.
pub fn part_from(alloc: Global, range: &Range, own: &Option<Cell>) -> Result<Range, NoMemory>
    ensures { IfOk result (λ part. part ≡ part_from range.now own.now) }
{
    let lo = match own {
        Some(cell) => Bytes::from_slice(alloc, cell.key.as_slice())?,
        None => Bytes::from_slice(alloc, range.lo.as_slice())?,
    };
    let hi = match &range.hi {
        Some(hi) => Some(Bytes::from_slice(alloc, hi.as_slice())?),
        None => None,
    };
    Ok(Range { lo, hi })
}

/// Of an own cell and of one that is not below it the last one.
pub fn later_cell(own: Option<Cell>, found: Option<Cell>) -> Option<Cell>
    ensures { result ≡ later_cell own found }
{
    let Some(own) = own else {
        return found;
    };
    match found {
        Some(found) if is_below(own.key.as_slice(), found.key.as_slice()) => Some(found),
        _ => Some(own),
    }
}
