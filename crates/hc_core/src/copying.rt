// Copies of what an event holds.
ghost use Rattle.std.specs.Prelude.{◌≡◌, ◌++◌, IfOk, OnOk, OnErr};
ghost use Rattle.std.specs.Option.{option_copied};
ghost use Rattle.hc_core.specs.Account.{part_of};
ghost use Rattle.hc_core.specs.Calls.{IsExtended};

use crate::{Cell, NoMemory, Write};
use hc_range::{Bytes, Range};
use sqlite_items::Items;
use std::alloc::Global;

pub fn copy_end(alloc: Global, end: &Option<Bytes>) -> Result<Option<Bytes>, NoMemory>
    ensures { IfOk result (λ copy. copy ≡ end.now) }
{
    match end {
        Some(end) => Ok(Some(Bytes::from_slice(alloc, end.as_slice())?)),
        None => Ok(None),
    }
}

pub fn copy_part(alloc: Global, from: &[u8], upto: &Option<Bytes>) -> Result<Range, NoMemory>
    ensures { IfOk result (λ range. range ≡ part_of from.now upto.now) }
{
    Ok(Range {
        lo: Bytes::from_slice(alloc, from)?,
        hi: copy_end(alloc, upto)?,
    })
}

pub fn copy_write(alloc: Global, key: &[u8], rec: Option<&[u8]>) -> Result<Write, NoMemory>
    ensures { IfOk result (λ write. write ≡ record { key = key.now; rec = option_copied rec.entry }) }
{
    let key = Bytes::from_slice(alloc, key)?;
    let rec = match rec {
        Some(rec) => Some(Bytes::from_slice(alloc, rec)?),
        None => None,
    };
    Ok(Write { key, rec })
}

pub fn copy_writes(alloc: Global, writes: &[Write]) -> Result<Vec<Write>, NoMemory>
    ensures { IfOk result (λ copies. copies.items ≡ writes.now) }
{
    let mut copies = Vec::new(alloc);
    for write in writes {
        copies.push(copy_write(alloc, write.key.as_slice(), lent(&write.rec))?)?;
    }
    Ok(copies)
}

/// Moves cells to the end of others. Out of memory some of them are there.
pub fn push_all(out: &mut Items<Cell>, cells: Vec<Cell>) -> Result<(), NoMemory>
    ensures all { OnOk result (out.new ≡ out.old ++ cells.items) }
    ensures some { OnErr result (IsExtended out.old out.new) }
{
    for cell in cells {
        out.push(cell)?;
    }
    Ok(())
}

/// Bytes, where they are there, lent.
pub fn lent(bytes: &Option<Bytes>) -> Option<&[u8]>
    ensures { option_copied result ≡ bytes.now }
{
    match bytes {
        Some(bytes) => Some(bytes.as_slice()),
        None => None,
    }
}
