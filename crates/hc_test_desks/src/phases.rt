// Commits through a desk, in the phases that are timed. A transaction here is written or read, and it is alone: where
// something is in its way the run ends.
ghost use Rattle.std.specs.Prelude.{◌≡◌, ◌+◌, ◌∷◌, ◌<◌, ◌≤◌, [], OnOk, IsTrue, length};
ghost use Rattle.std.specs.Option.{option_copied};
ghost use Rattle.hc_base.specs.Entries.{entry_fits};
ghost use Rattle.hc_range.specs.Ranges.{InRange};
ghost use Rattle.hc_core.specs.Account.{record_of};
ghost use Rattle.hc_core.specs.Desk.{AreAscendingWrites, EachFits, GoesOn, MayPutNow, put_outcome};
ghost use Rattle.hc_core.specs.Diary.{entry_of};
ghost use Rattle.hc_core.specs.declared.event.Event.TheVariants.{Put};
ghost use Rattle.hc_test_desks.specs.Putting.{HasNoneOpen, IsBelowFirst, IsPutting, last_ord};

use hc_base::{Cid, entry_fits};
use hc_core::{Desk, Lost, Met, Next, NoMemory, Part, ReserveFault, Write};
use hc_range::{Bytes, Range, is_below};
use std::alloc::Global;

fn lent(bytes: &Option<Bytes>) -> Option<&[u8]>
    ensures { option_copied result ≡ bytes.now }
{
    match bytes {
        Some(bytes) => Some(bytes.as_slice()),
        None => None,
    }
}

/// Opens a transaction with an ordinal, and makes room for its writes.
pub fn open<D: Desk>(
    desk: &mut D,
    alloc: Global,
    ord: u32,
    writes: &[Write],
) -> Result<(), ReserveFault>
    requires idle { HasNoneOpen (D.account desk.old) }
    requires ord { (last_ord (D.account desk.old) < ord) × (ord ≤ 131071) }
    requires writes { AreAscendingWrites writes.now × EachFits writes.now }
    ensures putting { OnOk result (IsPutting writes.now [] (D.account desk.new)) }
    ensures ord { OnOk result (last_ord (D.account desk.new) ≡ ord) }
    ensures on { GoesOn D.conn D.most D.seen D.later desk.old desk.new }
{
    desk.begin();
    desk.reserve(alloc, ord, writes)
}

/// Puts a write for which there is room.
pub(crate) fn put<D: Desk>(desk: &mut D, write: &Write) -> Result<(), Met>
    requires reserved { MayPutNow (D.account desk.old) write.now.key write.now.rec }
    ensures entry { D.account desk.new ≡ entry_of (Put (D.conn desk.old) write.now.key write.now.rec) (put_outcome result) ∷ D.account desk.old }
    ensures on { GoesOn D.conn D.most D.seen D.later desk.old desk.new }
{
    desk.put(write.key.as_slice(), lent(&write.rec))
}

/// Puts the writes, the last one first.
pub fn put_all<D: Desk>(desk: &mut D, writes: &[Write]) -> Result<(), Met>
    requires ascending { AreAscendingWrites writes.now }
    requires putting { IsPutting writes.now [] (D.account desk.old) }
    ensures putting { OnOk result (IsPutting writes.now writes.now (D.account desk.new)) }
    ensures ord { OnOk result (last_ord (D.account desk.new) ≡ last_ord (D.account desk.old)) }
    ensures on { GoesOn D.conn D.most D.seen D.later desk.old desk.new }
{
    let mut left = writes.len();
    while left > 0 {
        left -= 1;
        put(desk, &writes[left])?;
    }
    Ok(())
}

/// Takes a commit number for what is put, and ends the transaction.
pub fn commit<D: Desk>(desk: &mut D, writes: &[Write]) -> Result<Cid, Lost>
    requires putting { IsPutting writes.now writes.now (D.account desk.old) }
    ensures idle { OnOk result (HasNoneOpen (D.account desk.new)) }
    ensures ord { OnOk result (last_ord (D.account desk.new) ≡ last_ord (D.account desk.old)) }
    ensures on { GoesOn D.conn D.most D.seen D.later desk.old desk.new }
{
    desk.propose();
    let number = desk.decide()?;
    desk.end();
    Ok(number)
}

/// Reads the cells of a range in a transaction of its own.
pub fn read<D: Desk>(
    desk: &mut D,
    alloc: Global,
    range: &Range,
    out: &mut Part,
) -> Result<Next, NoMemory>
    requires idle { HasNoneOpen (D.account desk.old) }
    requires range { InRange range.now range.now.lo }
    ensures idle { OnOk result (HasNoneOpen (D.account desk.new)) }
    ensures ord { OnOk result (last_ord (D.account desk.new) ≡ last_ord (D.account desk.old)) }
    ensures on { GoesOn D.conn D.most D.seen D.later desk.old desk.new }
{
    desk.begin();
    let next = desk.read_part(alloc, range.lo.as_slice(), range, out)?;
    desk.end();
    Ok(next)
}

fn fits(write: &Write) -> bool
    ensures { result ≡ entry_fits (length write.now.key) (length (record_of write.now.rec)) }
{
    let rec = match &write.rec {
        Some(rec) => rec.as_slice().len(),
        None => 0,
    };
    entry_fits(write.key.as_slice().len() as u64, rec as u64)
}

// Whether a write's key is below that of the first of some writes, if there is one.
fn is_below_first(write: &Write, writes: &[Write]) -> bool
    ensures { IsTrue result → IsBelowFirst write.now.key writes.now }
{
    match writes.first() {
        Some(first) => is_below(write.key.as_slice(), first.key.as_slice()),
        None => true,
    }
}

/// Whether room can be made for writes: their keys ascend, and each is within the limit of an entry.
pub fn may_be_reserved(writes: &[Write]) -> bool
    ensures { IsTrue result → AreAscendingWrites writes.now × EachFits writes.now }
{
    let mut left = writes.len();
    while left > 0 {
        let write = &writes[left - 1];
        if !fits(write) || !is_below_first(write, &writes[left..]) {
            return false;
        }
        left -= 1;
    }
    true
}
