// A range is read from a desk, in as many calls as the desk takes.
ghost use Rattle.std.specs.Prelude.{◌≡◌, ◌<◌, ℕ, get_or};
ghost use Rattle.hc_range.specs.Ranges.{InRange};
ghost use Rattle.hc_core.specs.Account.{part_of};
ghost use Rattle.hc_core.specs.Desk.{GoesOn, IsReading};
ghost use Rattle.hc_core.specs.declared.cells.Cell.{Cell};
ghost use Rattle.hc_txn.specs.Reading.{HasReadAll, HasReadAsFar, IsPlace};

use hc_core::{Desk, Next, Part};
use hc_range::{KeyBuf, Range};
use std::alloc::Global;

/// How far a range was read.
#[derive(Debug, Clone, Copy)]
pub enum HowFar {
    /// To its end.
    Whole,
    /// Up to this key, where memory ran out.
    Upto(KeyBuf),
    /// Memory ran out before anything was read.
    Nothing,
}

// Each byte of a slice is below 256.
fn are_bytes(bytes: &[u8])
    ensures { (i : ℕ) → get_or bytes.now i 0 < 256 }
{}

/// Where a call of a desk stopped, which is a short key.
pub fn place(next: Next) -> Next
    ensures same { result ≡ next }
    ensures place { IsPlace next }
{
    if let Next::More(key) = next {
        are_bytes(key.as_slice());
    }
    next
}

/// Reads a range that is not empty, and adds its cells to `out`.
pub fn read_range<D: Desk>(desk: &mut D, alloc: Global, range: &Range, out: &mut Part) -> HowFar
    requires reading { IsReading (D.account desk.old) }
    requires some { InRange range.now range.now.lo }
    ensures read { HasReadAsFar (D.conn desk.old) range.now result (D.account desk.old) (D.account desk.new) out.old.cells out.new.cells }
    ensures on { GoesOn D.conn D.most D.seen D.later desk.old desk.new }
{
    let Ok(first) = desk.read_part(alloc, range.lo.as_slice(), range, out) else {
        return HowFar::Nothing;
    };
    let mut next = place(first);
    while let Next::More(key) = next {
        match desk.read_part(alloc, key.as_slice(), range, out) {
            Ok(more) => next = place(more),
            Err(_) => return HowFar::Upto(key),
        }
    }
    HowFar::Whole
}
