// Commits through a desk of the transaction machine. A key has 13 bytes, which end in its number with the highest byte first,
// and a record has 10.
ghost use Rattle.std.specs.Prelude.{◌≡◌, ◌+◌, ◌<◌, ◌≤◌, OnSome};
ghost use Rattle.hc_range.specs.Ranges.{InRange};
ghost use Rattle.hc_test_desks.specs.Putting.{HasNoneOpen, last_ord};

use hc_core::{Desk, NoMemory, Part, Write};
use hc_range::{Bytes, Range};
use hc_test_desks::{commit, may_be_reserved, open, put_all, read};
use sqlite_items::Items;
use std::alloc::Global;

/// The key of a number.
pub fn key(alloc: Global, number: u32) -> Result<Bytes, NoMemory> {
    let mut key = [7; 13];
    key[9..].copy_from_slice(&number.to_be_bytes());
    Bytes::from_slice(alloc, &key)
}

fn write(alloc: Global, number: u32) -> Result<Write, NoMemory> {
    Ok(Write {
        key: key(alloc, number)?,
        rec: Some(Bytes::from_slice(alloc, &[1; 10])?),
    })
}

/// Writes of some number of keys in ascending order.
pub fn ascending_writes(alloc: Global, count: u32) -> Result<Vec<Write>, NoMemory> {
    let mut writes = Vec::new(alloc);
    for number in 0..count {
        writes.push(write(alloc, number)?)?;
    }
    Ok(writes)
}

/// The range of the lowest keys that has about 1,000 of some number of scattered keys, at least 1,000.
pub fn lowest_keys(alloc: Global, keys: u32) -> Result<Range, NoMemory>
    requires { 0 < keys }
{
    let lo = key(alloc, 0)?;
    if keys <= 1_000 {
        return Ok(Range { lo, hi: None });
    }
    Ok(Range {
        lo,
        hi: Some(key(alloc, u32::MAX / keys * 1_000)?),
    })
}

/// Reads a range in a transaction of its own, and answers how many cells it has; none where memory runs out.
pub fn read_cells<D: Desk>(desk: &mut D, alloc: Global, range: &Range) -> Option<usize>
    requires idle { HasNoneOpen (D.account desk.old) }
    requires range { InRange range.now range.now.lo }
    ensures idle { OnSome result (HasNoneOpen (D.account desk.new)) }
    ensures ord { OnSome result (last_ord (D.account desk.new) ≡ last_ord (D.account desk.old)) }
{
    let mut part = Part {
        cells: Items::new(alloc),
    };
    read(desk, alloc, range, &mut part).ok()?;
    Some(part.cells.len())
}

// Commits writes in one transaction, and answers its number; none where something is in the way or memory runs out.
fn commit_writes<D: Desk>(desk: &mut D, alloc: Global, ord: u32, writes: &[Write]) -> Option<u32>
    requires idle { HasNoneOpen (D.account desk.old) }
    requires ord { (last_ord (D.account desk.old) < ord) × (ord ≤ 131071) }
    ensures idle { OnSome result (HasNoneOpen (D.account desk.new) × (last_ord (D.account desk.new) ≡ ord)) }
{
    if !may_be_reserved(writes) {
        return None;
    }
    open(desk, alloc, ord, writes).ok()?;
    put_all(desk, writes).ok()?;
    let number = commit(desk, writes).ok()?;
    Some(number.0)
}

/// Commits one key each in some number of transactions, whose ordinals are those after `first`. Answers the sum of the
/// commit numbers; none where something is in the way or memory runs out.
pub fn commit_keys<D: Desk>(desk: &mut D, alloc: Global, first: u32, count: u32) -> Option<u64>
    requires idle { HasNoneOpen (D.account desk.old) }
    requires ord { (last_ord (D.account desk.old) ≤ first) × (first + count ≤ 131071) }
    ensures idle { OnSome result (HasNoneOpen (D.account desk.new) × (last_ord (D.account desk.new) ≤ first + count)) }
{
    let mut sum: u64 = 0;
    for turn in 0..count {
        let writes = [write(alloc, place(first + turn)).ok()?];
        let number = commit_writes(desk, alloc, first + turn + 1, &writes)?;
        sum = sum.wrapping_add(u64::from(number));
    }
    Some(sum)
}

/// The numbers of keys come scattered, by a linear congruential generator.
pub fn place(turn: u32) -> u32 {
    turn.wrapping_mul(2_654_435_761)
}
