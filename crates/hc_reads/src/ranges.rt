// Copies of ranges, and ranges in the order of their lower ends.
ghost use Rattle.std.specs.Prelude.{◌≡◌, ◌↔◌, ℕ, List, IfOk, IsPermutation};
ghost use Rattle.hc_range.specs.Ranges.{InAny};

use hc_range::{Bytes, NoMemory, Range, ReadLog};
use std::alloc::Global;

fn copy_end(alloc: Global, end: &Option<Bytes>) -> Result<Option<Bytes>, NoMemory>
    ensures { IfOk result (λ copy. copy ≡ end.now) }
{
    match end {
        Some(end) => Ok(Some(Bytes::from_slice(alloc, end.as_slice())?)),
        None => Ok(None),
    }
}

/// A copy of a range.
pub fn copy_range(alloc: Global, range: &Range) -> Result<Range, NoMemory>
    ensures { IfOk result (λ copy. copy ≡ range.now) }
{
    let lo = Bytes::from_slice(alloc, range.lo.as_slice())?;
    let hi = copy_end(alloc, &range.hi)?;
    Ok(Range { lo, hi })
}

/// Puts ranges in the order of their lower ends.
pub fn sort_ranges(ranges: &mut Vec<Range>)
    ensures { IsPermutation ranges.old.items ranges.new.items }
{
    ranges.sort_unstable_by(|a, b| a.lo.as_slice().cmp(b.lo.as_slice()));
}

/// The log of the keys of ranges. Where these ascend each is added after all others, without a search.
pub fn log_of(alloc: Global, ranges: &[Range]) -> Result<ReadLog, NoMemory>
    ensures { IfOk result (λ log. (key : List ℕ) → InAny log key ↔ InAny ranges.now key) }
{
    let mut log = ReadLog::new(alloc);
    for range in ranges {
        log.add(range)?;
    }
    Ok(log)
}
