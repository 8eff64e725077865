ghost use Rattle.std.specs.Prelude.{◌≡◌, ◌↔◌, ◌&&◌, IsTrue, IfOk};
ghost use Rattle.hc_range.specs.Order.{higher};
ghost use Rattle.hc_range.specs.Ranges.{is_end_at_most, is_end_below, is_under, IsNonEmpty, InRange, Meet};

use crate::{Bytes, NoMemory, is_below};
use std::alloc::Global;

/// A range of byte strings: those at `lo` or above, and below `hi` where it is there.
/// It is empty where `hi` is there and not above `lo`.
#[derive(Debug, Drop)]
pub struct Range {
    /// The lower end, which belongs to the range.
    pub lo: Bytes,
    /// The upper end, which does not. `None` is no end: all byte strings from `lo` on.
    pub hi: Option<Bytes>,
}

// Whether a key is below an upper end.
pub(crate) fn is_under(key: &[u8], end: &Option<Bytes>) -> bool
    ensures { result ≡ is_under key.now end.now }
{
    match end {
        None => true,
        Some(end) => is_below(key, end.as_slice()),
    }
}

// Whether an upper end is below a key.
pub(crate) fn is_end_below(end: &Option<Bytes>, key: &[u8]) -> bool
    ensures { result ≡ is_end_below end.now key.now }
{
    match end {
        None => false,
        Some(end) => is_below(end.as_slice(), key),
    }
}

// Whether an upper end is at most another.
pub(crate) fn is_end_at_most(end: &Option<Bytes>, other: &Option<Bytes>) -> bool
    ensures { result ≡ is_end_at_most end.now other.now }
{
    match other {
        None => true,
        Some(other) => !is_under(other.as_slice(), end),
    }
}

// Whether any key lies in a range.
pub(crate) fn is_non_empty(range: &Range) -> bool
    ensures { IsTrue result ↔ IsNonEmpty range.now }
{
    is_under(range.lo.as_slice(), &range.hi)
}

/// Whether a key lies in a range.
pub fn contains(range: &Range, key: &[u8]) -> bool
    ensures { IsTrue result ↔ InRange range.now key.now }
{
    !is_below(key, range.lo.as_slice()) && is_under(key, &range.hi)
}

/// Whether some byte string lies in both ranges. Ranges that only touch do not meet, and an empty
/// range meets nothing.
pub fn meets(a: &Range, b: &Range) -> bool
    ensures { IsTrue result ↔ Meet a.now b.now }
{
    is_under_both(higher(a.lo.as_slice(), b.lo.as_slice()), &a.hi, &b.hi)
}

// Whether a key is below two upper ends.
fn is_under_both(key: &[u8], a: &Option<Bytes>, b: &Option<Bytes>) -> bool
    ensures { result ≡ (is_under key.now a.now && is_under key.now b.now) }
{
    is_under(key, a) && is_under(key, b)
}

// The key of two that comes later: where two ranges meet, the first key that lies in both.
fn higher<'a>(a: &'a [u8], b: &'a [u8]) -> &'a [u8]
    ensures { result.now ≡ higher a.now b.now }
{
    if is_below(a, b) { b } else { a }
}

// A copy of a range.
pub(crate) fn copy_range(alloc: Global, range: &Range) -> Result<Range, NoMemory>
    ensures { IfOk result (λ copy. copy ≡ range.now) }
{
    let lo = Bytes::from_slice(alloc, range.lo.as_slice())?;
    let hi = copy_end(alloc, &range.hi)?;
    Ok(Range { lo, hi })
}

fn copy_end(alloc: Global, end: &Option<Bytes>) -> Result<Option<Bytes>, NoMemory>
    ensures { IfOk result (λ copy. copy ≡ end.now) }
{
    match end {
        Some(end) => Ok(Some(Bytes::from_slice(alloc, end.as_slice())?)),
        None => Ok(None),
    }
}
