// Binary searches in a list of ranges in normal form.
ghost use Rattle.std.specs.Prelude.{◌≡◌, ◌≤◌, true, false, length, IfNone, IfSome};
ghost use Rattle.std.specs.List.{AllWithin, Contains};
ghost use Rattle.hc_range.specs.Ranges.{is_end_below, is_under, InAny, InRange, IsNormal};

use crate::range::{is_end_below, is_under};
use crate::{Bytes, Range, is_below};

// How many ranges end below a key: those that neither hold it nor touch it, and lie before it.
pub(crate) fn count_before(ranges: &[Range], key: &[u8]) -> usize
    requires { IsNormal ranges.now }
    ensures within { result ≤ length ranges.now }
    ensures before { AllWithin (λ range. is_end_below range.hi key.now ≡ true) ranges.now 0 result }
    ensures others { AllWithin (λ range. is_end_below range.hi key.now ≡ false) ranges.now result (length ranges.now) }
{
    match ranges.last() {
        Some(last) if is_end_below(&last.hi, key) => ranges.len(),
        _ => count_before_any(ranges, key),
    }
}

// The same, by a search alone.
fn count_before_any(ranges: &[Range], key: &[u8]) -> usize
    requires { IsNormal ranges.now }
    ensures within { result ≤ length ranges.now }
    ensures before { AllWithin (λ range. is_end_below range.hi key.now ≡ true) ranges.now 0 result }
    ensures others { AllWithin (λ range. is_end_below range.hi key.now ≡ false) ranges.now result (length ranges.now) }
{
    ranges.partition_point(|range| is_end_below(&range.hi, key))
}

// How many ranges begin at an upper end or below it.
pub(crate) fn count_begun(ranges: &[Range], end: &Option<Bytes>) -> usize
    requires { IsNormal ranges.now }
    ensures within { result ≤ length ranges.now }
    ensures begun { AllWithin (λ range. is_end_below end.now range.lo ≡ false) ranges.now 0 result }
    ensures others { AllWithin (λ range. is_end_below end.now range.lo ≡ true) ranges.now result (length ranges.now) }
{
    ranges.partition_point(|range| !is_end_below(end, range.lo.as_slice()))
}

// How many ranges end at a key or below it, so that only the next one can hold it.
pub(crate) fn count_passed(ranges: &[Range], key: &[u8]) -> usize
    requires { IsNormal ranges.now }
    ensures within { result ≤ length ranges.now }
    ensures passed { AllWithin (λ range. is_under key.now range.hi ≡ false) ranges.now 0 result }
    ensures others { AllWithin (λ range. is_under key.now range.hi ≡ true) ranges.now result (length ranges.now) }
{
    ranges.partition_point(|range| !is_under(key, &range.hi))
}

// The range that holds a key.
pub(crate) fn find<'a>(ranges: &'a [Range], key: &[u8]) -> Option<&'a Range>
    requires { IsNormal ranges.now }
    ensures found { IfSome result (λ range. Contains ranges.now range.now × InRange range.now key.now) }
    ensures absent { IfNone result (¬ InAny ranges.now key.now) }
{
    let range = ranges.get(count_passed(ranges, key))?;
    if is_below(key, range.lo.as_slice()) {
        return None;
    }
    Some(range)
}
