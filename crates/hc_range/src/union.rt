// A range is united with a list in normal form: the stretch that it overlaps or touches becomes one range.
ghost use Rattle.std.specs.Prelude.{◌≡◌, ◌≢◌, ℕ, ◌+◌, ◌-◌, ◌<◌, ◌≤◌, List, [], ◌∷◌, ◌++◌, ◌⊎◌, ◌↔◌, true, false, slice_index_or, take, drop, vec_capacity, vec_len, IsOk, OnOk, OnErr, IfSome, IfNone};
ghost use Rattle.hc_range.specs.Order.{lower};
ghost use Rattle.hc_range.specs.Merging.{HasTakenOne};
ghost use Rattle.hc_range.specs.Ranges.{later, united, IsNonEmpty, InAny, InRange, IsNormal};

use crate::range::{is_end_below, is_non_empty};
use crate::search::{count_before, count_begun};
use crate::{Bytes, NoMemory, Range, is_below};

// Unites a range that is not empty with a list in normal form.
pub(crate) fn unite(ranges: &mut Vec<Range>, range: Range) -> Result<(), NoMemory>
    requires normal { IsNormal ranges.old.items }
    requires holds { IsNonEmpty range }
    ensures normal { IsNormal ranges.new.items }
    ensures added { OnOk result ((key : List ℕ) →
        InAny ranges.new.items key ↔ (InAny ranges.old.items key ⊎ InRange range key)) }
    ensures no_memory { OnErr result (ranges.new.items ≡ ranges.old.items) }

    // Where there is room for one more, no memory is wanted, and no room is lost.
    ensures succeeds { vec_len ranges.old < vec_capacity ranges.old → IsOk result }
    ensures len { vec_len ranges.new ≤ vec_len ranges.old + 1 }
    ensures capacity { vec_capacity ranges.old ≤ vec_capacity ranges.new }
{
    let from = count_before(ranges.as_slice(), range.lo.as_slice());
    let to = from + count_begun(&ranges[from..], &range.hi);
    if from == to {
        ranges.insert(from, range)?;
        return Ok(());
    }
    merge(ranges, from, to, range);
    Ok(())
}

// Unites two lists in normal form, in one pass over both. Memory is taken first, so that without it nothing has changed.
pub(crate) fn unite_all(ranges: &mut Vec<Range>, mut others: Vec<Range>) -> Result<(), NoMemory>
    requires normal { IsNormal ranges.old.items }
    requires holds { IsNormal others.items }
    ensures normal { IsNormal ranges.new.items }
    ensures added { OnOk result ((key : List ℕ) →
        InAny ranges.new.items key ↔ (InAny ranges.old.items key ⊎ InAny others.items key)) }
    ensures no_memory { OnErr result (ranges.new.items ≡ ranges.old.items) }
{
    let mut out = Vec::new(*ranges.allocator());
    out.reserve(ranges.len().saturating_add(others.len()))?;
    ranges.reverse();
    others.reverse();
    while let Some(range) = take_lower(ranges, &mut others) {
        add_with_room(&mut out, range);
    }
    *ranges = out;
    Ok(())
}

// Whether the last of the first list begins below the last of the second, or the second has none.
fn is_last_lower(ranges: &[Range], others: &[Range]) -> bool
    ensures some { result ≡ true → ranges.now ≢ [] }
    ensures none { result ≡ false → others.now ≡ [] → ranges.now ≡ [] }
{
    match (ranges.last(), others.last()) {
        (Some(range), Some(other)) => is_below(range.lo.as_slice(), other.lo.as_slice()),
        (Some(_range), None) => true,
        (None, _other) => false,
    }
}

// Takes one of the last ranges of two lists, the one that begins lower.
fn take_lower(ranges: &mut Vec<Range>, others: &mut Vec<Range>) -> Option<Range>
    ensures some { IfSome result (λ range. HasTakenOne range ranges.old.items ranges.new.items others.old.items others.new.items) }
    ensures none { IfNone result ((ranges.old.items ≡ []) × (others.old.items ≡ [])) }
{
    if is_last_lower(ranges.as_slice(), others.as_slice()) {
        ranges.pop()
    } else {
        others.pop()
    }
}

// Unites a range with a list that has room for it.
pub(crate) fn add_with_room(ranges: &mut Vec<Range>, range: Range)
    requires normal { IsNormal ranges.old.items }
    requires room { vec_len ranges.old < vec_capacity ranges.old }
    ensures normal { IsNormal ranges.new.items }
    ensures added { (key : List ℕ) → InAny ranges.new.items key ↔ (InAny ranges.old.items key ⊎ InRange range key) }
    ensures len { vec_len ranges.new ≤ vec_len ranges.old + 1 }
    ensures capacity { vec_capacity ranges.old ≤ vec_capacity ranges.new }
{
    if !is_non_empty(&range) {
        return;
    }
    match unite(ranges, range) {
        Ok(()) => {}
        Err(_) => unreachable!(),
    }
}

// Replaces the ranges from one place up to another by the one that holds their keys and those of `range`.
fn merge(ranges: &mut Vec<Range>, from: usize, to: usize, mut range: Range)
    requires some { from < to }
    requires within { to ≤ vec_len ranges.old }
    ensures items { ranges.new.items ≡ take from ranges.old.items
        ++ united range (slice_index_or ranges.old.items from range) (slice_index_or ranges.old.items (to - 1) range)
        ∷ drop to ranges.old.items }
    ensures len { vec_len ranges.new ≤ vec_len ranges.old }
    ensures capacity { vec_capacity ranges.new ≡ vec_capacity ranges.old }
{
    keep_lower(&mut range.lo, &mut ranges[from].lo);
    keep_later(&mut range.hi, &mut ranges[to - 1].hi);
    ranges[from] = range;
    ranges.drain(from + 1..to);
}

// Leaves the lower of two keys in the first place.
fn keep_lower(lo: &mut Bytes, other: &mut Bytes)
    ensures { lo.new ≡ lower lo.old other.old }
{
    if is_below(other.as_slice(), lo.as_slice()) {
        std::mem::swap(lo, other);
    }
}

// Leaves the later of two upper ends in the first place.
fn keep_later(hi: &mut Option<Bytes>, other: &mut Option<Bytes>)
    ensures { hi.new ≡ later hi.old other.old }
{
    let is_later = match other {
        Some(other) => is_end_below(hi, other.as_slice()),
        None => true,
    };
    if is_later {
        std::mem::swap(hi, other);
    }
}
