ghost use Rattle.std.specs.Prelude.{◌≡◌, ℕ, List, [], ◌⊎◌, ◌↔◌, IsTrue, OnOk, OnErr, vec_len};
ghost use Rattle.hc_range.specs.Ranges.{Includes, InAny, InRange, IsNormal};

use crate::range::{copy_range, is_end_at_most, is_non_empty};
use crate::search::find;
use crate::union::{unite, unite_all};
use crate::{NoMemory, Range};
use std::alloc::Global;
use std::marker::Model;

/// The set of keys that a transaction has read. A contract sees the list of its ranges, which is the one
/// normal form of the set: ascending, none empty, no two that overlap or touch.
///
/// [`ReadLog::covers`] and [`ReadLog::includes`] make one binary search. Where the range is after all others
/// [`ReadLog::add`] makes none and pushes: it moves no other range, and takes memory for the two ends, and
/// for the list where its room is used up. Elsewhere it searches twice, and the ranges after the place move
/// up or down. [`ReadLog::join`] makes one pass over both lists, and takes memory for a list of both.
#[derive(Debug, Drop)]
pub struct ReadLog {
    ranges: Vec<Range>,
    // Empty, with room for a key once a range was prepared.
    spare: Vec<u8>,
}

impl Model for ReadLog {
    ghost use Rattle.std.specs.Prelude.{◌≡◌, List, [], vec_len};
    ghost use Rattle.hc_range.specs.declared.range.Range.{Range};
    ghost use Rattle.hc_range.specs.Ranges.{IsNormal};

    ghost Value = { List Range };

    ghost view = { λ log. log.ranges.items };

    ghost invariant = { λ log. IsNormal log.ranges.items × (log.spare.items ≡ []) × (vec_len log.spare ≡ 0) };
}

impl ReadLog {
    /// A log that covers nothing. It keeps the allocator, and takes no memory yet.
    pub fn new(alloc: Global) -> ReadLog
        ensures { result ≡ [] }
    {
        ReadLog {
            ranges: Vec::new(alloc),
            spare: Vec::new(alloc),
        }
    }

    // The list of ranges, and the room for a key.
    pub(crate) fn into_parts(self) -> (Vec<Range>, Vec<u8>)
        ensures list { result.0.items ≡ self }
        ensures normal { IsNormal self }
        ensures spare { (result.1.items ≡ []) × (vec_len result.1 ≡ 0) }
    {
        let ReadLog { ranges, spare } = self;
        (ranges, spare)
    }

    pub(crate) fn from_parts(ranges: Vec<Range>, spare: Vec<u8>) -> ReadLog
        requires normal { IsNormal ranges.items }
        requires spare { (spare.items ≡ []) × (vec_len spare ≡ 0) }
        ensures { result ≡ ranges.items }
    {
        ReadLog { ranges, spare }
    }

    /// The ranges, ascending. None is empty, and no two overlap or touch.
    pub fn ranges(&self) -> &[Range]
        ensures list { result.now ≡ self.now }
        ensures normal { IsNormal self.now }
    {
        self.ranges.as_slice()
    }

    /// Whether a key is covered.
    pub fn covers(&self, key: &[u8]) -> bool
        ensures { IsTrue result ↔ InAny self.now key.now }
    {
        find(self.ranges.as_slice(), key).is_some()
    }

    /// Whether each key of a range is covered. An empty range has none, so it is included.
    pub fn includes(&self, part: &Range) -> bool
        ensures { IsTrue result ↔ Includes self.now part.now }
    {
        if !is_non_empty(part) {
            return true;
        }
        match find(self.ranges.as_slice(), part.lo.as_slice()) {
            Some(range) => is_end_at_most(&part.hi, &range.hi),
            None => false,
        }
    }

    /// Covers the keys of a range too. When memory runs out the log is as before.
    pub fn add(&mut self, range: &Range) -> Result<(), NoMemory>
        ensures added { OnOk result ((key : List ℕ) →
            InAny self.new key ↔ (InAny self.old key ⊎ InRange range.now key)) }
        ensures no_memory { OnErr result (self.new ≡ self.old) }
    {
        if !is_non_empty(range) {
            return Ok(());
        }
        let copy = copy_range(*self.ranges.allocator(), range)?;
        unite(&mut self.ranges, copy)
    }

    /// Covers the keys of another log too. When memory runs out the log is as before: room for the ranges of
    /// both is taken first, and then they move in, the lower one first.
    pub fn join(&mut self, other: ReadLog) -> Result<(), NoMemory>
        ensures joined { OnOk result ((key : List ℕ) →
            InAny self.new key ↔ (InAny self.old key ⊎ InAny other key)) }
        ensures no_memory { OnErr result (self.new ≡ self.old) }
    {
        let (ranges, _spare) = other.into_parts();
        unite_all(&mut self.ranges, ranges)
    }

    /// Covers nothing from here on, and keeps the room for its list.
    pub fn clear(&mut self)
        ensures { self.new ≡ [] }
    {
        self.ranges.clear();
    }
}
