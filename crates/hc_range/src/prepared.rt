// A log is united with a range in two steps: the first takes the memory, the second takes none.
ghost use Rattle.std.specs.Prelude.{◌≡◌, ◌≤◌, ◌<◌, ℕ, List, [], Some, length, ◌⊎◌, ◌↔◌, vec_len, vec_capacity, IfOk, IfErr, OnOk, OnErr};
ghost use Rattle.hc_range.specs.Ranges.{InAny, InRange, IsNormal};

use crate::key::LONGEST_KEY;
use crate::range::copy_range;
use crate::union::add_with_room;
use crate::{Bytes, NoMemory, Range, ReadLog};
use std::marker::Model;

/// A log with room for one more range, of which as much as was read is united with it. A contract sees the log and the
/// range.
#[derive(Debug, Drop)]
pub struct Prepared {
    ranges: Vec<Range>,
    range: Range,
    // Where a key goes that cuts the range.
    spare: Vec<u8>,
}

impl Model for Prepared {
    ghost use Rattle.std.specs.Prelude.{◌≡◌, ◌<◌, ◌≤◌, [], vec_len, vec_capacity};
    ghost use Rattle.hc_range.specs.Ranges.{IsNormal};
    ghost use Rattle.hc_range.specs.Prepared.{Preparation};

    ghost Value = { Preparation };

    ghost view = { λ p. record { log = p.ranges.items; range = p.range } };

    ghost invariant = { λ p. IsNormal p.ranges.items × (vec_len p.ranges < vec_capacity p.ranges) × (p.spare.items ≡ []) × (vec_len p.spare ≡ 0) × (463 ≤ vec_capacity p.spare) };
}

// Memory for what is united later: the range, a place in the list, and a key.
fn prepare(ranges: &mut Vec<Range>, spare: &mut Vec<u8>, range: &Range) -> Result<Range, NoMemory>
    requires { vec_len spare.old ≡ 0 }
    ensures ranges { ranges.new.items ≡ ranges.old.items }
    ensures spare { spare.new.items ≡ spare.old.items }
    ensures len { vec_len spare.new ≡ vec_len spare.old }
    ensures copy { IfOk result (λ copy. copy ≡ range.now) }
    ensures room { OnOk result ((vec_len ranges.new < vec_capacity ranges.new) × (463 ≤ vec_capacity spare.new)) }
{
    let copy = copy_range(*ranges.allocator(), range)?;
    ranges.reserve(1)?;
    spare.reserve(LONGEST_KEY)?;
    Ok(copy)
}

impl ReadLog {
    /// Takes the memory that is needed to cover the keys of a range too, or of its part below some key. Where it is missing
    /// the log is given back as it was.
    pub fn prepare(self, range: &Range) -> Result<Prepared, ReadLog>
        ensures prepared { IfOk result (λ prepared. prepared ≡ record { log = self; range = range.now }) }
        ensures no_memory { IfErr result (λ log. log ≡ self) }
    {
        let (mut ranges, mut spare) = self.into_parts();
        match prepare(&mut ranges, &mut spare, range) {
            Ok(range) => Ok(Prepared {
                ranges,
                range,
                spare,
            }),
            Err(_) => Err(ReadLog::from_parts(ranges, spare)),
        }
    }
}

impl Prepared {
    /// The log as it was, where nothing was read.
    pub fn cancel(self) -> ReadLog
        ensures { result ≡ self.log }
    {
        let Prepared {
            ranges,
            range: _range,
            spare,
        } = self;
        ReadLog::from_parts(ranges, spare)
    }

    /// The log that covers the whole range too. It takes no memory.
    pub fn unite(self) -> ReadLog
        ensures { (key : List ℕ) → InAny result key ↔ (InAny self.log key ⊎ InRange self.range key) }
    {
        let Prepared {
            mut ranges,
            range,
            spare,
        } = self;
        add_with_room(&mut ranges, range);
        ReadLog::from_parts(ranges, spare)
    }

    /// The log that covers the keys of the range below some key too. It takes no memory.
    pub fn unite_below(self, key: &[u8]) -> ReadLog
        requires { length key.now ≤ 463 }
        ensures { (k : List ℕ) → InAny result k ↔ (InAny self.log k ⊎ InRange (record { lo = self.range.lo; hi = Some key.now }) k) }
    {
        let Prepared {
            mut ranges,
            range,
            spare,
        } = self;
        let alloc = *ranges.allocator();
        let Range { lo, hi: _hi } = range;
        let range = Range {
            lo,
            hi: Some(Bytes::from_vec(filled(spare, key))),
        };
        add_with_room(&mut ranges, range);
        ReadLog::from_parts(ranges, Vec::new(alloc))
    }
}

// A key in a vector that has room for it.
fn filled(mut spare: Vec<u8>, key: &[u8]) -> Vec<u8>
    requires empty { (spare.items ≡ []) × (vec_len spare ≡ 0) }
    requires room { length key.now ≤ vec_capacity spare }
    ensures { result.items ≡ key.now }
{
    match spare.extend_from_slice(key) {
        Ok(()) => spare,
        Err(_) => unreachable!(),
    }
}
