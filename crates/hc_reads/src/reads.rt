ghost use Rattle.std.specs.Prelude.{◌≡◌, ℕ, List, [], ◌++◌, ◌⊎◌, ◌↔◌, IsTrue, IfOk, OnOk, OnErr, vec_len};
ghost use Rattle.hc_range.specs.Ranges.{InAny, InRange};
ghost use Rattle.hc_reads.specs.Gathered.{HaveSameKeys};

use crate::included::includes_all;
use crate::ranges::{copy_range, log_of, sort_ranges};
use hc_range::{NoMemory, Range, ReadLog};
use std::alloc::Global;
use std::marker::Model;

// Fewer ranges than these wait in any case.
const FEW: usize = 64;

/// The keys that a transaction has read. A contract sees a list of ranges, of which the keys count and not the order.
///
/// [`Reads::add`] copies the range. Once as many ranges wait as are in order, it sorts them and joins both, so that n
/// ranges cost n log n in all.
#[derive(Debug, Drop)]
pub struct Reads {
    // Those in order.
    log: ReadLog,
    // Those that wait, as they came.
    waiting: Vec<Range>,
    // Empty, with room for a key once a range was prepared.
    spare: Vec<u8>,
}

impl Model for Reads {
    ghost use Rattle.std.specs.Prelude.{◌≡◌, List, [], ◌++◌, vec_len};
    ghost use Rattle.hc_range.specs.declared.range.Range.{Range};

    ghost Value = { List Range };

    ghost view = { λ r. r.log ++ r.waiting.items };

    ghost invariant = { λ r. (r.spare.items ≡ []) × (vec_len r.spare ≡ 0) };
}

impl Reads {
    /// Nothing was read. It keeps the allocator, and takes no memory yet.
    pub fn new(alloc: Global) -> Reads
        ensures { result ≡ [] }
    {
        Reads {
            log: ReadLog::new(alloc),
            waiting: Vec::new(alloc),
            spare: Vec::new(alloc),
        }
    }

    pub(crate) fn into_parts(self) -> (ReadLog, Vec<Range>, Vec<u8>)
        ensures keys { result.0 ++ result.1.items ≡ self }
        ensures spare { (result.2.items ≡ []) × (vec_len result.2 ≡ 0) }
    {
        let Reads {
            log,
            waiting,
            spare,
        } = self;
        (log, waiting, spare)
    }

    pub(crate) fn from_parts(log: ReadLog, waiting: Vec<Range>, spare: Vec<u8>) -> Reads
        requires spare { (spare.items ≡ []) × (vec_len spare ≡ 0) }
        ensures { result ≡ log ++ waiting.items }
    {
        Reads {
            log,
            waiting,
            spare,
        }
    }

    /// Whether a log covers all that was read.
    pub fn is_within(&self, log: &ReadLog) -> bool
        ensures { IsTrue result ↔ ((key : List ℕ) → InAny self.now key → InAny log.now key) }
    {
        includes_all(log, self.log.ranges()) && includes_all(log, self.waiting.as_slice())
    }

    // Puts all in order where as many ranges wait as are in order.
    pub(crate) fn settle_many(&mut self) -> Result<(), NoMemory>
        ensures { HaveSameKeys self.old self.new }
    {
        if self.waiting.len() < FEW || self.waiting.len() < self.log.ranges().len() {
            return Ok(());
        }
        put_in_order(&mut self.log, &mut self.waiting)
    }

    /// Adds the keys of a range. When memory runs out the keys are as before.
    pub fn add(&mut self, range: &Range) -> Result<(), NoMemory>
        ensures added { OnOk result ((key : List ℕ) →
            InAny self.new key ↔ (InAny self.old key ⊎ InRange range.now key)) }
        ensures no_memory { OnErr result (HaveSameKeys self.old self.new) }
    {
        self.settle_many()?;
        let copy = copy_range(*self.waiting.allocator(), range)?;
        self.waiting.push(copy)?;
        Ok(())
    }

    /// All that was read, as a log.
    pub fn into_log(self) -> Result<ReadLog, NoMemory>
        ensures { IfOk result (HaveSameKeys self) }
    {
        let (mut log, mut waiting, _spare) = self.into_parts();
        put_in_order(&mut log, &mut waiting)?;
        Ok(log)
    }
}

// Puts the ranges that wait into the log. Without memory the keys are the same.
fn put_in_order(log: &mut ReadLog, waiting: &mut Vec<Range>) -> Result<(), NoMemory>
    ensures same { HaveSameKeys (log.old ++ waiting.old.items) (log.new ++ waiting.new.items) }
    ensures none { OnOk result (waiting.new.items ≡ []) }
{
    sort_ranges(waiting);
    let more = log_of(*waiting.allocator(), waiting.as_slice())?;
    log.join(more)?;
    waiting.clear();
    Ok(())
}
