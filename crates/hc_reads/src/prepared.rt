// A range is added in two steps: the first takes the memory, the second takes none.
ghost use Rattle.std.specs.Prelude.{◌≡◌, ◌≤◌, ◌<◌, ◌++◌, ◌∷◌, ℕ, List, [], Some, length, ◌⊎◌, ◌↔◌, vec_len, vec_capacity, IfOk, IfErr, OnOk};
ghost use Rattle.hc_range.specs.Ranges.{InAny, InRange};
ghost use Rattle.hc_reads.specs.Gathered.{HaveSameKeys, IsPreparedFor};

use crate::Reads;
use crate::ranges::copy_range;
use hc_range::{Bytes, LONGEST_KEY, NoMemory, Range, ReadLog};
use std::marker::Model;

/// What was read, with room for one more range, of which as much as was read is added. A contract sees the ranges and the
/// one that there is room for.
#[derive(Debug, Drop)]
pub struct Prepared {
    log: ReadLog,
    waiting: Vec<Range>,
    // Where a key goes that cuts the range.
    spare: Vec<u8>,
    range: Range,
}

impl Model for Prepared {
    ghost use Rattle.std.specs.Prelude.{◌≡◌, ◌<◌, ◌≤◌, ◌++◌, [], vec_len, vec_capacity};
    ghost use Rattle.hc_range.specs.Prepared.{Preparation};

    ghost Value = { Preparation };

    ghost view = { λ p. record { log = p.log ++ p.waiting.items; range = p.range } };

    ghost invariant = { λ p. (vec_len p.waiting < vec_capacity p.waiting) × (p.spare.items ≡ []) × (vec_len p.spare ≡ 0) × (463 ≤ vec_capacity p.spare) };
}

// Memory for what is added later: the range, a place in the list, and a key.
fn take_room(
    waiting: &mut Vec<Range>,
    spare: &mut Vec<u8>,
    range: &Range,
) -> Result<Range, NoMemory>
    requires { vec_len spare.old ≡ 0 }
    ensures waiting { waiting.new.items ≡ waiting.old.items }
    ensures spare { spare.new.items ≡ spare.old.items }
    ensures len { vec_len spare.new ≡ vec_len spare.old }
    ensures copy { IfOk result (λ copy. copy ≡ range.now) }
    ensures room { OnOk result ((vec_len waiting.new < vec_capacity waiting.new) × (463 ≤ vec_capacity spare.new)) }
{
    let copy = copy_range(*waiting.allocator(), range)?;
    waiting.reserve(1)?;
    spare.reserve(LONGEST_KEY)?;
    Ok(copy)
}

// A list with a range more, for which there is room.
fn with_range(mut waiting: Vec<Range>, range: Range) -> Vec<Range>
    requires { vec_len waiting < vec_capacity waiting }
    ensures { result.items ≡ waiting.items ++ range ∷ [] }
{
    match waiting.push(range) {
        Ok(()) => waiting,
        Err(_) => unreachable!(),
    }
}

// A key in a vector that has room for it.
fn filled(mut spare: Vec<u8>, key: &[u8]) -> Vec<u8>
    requires empty { (spare.items ≡ []) × (vec_len spare ≡ 0) }
    requires room { length key.now ≤ vec_capacity spare }
    ensures { result.items ≡ key.now }
{
    match spare.extend_from_slice(key) {
        Ok(()) => spare,
        Err(_) => unreachable!(),
    }
}

impl Reads {
    /// Takes the memory that is needed to add the keys of a range, or of its part from some key on or below some key. Where
    /// it is missing what was read is given back, with the keys that it had.
    pub fn prepare(mut self, range: &Range) -> Result<Prepared, Reads>
        ensures prepared { IfOk result (IsPreparedFor self range.now) }
        ensures no_memory { IfErr result (HaveSameKeys self) }
    {
        if self.settle_many().is_err() {
            return Err(self);
        }
        let (log, mut waiting, mut spare) = self.into_parts();
        match take_room(&mut waiting, &mut spare, range) {
            Ok(range) => Ok(Prepared {
                log,
                waiting,
                spare,
                range,
            }),
            Err(_) => Err(Reads::from_parts(log, waiting, spare)),
        }
    }
}

impl Prepared {
    /// What was read before.
    pub fn cancel(self) -> Reads
        ensures { result ≡ self.log }
    {
        let Prepared {
            log,
            waiting,
            spare,
            range: _range,
        } = self;
        Reads::from_parts(log, waiting, spare)
    }

    /// The keys of the whole range are added. It takes no memory.
    pub fn unite(self) -> Reads
        ensures { (key : List ℕ) → InAny result key ↔ (InAny self.log key ⊎ InRange self.range key) }
    {
        let Prepared {
            log,
            waiting,
            spare,
            range,
        } = self;
        Reads::from_parts(log, with_range(waiting, range), spare)
    }

    /// The keys of the range below some key are added. It takes no memory.
    pub fn unite_below(self, key: &[u8]) -> Reads
        requires { length key.now ≤ 463 }
        ensures { (k : List ℕ) → InAny result k ↔ (InAny self.log k ⊎ InRange (record { lo = self.range.lo; hi = Some key.now }) k) }
    {
        let Prepared {
            log,
            waiting,
            spare,
            range,
        } = self;
        let alloc = *waiting.allocator();
        let Range { lo, hi: _hi } = range;
        let hi = Some(Bytes::from_vec(filled(spare, key)));
        Reads::from_parts(log, with_range(waiting, Range { lo, hi }), Vec::new(alloc))
    }

    /// The keys of the range from some key on are added. It takes no memory.
    pub fn unite_from(self, key: &[u8]) -> Reads
        requires { length key.now ≤ 463 }
        ensures { (k : List ℕ) → InAny result k ↔ (InAny self.log k ⊎ InRange (record { lo = key.now; hi = self.range.hi }) k) }
    {
        let Prepared {
            log,
            waiting,
            spare,
            range,
        } = self;
        let alloc = *waiting.allocator();
        let Range { lo: _lo, hi } = range;
        let lo = Bytes::from_vec(filled(spare, key));
        Reads::from_parts(log, with_range(waiting, Range { lo, hi }), Vec::new(alloc))
    }
}
