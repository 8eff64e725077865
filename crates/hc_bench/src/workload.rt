// The keys are the numbers from 0 on, as four bytes with the highest first, so that byte order is the
// order of numbers. Each range holds one even number, so no two of them touch.
ghost use Rattle.std.specs.Prelude.{◌<◌};

use hc_range::{Bytes, NoMemory, Range, ReadLog};
use std::alloc::Global;

const ASCENDING: u32 = 100_000;

const SCATTERED: u32 = 10_000;

fn range(alloc: Global, number: u32) -> Result<Range, NoMemory> {
    let lo = Bytes::from_slice(alloc, &number.to_be_bytes())?;
    let hi = Bytes::from_slice(alloc, &number.saturating_add(1).to_be_bytes())?;
    Ok(Range { lo, hi: Some(hi) })
}

pub fn ascending(alloc: Global) -> Result<ReadLog, NoMemory> {
    let mut log = ReadLog::new(alloc);
    for i in 0..ASCENDING {
        log.add(&range(alloc, 2 * i)?)?;
    }
    Ok(log)
}

// The places come from a linear congruential generator, which goes through all of them once.
pub fn scattered(alloc: Global) -> Result<ReadLog, NoMemory> {
    let mut log = ReadLog::new(alloc);
    let mut place = 0;
    for _ in 0..SCATTERED {
        place = next_place(place);
        log.add(&range(alloc, 2 * place)?)?;
    }
    Ok(log)
}

fn next_place(place: u32) -> u32
    ensures { result < 10000 }
{
    (place % SCATTERED * 4821 + 7) % SCATTERED
}

// How many of the numbers below 200,000 are covered.
pub fn count_covered(log: &ReadLog) -> usize {
    let mut covered: usize = 0;
    for number in 0..2 * ASCENDING {
        if log.covers(&number.to_be_bytes()) {
            covered = covered.saturating_add(1);
        }
    }
    covered
}
