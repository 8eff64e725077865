//! Workers in threads of their own commit transactions that read and put nothing.
ghost use Rattle.hc_rows.specs.Places.{HasPlace};
ghost use Rattle.hc_steps.specs.Same.{IsSame};

use hc_base::{Cid, TidWord};
use hc_steps::Grip;
use hc_test_txns::{Lane, Whole};
use hc_tidlog::state_of;

const ROUNDS: u32 = 10_000;

// A connection's lane, the numbers that it won, how many of its transactions were otherwise than they should be, and the last.
#[derive(Drop)]
struct Worker<'a> {
    lane: Lane<'a>,
    won: Vec<u32>,
    wrong: u32,
    last: Cid,
    snapshot: Cid,
}

impl<'a> Worker<'a> {
    fn work(&mut self) {
        for round in 0..ROUNDS {
            match self.lane.run() {
                Some(whole) => self.note(round, whole),
                None => self.fail(),
            }
        }
    }

    fn fail(&mut self) {
        self.wrong = self.wrong.saturating_add(1);
    }

    // Numbers ascend. A snapshot is below the number that is won, and not below the one before.
    fn note(&mut self, round: u32, whole: Whole) {
        let snapshot = whole.snapshot.0;
        let number = whole.number.0;
        if number <= self.last.0 || number <= snapshot || snapshot < self.snapshot.0 {
            self.fail();
        }
        self.last = whole.number;
        self.snapshot = whole.snapshot;
        match self.won.get_mut(round as usize) {
            Some(slot) => *slot = number,
            None => self.fail(),
        }
    }
}

// Counts a number, where there is a place for it.
fn count(times: &mut [u32], number: u32) {
    if let Some(slot) = times.get_mut(number as usize) {
        *slot = slot.saturating_add(1);
    }
}

// How many places but the first have been counted once.
fn once(times: &[u32]) -> u32 {
    let mut all = 0u32;
    for (place, n) in times.iter().enumerate() {
        if place > 0 && *n == 1 {
            all = all.saturating_add(1);
        }
    }
    all
}

// The id that the log has at a number, where it is committed there as its state says; else 0.
fn id_at(grip: &mut Grip<'_>, number: u32) -> u32
    requires place { HasPlace grip.old.layout number }
    ensures same { IsSame grip.old grip.new }
{
    let Some(t) = grip.load_log(Cid(number)) else {
        return 0;
    };
    match state_of(grip, t) {
        TidWord::Committed { c, .. } => { if c.0 == number { t.0 } else { 0 } }
        _ => 0,
    }
}

// Counts the ids of the log.
fn count_ids(grip: &mut Grip<'_>, times: &mut [u32]) {
    for number in 1..grip.layout.transactions + 1 {
        let id = id_at(grip, number);
        count(times, id);
    }
}

#[cfg(test)]
mod tests {
    use super::*;
    use hc_rows::Layout;
    use hc_steps::Region;
    use hc_tidlog::log_end;
    use std::test::Fail;
    use std::thread;

    // What each worker wins depends on the schedule, and what is compared does not: the numbers are 1 to 40,000, each once,
    // and so are the ids.
    #[test]
    fn four_workers_share_the_log(rt: HostRuntime) -> Result<(), Fail> {
        let layout = Layout {
            pages: 2,
            numbers: 2,
            transactions: 40_000,
            seats: 5,
        };
        let (region, mut dealer) = Region::make(rt.alloc(), layout)?;
        let mut workers = [
            Worker {
                lane: Lane::new(region.deal(&mut dealer)),
                won: vec![in rt.alloc(); 0u32; 10_000]?,
                wrong: 0,
                last: Cid(0),
                snapshot: Cid(0),
            },
            Worker {
                lane: Lane::new(region.deal(&mut dealer)),
                won: vec![in rt.alloc(); 0u32; 10_000]?,
                wrong: 0,
                last: Cid(0),
                snapshot: Cid(0),
            },
            Worker {
                lane: Lane::new(region.deal(&mut dealer)),
                won: vec![in rt.alloc(); 0u32; 10_000]?,
                wrong: 0,
                last: Cid(0),
                snapshot: Cid(0),
            },
            Worker {
                lane: Lane::new(region.deal(&mut dealer)),
                won: vec![in rt.alloc(); 0u32; 10_000]?,
                wrong: 0,
                last: Cid(0),
                snapshot: Cid(0),
            },
        ];
        thread::for_each_mut(&rt, &mut workers, 4, &|_, worker| worker.work());
        let mut numbers = vec![in rt.alloc(); 0u32; 40_001]?;
        for worker in &workers {
            assert_eq!(rt; worker.wrong, 0);
            for number in worker.won.iter() {
                count(numbers.as_mut_slice(), *number);
            }
        }
        assert_eq!(rt; once(numbers.as_slice()), 40_000);
        let mut ids = vec![in rt.alloc(); 0u32; 40_001]?;
        let mut reader = region.deal(&mut dealer);
        count_ids(&mut reader, ids.as_mut_slice());
        assert_eq!(rt; once(ids.as_slice()), 40_000);
        assert_eq!(rt; log_end(&mut reader), Cid(40_000));
        Ok(())
    }
}
