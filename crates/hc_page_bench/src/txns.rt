//! Times of transactions that read and put nothing.
ghost use Rattle.std.specs.Prelude.{◌≡◌};

use crate::claims::exchanges;
use crate::timed::{Timed, report};
use hc_rows::Layout;
use hc_steps::Region;
use hc_test_txns::Lane;
use std::io;
use std::thread::{self, Threads};
use std::time::Instant;

const TURNS: u32 = 10;

// How many transactions a turn makes in one thread, and in four together.
const COMMITS: u32 = 60_000;

const EACH: u32 = 15_000;

fn layout() -> Layout
    ensures { (result.pages ≡ 2) × (result.numbers ≡ 2) × (result.transactions ≡ 60000) × (result.seats ≡ 5) }
{
    Layout {
        pages: 2,
        numbers: 2,
        transactions: 60_000,
        seats: 5,
    }
}

// Transactions that end as soon as they have begun.
fn visits(lane: &mut Lane<'_>, rounds: u32) -> u64 {
    let mut sum = 0u64;
    for _ in 0..rounds {
        sum = sum.wrapping_add(u64::from(lane.visit().0)).wrapping_add(1);
    }
    sum
}

// Transactions that commit, and the sum of their numbers.
fn commits(lane: &mut Lane<'_>, rounds: u32) -> u64 {
    let mut sum = 0u64;
    for _ in 0..rounds {
        if let Some(whole) = lane.run() {
            sum = sum.wrapping_add(u64::from(whole.number.0));
        }
    }
    sum
}

// A connection between transactions, and a checksum. Workers lie 128 bytes apart, as those that claim pages do.
#[derive(Drop)]
struct Worker<'a> {
    lane: Lane<'a>,
    sum: u64,
    apart: [u64; 16],
}

impl<'a> Worker<'a> {
    fn new(lane: Lane<'a>) -> Worker<'a> {
        Worker {
            lane,
            sum: 0,
            apart: [0; 16],
        }
    }
}

// What is timed in each turn.
#[derive(Clone, Copy)]
struct Times {
    exchange: Timed,
    visit: Timed,
    alone: Timed,
    behind: Timed,
    together: Timed,
}

impl Times {
    fn new() -> Times {
        Times {
            exchange: Timed::new(),
            visit: Timed::new(),
            alone: Timed::new(),
            behind: Timed::new(),
            together: Timed::new(),
        }
    }

    // Exchanges, and transactions that end at once, on a new region.
    fn time_visits(self, rt: &HostRuntime) -> io::Result<Times> {
        let (region, mut dealer) = Region::make(rt.alloc(), layout())?;
        let mut lane = Lane::new(region.deal(&mut dealer));
        let mut times = self;
        let start = Instant::now(rt)?;
        let sum = exchanges(COMMITS);
        times.exchange = times.exchange.with(sum, start.elapsed(rt)?);
        let start = Instant::now(rt)?;
        let sum = visits(&mut lane, COMMITS);
        times.visit = times.visit.with(sum, start.elapsed(rt)?);
        Ok(times)
    }

    // Commits in one thread on a new region, and then the first transactions of two connections that have seen none of them.
    fn time_alone(self, rt: &HostRuntime) -> io::Result<Times> {
        let (region, mut dealer) = Region::make(rt.alloc(), layout())?;
        let mut lane = Lane::new(region.deal(&mut dealer));
        let mut one = Lane::new(region.deal(&mut dealer));
        let mut other = Lane::new(region.deal(&mut dealer));
        let mut times = self;
        let start = Instant::now(rt)?;
        let sum = commits(&mut lane, COMMITS);
        times.alone = times.alone.with(sum, start.elapsed(rt)?);
        let start = Instant::now(rt)?;
        let sum = visits(&mut one, 1);
        times.behind = times.behind.with(sum, start.elapsed(rt)?);
        let start = Instant::now(rt)?;
        let sum = visits(&mut other, 1);
        times.behind = times.behind.with(sum, start.elapsed(rt)?);
        Ok(times)
    }

    // As many commits in four threads on a new region.
    fn time_together<T: Threads + Sync>(self, rt: &HostRuntime, threads: &T) -> io::Result<Times> {
        let (region, mut dealer) = Region::make(rt.alloc(), layout())?;
        let mut workers = [
            Worker::new(Lane::new(region.deal(&mut dealer))),
            Worker::new(Lane::new(region.deal(&mut dealer))),
            Worker::new(Lane::new(region.deal(&mut dealer))),
            Worker::new(Lane::new(region.deal(&mut dealer))),
        ];
        let mut times = self;
        let start = Instant::now(rt)?;
        thread::for_each_mut(
            threads,
            &mut workers,
            4,
            &|_, worker| {
                worker.sum = commits(&mut worker.lane, EACH);
            },
        );
        times.together = times.together.with(0, start.elapsed(rt)?);
        for worker in &workers {
            times.together.sum = times.together.sum.wrapping_add(worker.sum);
        }
        Ok(times)
    }

    // The first transaction of a connection that has seen nothing, as if there were as many of them as exchanges.
    fn scaled(self) -> Timed {
        Timed {
            sum: self.behind.sum,
            least: self.behind.least.saturating_mul(u128::from(COMMITS)),
        }
    }
}

/// Transactions that end at once, that commit, in one thread and in four, and the first one of a connection that is 60,000
/// commits behind, as ratios to a compare-and-exchange.
pub fn time_txns<T: Threads + Sync>(rt: &HostRuntime, threads: &T) -> io::Result<()> {
    let mut times = Times::new();
    for _ in 0..TURNS {
        times = times.time_visits(rt)?;
        times = times.time_alone(rt)?;
        times = times.time_together(rt, threads)?;
    }
    let unit = "a compare-and-exchange";
    let one = times.exchange;
    report(rt, "transactions that end at once", times.visit, unit, one)?;
    report(rt, "transactions that commit", times.alone, unit, one)?;
    report(
        rt,
        "first transactions after 60,000 commits",
        times.scaled(),
        unit,
        one,
    )?;
    report(
        rt,
        "transactions that commit in four threads",
        times.together,
        "those in one",
        times.alone,
    )
}
