//! Times of steps on a region, and of its making.
ghost use Rattle.std.specs.Prelude.{◌≡◌};

use crate::claims::{Claimer, exchanges};
use crate::rounds::copies;
use crate::timed::{Timed, report};
use hc_base::Page;
use hc_rows::Layout;
use hc_steps::Region;
use std::io;
use std::thread::{self, Threads};
use std::time::Instant;

// Rows are read and written in many short turns, so that some turn is not interrupted.
const ROW_TURNS: u32 = 200;

const ROWS: u32 = 500;

// How many claims a turn makes: so many that the start of a thread counts little. And how many turns there are: in some
// of them no thread is interrupted.
const CLAIMS: u32 = 100_000;

const CLAIM_TURNS: u32 = 100;

const MAKINGS: u32 = 3;

fn small() -> Layout
    ensures { (result.pages ≡ 66) × (result.numbers ≡ 2) × (result.transactions ≡ 1) × (result.seats ≡ 5) }
{
    Layout {
        pages: 66,
        numbers: 2,
        transactions: 1,
        seats: 5,
    }
}

// Five connections begin to claim 205 pages apart, so that the words of their pages lie 1,640 bytes apart.
fn wide() -> Layout
    ensures { (result.pages ≡ 1025) × (result.numbers ≡ 2) × (result.transactions ≡ 1) × (result.seats ≡ 5) }
{
    Layout {
        pages: 1_025,
        numbers: 2,
        transactions: 1,
        seats: 5,
    }
}

fn large() -> Layout
    ensures { (result.pages ≡ 32768) × (result.numbers ≡ 65536) × (result.transactions ≡ 1024) × (result.seats ≡ 4) }
{
    Layout {
        pages: 32_768,
        numbers: 65_536,
        transactions: 1_024,
        seats: 4,
    }
}

// A row that differs from another one in each of so many words, evenly spread.
fn rows(every: usize) -> (Page, Page) {
    let one = Page { words: [1; 256] };
    let mut other = one;
    for word in 0..256usize {
        if every > 0 && word % every == 0 {
            other.words[word] = 2;
        }
    }
    (one, other)
}

/// Reads and writes of whole rows, as ratios to the copy of a page.
pub fn time_rows(rt: &HostRuntime) -> io::Result<()> {
    let (region, mut dealer) = Region::make(rt.alloc(), small())?;
    let mut claimer = Claimer::new(region.deal(&mut dealer));
    let (one, few) = rows(8);
    let (_, all) = rows(1);
    let mut copy = Timed::new();
    let mut read = Timed::new();
    let mut write_few = Timed::new();
    let mut write_all = Timed::new();
    for _ in 0..ROW_TURNS {
        let start = Instant::now(rt)?;
        let sum = copies(ROWS);
        copy = copy.with(sum, start.elapsed(rt)?);
        let start = Instant::now(rt)?;
        let sum = claimer.reads(ROWS);
        read = read.with(sum, start.elapsed(rt)?);
        let start = Instant::now(rt)?;
        let sum = claimer.writes(&one, &few, ROWS);
        write_few = write_few.with(sum, start.elapsed(rt)?);
        let start = Instant::now(rt)?;
        let sum = claimer.writes(&one, &all, ROWS);
        write_all = write_all.with(sum, start.elapsed(rt)?);
    }
    report(rt, "reads of a row", read, "a copy", copy)?;
    report(
        rt,
        "writes of a row, 32 words of which differ",
        write_few,
        "a copy",
        copy,
    )?;
    report(
        rt,
        "writes of a row, all words of which differ",
        write_all,
        "a copy",
        copy,
    )
}

// A registered connection's grip, and a checksum of what it claimed. 256 bytes lie between what two workers write, so that they
// share no line of the processors' caches; that this is what makes four threads slower than one was not shown.
#[derive(Drop)]
struct Worker<'a> {
    before: [u64; 16],
    claimer: Claimer<'a>,
    sum: u64,
    after: [u64; 16],
}

impl<'a> Worker<'a> {
    fn new(claimer: Claimer<'a>) -> Worker<'a> {
        Worker {
            before: [0; 16],
            claimer,
            sum: 0,
            after: [0; 16],
        }
    }
}

/// Claims of one page that is given back, in one thread and in four, as ratios to a compare-and-exchange.
pub fn time_steps<T: Threads + Sync>(rt: &HostRuntime, threads: &T) -> io::Result<()> {
    let (region, mut dealer) = Region::make(rt.alloc(), wide())?;
    let mut claimer = Claimer::new(region.deal(&mut dealer));
    let mut workers = [
        Worker::new(Claimer::new(region.deal(&mut dealer))),
        Worker::new(Claimer::new(region.deal(&mut dealer))),
        Worker::new(Claimer::new(region.deal(&mut dealer))),
        Worker::new(Claimer::new(region.deal(&mut dealer))),
    ];
    let mut exchange = Timed::new();
    let mut alone = Timed::new();
    let mut together = Timed::new();
    for _ in 0..CLAIM_TURNS {
        let start = Instant::now(rt)?;
        let sum = exchanges(CLAIMS);
        exchange = exchange.with(sum, start.elapsed(rt)?);
        let start = Instant::now(rt)?;
        let sum = claimer.claims(CLAIMS);
        alone = alone.with(sum, start.elapsed(rt)?);
        let start = Instant::now(rt)?;
        thread::for_each_mut(
            threads,
            &mut workers,
            4,
            &|_, worker| {
                worker.sum = worker.claimer.claims(CLAIMS);
            },
        );
        together = together.with(0, start.elapsed(rt)?);
        for worker in &workers {
            together.sum = together.sum.wrapping_add(worker.sum);
        }
    }
    report(
        rt,
        "claims of a page that is given back",
        alone,
        "a compare-and-exchange",
        exchange,
    )?;
    report(
        rt,
        "the same in four threads",
        together,
        "the same in one",
        alone,
    )
}

// Makes a region, and answers how many words it has.
fn make(rt: &HostRuntime) -> io::Result<u64> {
    let (region, _) = Region::make(rt.alloc(), large())?;
    Ok(region.layout.total())
}

// Makes a vector of as many zeros.
fn zeros(rt: &HostRuntime) -> io::Result<u64> {
    let words = vec![in rt.alloc(); 0u64; large().total() as usize]?;
    Ok(words.len() as u64)
}

/// The making of a region of 32,768 pages, as a ratio to that of a vector of as many zeros.
pub fn time_making(rt: &HostRuntime) -> io::Result<()> {
    let mut zero = Timed::new();
    let mut made = Timed::new();
    for _ in 0..MAKINGS {
        let start = Instant::now(rt)?;
        let sum = zeros(rt)?;
        zero = zero.with(sum, start.elapsed(rt)?);
        let start = Instant::now(rt)?;
        let sum = make(rt)?;
        made = made.with(sum, start.elapsed(rt)?);
    }
    report(rt, "words of vectors of zeros", zero, "itself", zero)?;
    report(
        rt,
        "words of regions that are made",
        made,
        "a vector of as many zeros",
        zero,
    )
}
