//! Times the reading of SQL, and sums up its answers.
//!
//! Without arguments it prints a sum of the answers on all texts of up to three signs and on some thousand longer ones,
//! and what is in two scripts, one of which it times. Its modes, for `bench/parse.sh`:
//!
//! - `times N`: a script of N bytes, and how long its parts take;
//! - `shape NAME N`: one statement of N bytes of this shape; `text NAME N` only makes its text;
//! - `levels NAME`: a statement with 100 levels of this kind, and one with 101;
//! - `answers N`: the sum of answers on N times two texts that are put together by chance.
#![tactic(auto)]

mod answers;
mod reading;
mod script;
mod shapes;

use crate::answers::{of_chance, of_signs};
use crate::reading::{count_statements, is_statement, read_script, read_tokens};
use crate::script::ordinary;
use crate::shapes::{Shape, long, nested};
use std::time::{Duration, Instant};
use std::{env, io};

const TURNS: u32 = 5;

fn main(rt: HostRuntime) -> io::Result<()> {
    let mut words = Vec::new(rt.alloc());
    for word in env::args(&rt)?.skip(1) {
        words.push(word)?;
    }
    match words.as_slice() {
        [mode, count] if mode.as_str() == "times" => times(&rt, number(count)),
        [mode, count] if mode.as_str() == "answers" => chance(&rt, number(count) as u64),
        [mode, name] if mode.as_str() == "levels" => levels(&rt, name),
        [mode, name, count] if mode.as_str() == "shape" => measure(&rt, name, number(count), true),
        [mode, name, count] if mode.as_str() == "text" => measure(&rt, name, number(count), false),
        _ => sample(&rt),
    }
}

fn number(word: &String) -> usize {
    word.as_str().parse::<usize>().unwrap_or(0)
}

// What is compared from build to build.
fn sample(rt: &HostRuntime) -> io::Result<()> {
    let alloc = rt.alloc();
    let signs = of_signs(alloc, 0, "", 3)?;
    println!(rt; "texts of up to three signs: {signs:x}")?;
    let signs = of_signs(alloc, 0, "SELECT 1 ", 2)?;
    println!(rt; "after a query's item: {signs:x}")?;
    chance(rt, 2000)?;
    let text = ordinary(alloc, 20_000)?;
    let statements = count_statements(alloc, text.as_str())?;
    let trees = read_script(alloc, text.as_str())?;
    println!(rt; "a script: {statements} statements, {trees} of them read")?;
    times(rt, 500_000)
}

fn chance(rt: &HostRuntime, count: u64) -> io::Result<()> {
    let sum = of_chance(rt.alloc(), 0, count)?;
    println!(rt; "texts by chance: {sum:x}")
}

// How long it takes to cut a script, to read its tokens, and to read its trees and drop them: the least of all turns, so
// that what else the machine does counts little.
fn times(rt: &HostRuntime, length: usize) -> io::Result<()> {
    let alloc = rt.alloc();
    let text = ordinary(alloc, length)?;
    let mut cuts = Timed::new();
    let mut tokens = Timed::new();
    let mut trees = Timed::new();
    for _ in 0..TURNS {
        let start = Instant::now(rt)?;
        let count = count_statements(alloc, text.as_str())?;
        cuts = cuts.with(count, start.elapsed(rt)?);
        let start = Instant::now(rt)?;
        let count = read_tokens(alloc, text.as_str())?;
        tokens = tokens.with(count, start.elapsed(rt)?);
        let start = Instant::now(rt)?;
        let count = read_script(alloc, text.as_str())?;
        trees = trees.with(count, start.elapsed(rt)?);
    }
    report(rt, "statements cut", cuts)?;
    report(rt, "tokens, with the cut", tokens)?;
    report(rt, "trees, with cut, tokens and drop", trees)?;
    let alone = tokens.least.saturating_sub(cuts.least).max(1);
    let hundredths = trees.least.saturating_mul(100) / alone;
    eprintln!(rt; "cut, tokens, tree and drop together: {hundredths} hundredths of tokens alone")
}

// How often a part of a script was found, and the least time of a turn.
#[derive(Clone, Copy)]
struct Timed {
    count: usize,
    least: u128,
}

impl Timed {
    fn new() -> Timed {
        Timed {
            count: 0,
            least: u128::MAX,
        }
    }

    fn with(self, count: usize, time: Duration) -> Timed {
        Timed {
            count,
            least: self.least.min(time.as_micros()),
        }
    }
}

fn report(rt: &HostRuntime, what: &str, timed: Timed) -> io::Result<()> {
    let Timed { count, least } = timed;
    println!(rt; "{count} {what}")?;
    eprintln!(rt; "{count} {what}: {least} microseconds")
}

fn named(shapes: &[Shape], name: &str) -> Option<Shape> {
    for shape in shapes {
        if shape.name == name {
            return Some(*shape);
        }
    }
    None
}

fn measure(rt: &HostRuntime, name: &str, length: usize, is_read: bool) -> io::Result<()> {
    let alloc = rt.alloc();
    let Some(shape) = named(long(alloc)?.as_slice(), name) else {
        return println!(rt; "no such shape");
    };
    let text = shape.text(alloc, length)?;
    let is_read = is_read && is_statement(alloc, text.as_str())?;
    println!(rt; "{} {} {is_read}", shape.name, text.len())
}

fn levels(rt: &HostRuntime, name: &str) -> io::Result<()> {
    let alloc = rt.alloc();
    let Some(shape) = named(nested(alloc)?.as_slice(), name) else {
        return println!(rt; "no such kind of level");
    };
    let most = is_statement(alloc, shape.levels(alloc, 100)?.as_str())?;
    let more = is_statement(alloc, shape.levels(alloc, 101)?.as_str())?;
    println!(rt; "{} {most} {more}", shape.name)
}
