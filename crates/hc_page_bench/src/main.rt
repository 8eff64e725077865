//! Times look-ups in a leaf, puts into it, plans, and steps on a region, as ratios to the copy of an array of 2,048 bytes, to a
//! compare-and-exchange, and to a vector of zeros. Checksums go to standard output, ratios to standard error.
#![tactic(auto)]

mod claims;
mod leaf;
mod plans;
mod region;
mod rounds;
mod timed;
mod txns;

use crate::leaf::{full_leaf, key};
use crate::plans::time_plans;
use crate::region::{time_making, time_rows, time_steps};
use crate::rounds::{copies, looked_up, puts};
use crate::timed::{Timed, report};
use crate::txns::time_txns;
use std::io;
use std::time::Instant;

const TURNS: u32 = 40;

const ROUNDS: u32 = 5_000;

fn main(rt: HostRuntime) -> io::Result<()> {
    time_leaf(&rt)?;
    time_plans(&rt)?;
    time_rows(&rt)?;
    time_steps(&rt, &rt)?;
    time_txns(&rt, &rt)?;
    time_making(&rt)
}

fn time_leaf(rt: &HostRuntime) -> io::Result<()> {
    let leaf = full_leaf();
    let mut copy = Timed::new();
    let mut find = Timed::new();
    let mut new = Timed::new();
    let mut there = Timed::new();
    for _ in 0..TURNS {
        let start = Instant::now(rt)?;
        let sum = copies(ROUNDS);
        copy = copy.with(sum, start.elapsed(rt)?);
        let start = Instant::now(rt)?;
        let sum = looked_up(&leaf, ROUNDS);
        find = find.with(sum, start.elapsed(rt)?);
        let start = Instant::now(rt)?;
        let sum = puts(&leaf, key(41), ROUNDS);
        new = new.with(sum, start.elapsed(rt)?);
        let start = Instant::now(rt)?;
        let sum = puts(&leaf, key(10), ROUNDS);
        there = there.with(sum, start.elapsed(rt)?);
    }
    report(rt, "copies", copy, "a copy", copy)?;
    report(rt, "look-ups", find, "a copy", copy)?;
    report(rt, "puts of a new key", new, "a copy", copy)?;
    report(rt, "puts of a key that is there", there, "a copy", copy)
}
