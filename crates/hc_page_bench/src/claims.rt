//! Rounds of steps on a region.
ghost use Rattle.std.specs.Prelude.{◌≡◌, true};
ghost use Rattle.hc_rows.specs.Places.{HasPage};
ghost use Rattle.hc_rule.specs.Holders.{IsRegistered};
ghost use Rattle.hc_pool.specs.Registering.{IsIdleSeat};
ghost use Rattle.hc_page_bench.specs.Snapshots.{has_snapshot};

use hc_base::{Cid, Page, Phys};
use hc_pool::{claim, give_back, register};
use hc_steps::Grip;
use std::sync::atomic::{AtomicU64, Ordering};

/// The grip of a connection whose seat is registered.
#[derive(Drop)]
pub struct Claimer<'a> {
    pub grip: Grip<'a>,
    ghost registered: { has_snapshot grip.seat.me.0.stage ≡ true },
}

impl<'a> Claimer<'a> {
    pub fn new(mut grip: Grip<'a>) -> Claimer<'a>
        requires idle { IsIdleSeat grip.seat.me.0 }
    {
        register(&mut grip);
        Claimer { grip }
    }

    /// Reads of the row of page 1.
    pub fn reads(&mut self, rounds: u32) -> u64 {
        let mut page = Page { words: [0; 256] };
        let mut sum = 0u64;
        for _ in 0..rounds {
            sum = sum.wrapping_add(self.read(&mut page));
        }
        sum
    }

    fn read(&mut self, page: &mut Page) -> u64 {
        self.grip.read_page(Phys(1), page);
        page.words[1]
    }

    /// Writes of one row and another in turn to a page that was claimed.
    pub fn writes(&mut self, one: &Page, other: &Page, rounds: u32) -> u64 {
        writes(&mut self.grip, one, other, rounds)
    }

    /// Claims of a page, each of which is given back.
    pub fn claims(&mut self, rounds: u32) -> u64 {
        claims(&mut self.grip, rounds)
    }
}

/// Compare-and-exchanges of one word by one thread.
pub fn exchanges(rounds: u32) -> u64 {
    let word = AtomicU64::new(0);
    let mut won = 0u64;
    for round in 0..u64::from(rounds) {
        if word
            .compare_exchange(round, round + 1, Ordering::SeqCst, Ordering::SeqCst)
            .is_ok()
        {
            won = won.wrapping_add(1);
        }
    }
    won
}

fn writes(grip: &mut Grip<'_>, one: &Page, other: &Page, rounds: u32) -> u64
    requires registered { IsRegistered grip.old.seat.me.0.stage }
    ensures registered { IsRegistered grip.new.seat.me.0.stage }
{
    let Ok(p) = claim(grip, Cid(0)) else {
        return 0;
    };
    'turns: for _ in 0..rounds / 2 {
        grip.write_page(p, one);
        grip.write_page(p, other);
    }
    let sum = grip.load_row(p, 255);
    give_back(grip, p);
    sum
}

fn claims(grip: &mut Grip<'_>, rounds: u32) -> u64
    requires registered { IsRegistered grip.old.seat.me.0.stage }
    ensures registered { IsRegistered grip.new.seat.me.0.stage }
{
    let mut sum = 0u64;
    'rounds: for _ in 0..rounds {
        sum = sum.wrapping_add(claim_one(grip));
    }
    sum
}

// Claims a page and gives it back: its number, and 0 where there is none.
fn claim_one(grip: &mut Grip<'_>) -> u64
    requires registered { IsRegistered grip.old.seat.me.0.stage }
    ensures registered { IsRegistered grip.new.seat.me.0.stage }
{
    match claim(grip, Cid(0)) {
        Ok(p) => {
            give_back(grip, p);
            u64::from(p.0)
        }
        Err(_) => 0,
    }
}
