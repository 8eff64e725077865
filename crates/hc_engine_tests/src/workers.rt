//! Workers in threads of their own claim pages, write into them and give them back.
ghost use Rattle.std.specs.Prelude.{◌≡◌, [], true, IsTrue};
ghost use Rattle.hc_base.specs.declared.seat_word.SeatWord.TheVariants.{Idle};
ghost use Rattle.hc_rule.specs.Holders.{IsRegistered};
ghost use Rattle.hc_rule.specs.Kinds.LoadLog.{own_txns};
ghost use Rattle.hc_pool.specs.Registering.{IsIdleSeat};
ghost use Rattle.hc_steps.specs.Same.{IsAlike};
ghost use Rattle.hc_engine_tests.specs.Holding.{KeepsRest, has_ended};

use hc_base::{Cid, PageWord, Phys};
use hc_pool::{claim, give_back, leave, register};
use hc_steps::Grip;

const ROUNDS: u32 = 100_000;

const MOST: u32 = 20;

// The word of each row that is written.
const WORD: u16 = 17;

// The grip of a connection whose seat is idle, and how many rounds read a word otherwise than they wrote it.
#[derive(Drop)]
struct Worker<'a> {
    grip: Grip<'a>,
    wrong: u32,
    ghost idle: { grip.seat.me.0.stage ≡ Idle },
    ghost ended: { has_ended (own_txns grip.seat.me.0) ≡ true },
}

impl<'a> Worker<'a> {
    fn work(&mut self) {
        self.wrong = visit(&mut self.grip, ROUNDS);
    }
}

// Registers a seat, holds pages for so many rounds, and leaves, owning none: in how many rounds a word was read otherwise than
// it was written.
fn visit(grip: &mut Grip<'_>, count: u32) -> u32
    requires idle { IsIdleSeat grip.old.seat.me.0 }
    ensures idle { IsIdleSeat grip.new.seat.me.0 }
    ensures none { grip.new.seat.me.0.pages ≡ [] }
    ensures same { IsAlike grip.old grip.new }
{
    register(grip);
    let wrong = rounds(grip, count);
    leave(grip);
    wrong
}

fn rounds(grip: &mut Grip<'_>, count: u32) -> u32
    requires registered { IsRegistered grip.old.seat.me.0.stage }
    ensures kept { KeepsRest grip.old.seat.me.0 grip.new.seat.me.0 }
    ensures same { IsAlike grip.old grip.new }
{
    let mut wrong = 0u32;
    'rounds: for _ in 0..count {
        if !hold(grip, MOST) {
            wrong = wrong.saturating_add(1);
        }
    }
    wrong
}

// Claims pages, at most so many and as far as there are free ones, and writes the own number into each. Once all are
// written, each is read and given back. Whether each word was read as it was written.
fn hold(grip: &mut Grip<'_>, most: u32) -> bool
    requires registered { IsRegistered grip.old.seat.me.0.stage }
    ensures read { IsTrue result }
    ensures kept { KeepsRest grip.old.seat.me.0 grip.new.seat.me.0 }
    ensures same { IsAlike grip.old grip.new }
{
    if most == 0 {
        return true;
    }
    let Ok(p) = claim(grip, Cid(0)) else {
        return true;
    };
    let number = u64::from(grip.conn) + 1;
    grip.store_row(p, WORD, number);
    let others = hold(grip, most - 1);
    let read = grip.load_row(p, WORD);
    give_back(grip, p);
    others && read == number
}

// How many pages of the region are found free.
fn free_pages(grip: &mut Grip<'_>) -> u32
    requires idle { IsIdleSeat grip.old.seat.me.0 }
    ensures idle { IsIdleSeat grip.new.seat.me.0 }
{
    let mut free = 0u32;
    for number in 1..grip.layout.pages + 1 {
        if let PageWord::Free = grip.load_page(Phys(number)) {
            free = free.saturating_add(1);
        }
    }
    free
}

#[cfg(test)]
mod tests {
    use super::*;
    use hc_rows::Layout;
    use hc_steps::Region;
    use std::test::Fail;
    use std::thread;

    // Two of four pages are free, and again once the seat has left.
    #[test]
    fn a_seat_that_leaves_owns_no_page(rt: HostRuntime) -> Result<(), Fail> {
        let layout = Layout {
            pages: 4,
            numbers: 2,
            transactions: 1,
            seats: 2,
        };
        let (region, mut dealer) = Region::make(rt.alloc(), layout)?;
        let mut one = region.deal(&mut dealer);
        let mut two = region.deal(&mut dealer);
        assert_eq!(rt; visit(&mut one, 3), 0);
        assert_eq!(rt; free_pages(&mut two), 2);
        assert_eq!(rt; visit(&mut two, 1), 0);
        assert_eq!(rt; free_pages(&mut two), 2);
        Ok(())
    }

    // Of 66 pages 64 are free at the start, and four times 20 are asked for, so that some claims find none. What each
    // worker finds depends on the schedule, and what is compared does not.
    #[test]
    fn four_workers_share_the_pages(rt: HostRuntime) -> Result<(), Fail> {
        let layout = Layout {
            pages: 66,
            numbers: 2,
            transactions: 1,
            seats: 4,
        };
        let (region, mut dealer) = Region::make(rt.alloc(), layout)?;
        let mut workers = [
            Worker {
                grip: region.deal(&mut dealer),
                wrong: 0,
            },
            Worker {
                grip: region.deal(&mut dealer),
                wrong: 0,
            },
            Worker {
                grip: region.deal(&mut dealer),
                wrong: 0,
            },
            Worker {
                grip: region.deal(&mut dealer),
                wrong: 0,
            },
        ];
        thread::for_each_mut(&rt, &mut workers, 4, &|_, worker| worker.work());
        for worker in &mut workers {
            assert_eq!(rt; worker.wrong, 0);
            assert_eq!(rt; free_pages(&mut worker.grip), 64);
        }
        Ok(())
    }
}
