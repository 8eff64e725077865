//! A connection between two transactions that read and put nothing.
ghost use Rattle.std.specs.Prelude.{◌≡◌, ◌<◌, true};
ghost use Rattle.hc_base.specs.declared.seat_word.SeatWord.TheVariants.{Idle};
ghost use Rattle.hc_rule.specs.Kinds.LoadLog.{own_txns};
ghost use Rattle.hc_test_txns.specs.Done.{are_done};

use crate::lone::Lone;
use crate::whole::Whole;
use hc_base::Cid;
use hc_steps::Grip;

/// A connection whose seat is idle. Threads may take such a one each, since what is known of it comes with it.
#[derive(Drop)]
pub struct Lane<'a> {
    pub lone: Lone<'a>,
    ghost idle: { lone.grip.seat.me.0.stage ≡ Idle },
    ghost done: { are_done lone.ord (own_txns lone.grip.seat.me.0) ≡ true },
    ghost some: { 0 < lone.ord },
}

impl<'a> Lane<'a> {
    /// A connection that has made no transaction.
    pub fn new(grip: Grip<'a>) -> Lane<'a>
        requires idle { grip.seat.me.0.stage ≡ Idle }
        requires done { are_done 1 (own_txns grip.seat.me.0) ≡ true }
        ensures { result.lone.grip ≡ grip.entry }
    {
        Lane {
            lone: Lone::new(grip),
        }
    }

    /// Makes a whole transaction, and proposes again where another took the number. `None` where no id is left, or no ordinal.
    pub fn run(&mut self) -> Option<Whole> {
        self.lone.run()
    }

    /// Begins a transaction that ends at once, and answers its snapshot.
    pub fn visit(&mut self) -> Cid {
        let snapshot = self.lone.start();
        self.lone.give_up();
        snapshot
    }
}
