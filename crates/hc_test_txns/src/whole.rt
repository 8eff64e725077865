//! Whole transactions that read and put nothing.
ghost use Rattle.std.specs.Prelude.{◌≡◌, ◌<◌, IfSome, IfNone};
ghost use Rattle.hc_rows.specs.Places.{HasTid, HasPlace};
ghost use Rattle.hc_steps.specs.Same.{IsSame};
ghost use Rattle.hc_test_txns.specs.Stages.{MayStart, IsDrawn, IsOrdinal, IsSameLone};

use crate::lone::Lone;
use hc_base::{Cid, Tid};

/// A transaction that is committed: the snapshot that it began with, its id and its commit number.
#[derive(Clone, Copy, PartialEq, Debug)]
pub struct Whole {
    pub snapshot: Cid,
    pub id: Tid,
    pub number: Cid,
}

impl<'a> Lone<'a> {
    /// Makes a whole transaction, and proposes again where another took the number. `None` where no id is left, or no ordinal.
    pub fn run(&mut self) -> Option<Whole>
        requires may { MayStart self.old.ord self.old.grip.seat.me.0 }
        requires some { 0 < self.old.ord }
        ensures may { MayStart self.new.ord self.new.grip.seat.me.0 }
        ensures some { 0 < self.new.ord }
        ensures same { IsSame self.old.grip self.new.grip }
    {
        if self.ord >= 131_072 {
            return None;
        }
        let snapshot = self.start();
        match self.draw() {
            Ok(id) => {
                let number = self.commit(id);
                self.finish(id, number);
                Some(Whole {
                    snapshot,
                    id,
                    number,
                })
            }
            Err(_) => {
                self.give_up();
                None
            }
        }
    }

    // Proposes until a number is won.
    fn commit(&mut self, t: Tid) -> Cid
        requires tid { HasTid self.old.grip.layout t.0 }
        requires ord { IsOrdinal self.old.ord }
        requires drawn { IsDrawn t.0 self.old.ord 0 0 self.old.grip.seat.me.0 }
        ensures won { HasPlace self.old.grip.layout result.0 × IsDrawn t.0 self.old.ord result.0 result.0 self.new.grip.seat.me.0 }
        ensures same { IsSameLone self.old self.new }
    {
        'proposals: loop {
            if let Some(c) = self.try_commit(t) {
                return c;
            }
        }
    }

    // Proposes the next number, and wins it or loses it to another.
    fn try_commit(&mut self, t: Tid) -> Option<Cid>
        requires tid { HasTid self.old.grip.layout t.0 }
        requires ord { IsOrdinal self.old.ord }
        requires drawn { IsDrawn t.0 self.old.ord 0 0 self.old.grip.seat.me.0 }
        ensures won { IfSome result (λ c. HasPlace self.old.grip.layout c.0 × IsDrawn t.0 self.old.ord c.0 c.0 self.new.grip.seat.me.0) }
        ensures lost { IfNone result (IsDrawn t.0 self.old.ord 0 0 self.new.grip.seat.me.0 × (self.old.grip.seat.me.0.seen.0 < self.new.grip.seat.me.0.seen.0)) }
        ensures same { IsSameLone self.old self.new }
    {
        let c = self.propose(t);
        self.validate(t, c);
        match self.win(t, c) {
            Ok(()) => Some(c),
            Err(_) => None,
        }
    }
}
