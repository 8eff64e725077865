//! A connection that makes transactions which read and put nothing.
ghost use Rattle.std.specs.Prelude.{◌≡◌, ◌<◌, ◌≤◌, ◌+◌, ◌^◌, IfOk, IfErr};
ghost use Rattle.hc_base.specs.declared.full.Full.TheVariants.{Transactions};
ghost use Rattle.hc_rows.specs.Places.{HasTid, HasPlace};
ghost use Rattle.hc_steps.specs.Same.{IsSame};
ghost use Rattle.hc_test_txns.specs.Stages.{MayStart, HasStarted, IsDrawn, DrewFirst, Validates, MayEnd, IsSameLone, IsOrdinal};

use hc_base::{Cid, Full, Tid, TidWord};
use hc_pool::{leave, register};
use hc_steps::Grip;
use hc_tidlog::{draw_id, propose, set_state, win};

/// A connection, and the ordinal of its next transaction, or of the open one.
#[derive(Drop)]
pub struct Lone<'a> {
    pub grip: Grip<'a>,
    pub ord: u32,
}

impl<'a> Lone<'a> {
    /// A connection that has made no transaction. The first one has the ordinal 1.
    pub fn new(grip: Grip<'a>) -> Lone<'a>
        requires { MayStart 1 grip.seat.me.0 }
        ensures { (result.grip ≡ grip.entry) × (result.ord ≡ 1) }
    {
        Lone { grip, ord: 1 }
    }

    /// Begins a transaction, and answers its snapshot.
    pub fn start(&mut self) -> Cid
        requires may { MayStart self.old.ord self.old.grip.seat.me.0 }
        ensures started { HasStarted self.old.ord self.new.grip.seat.me.0 }
        ensures least { self.old.grip.seat.me.0.seen.0 ≤ result.0 }
        ensures same { IsSameLone self.old self.new }
    {
        register(&mut self.grip)
    }

    /// Draws its id.
    pub fn draw(&mut self) -> Result<Tid, Full>
        requires started { HasStarted self.old.ord self.old.grip.seat.me.0 }
        requires ord { IsOrdinal self.old.ord }
        ensures drawn { IfOk result (λ t. HasTid self.old.grip.layout t.0 × IsDrawn t.0 self.old.ord 0 0 self.new.grip.seat.me.0) }
        ensures full { IfErr result (λ full. full ≡ Transactions self.old.grip.layout.transactions) }
        ensures still { IfErr result (λ _. HasStarted self.old.ord self.new.grip.seat.me.0) }
        ensures same { IsSameLone self.old self.new }
    {
        draw_id(&mut self.grip, self.ord)
    }

    /// Draws the id 1, and looks at no other. Whether it did: another may have it.
    pub fn draw_first(&mut self) -> bool
        requires started { HasStarted self.old.ord self.old.grip.seat.me.0 }
        requires ord { IsOrdinal self.old.ord }
        ensures drawn { DrewFirst self.old.ord result self.new.grip.seat.me.0 }
        ensures same { IsSameLone self.old self.new }
    {
        self.grip.draw(Tid(1), self.ord)
    }

    /// Ends it before it has drawn an id.
    pub fn give_up(&mut self)
        requires started { HasStarted self.old.ord self.old.grip.seat.me.0 }
        requires some { 0 < self.old.ord }
        ensures may { MayStart self.old.ord self.new.grip.seat.me.0 }
        ensures same { IsSameLone self.old self.new }
    {
        leave(&mut self.grip);
    }

    /// Proposes the next commit number for the id `t`, which it has drawn.
    pub fn propose(&mut self, t: Tid) -> Cid
        requires drawn { IsDrawn t.0 self.old.ord 0 0 self.old.grip.seat.me.0 }
        ensures proposed { HasPlace self.old.grip.layout result.0 × IsDrawn t.0 self.old.ord result.0 0 self.new.grip.seat.me.0 }
        ensures next { (result.0 ≡ self.new.grip.seat.me.0.seen.0 + 1) × (self.old.grip.seat.me.0.seen.0 ≤ self.new.grip.seat.me.0.seen.0) }
        ensures same { IsSameLone self.old self.new }
    {
        propose(&mut self.grip)
    }

    /// Says in the word of its id that it validates the number.
    pub fn validate(&mut self, t: Tid, c: Cid)
        requires tid { HasTid self.old.grip.layout t.0 }
        requires place { HasPlace self.old.grip.layout c.0 }
        requires ord { IsOrdinal self.old.ord }
        requires proposed { IsDrawn t.0 self.old.ord c.0 0 self.old.grip.seat.me.0 }
        ensures validates { Validates self.old.grip.conn t.0 self.old.ord c.0 self.new.grip.seat.me.0 }
        ensures seen { self.new.grip.seat.me.0.seen ≡ self.old.grip.seat.me.0.seen }
        ensures same { IsSameLone self.old self.new }
    {
        let conn = u32::from(self.grip.conn);
        let ord = self.ord;
        set_state(&mut self.grip, TidWord::Validating { conn, ord, c });
    }

    /// Wins the number, or loses it to another id and proposes nothing.
    pub fn win(&mut self, t: Tid, c: Cid) -> Result<(), Tid>
        requires place { HasPlace self.old.grip.layout c.0 }
        requires validates { Validates self.old.grip.conn t.0 self.old.ord c.0 self.old.grip.seat.me.0 }
        ensures won { IfOk result (λ _. IsDrawn t.0 self.old.ord c.0 c.0 self.new.grip.seat.me.0) }
        ensures lost { IfErr result (λ _. IsDrawn t.0 self.old.ord 0 0 self.new.grip.seat.me.0 × (c.0 ≤ self.new.grip.seat.me.0.seen.0)) }
        ensures same { IsSameLone self.old self.new }
    {
        win(&mut self.grip, c)
    }

    /// Says in the word of its id that it is committed at the number that it won, and ends it. The next one has the next
    /// ordinal.
    pub fn finish(&mut self, t: Tid, c: Cid)
        requires tid { HasTid self.old.grip.layout t.0 }
        requires place { HasPlace self.old.grip.layout c.0 }
        requires ord { IsOrdinal self.old.ord }
        requires won { IsDrawn t.0 self.old.ord c.0 c.0 self.old.grip.seat.me.0 }
        ensures may { MayStart self.new.ord self.new.grip.seat.me.0 }
        ensures ord { self.new.ord ≡ self.old.ord + 1 }
        ensures same { IsSame self.old.grip self.new.grip }
    {
        let conn = u32::from(self.grip.conn);
        let ord = self.ord;
        set_state(&mut self.grip, TidWord::Committed { conn, ord, c });
        self.end();
    }

    /// Says in the word of its id that it is rolled back, and ends it. The next one has the next ordinal.
    pub fn roll_back(&mut self, t: Tid)
        requires tid { HasTid self.old.grip.layout t.0 }
        requires ord { IsOrdinal self.old.ord }
        requires drawn { IsDrawn t.0 self.old.ord 0 0 self.old.grip.seat.me.0 }
        ensures may { MayStart self.new.ord self.new.grip.seat.me.0 }
        ensures ord { self.new.ord ≡ self.old.ord + 1 }
        ensures same { IsSame self.old.grip self.new.grip }
    {
        let conn = u32::from(self.grip.conn);
        let ord = self.ord;
        set_state(&mut self.grip, TidWord::RolledBack { conn, ord });
        self.end();
    }

    // Ends a transaction that drew its id. The next one has the next ordinal.
    fn end(&mut self)
        requires ord { IsOrdinal self.old.ord }
        requires may { MayEnd self.old.ord self.old.grip.seat.me.0 }
        ensures may { MayStart self.new.ord self.new.grip.seat.me.0 }
        ensures ord { self.new.ord ≡ self.old.ord + 1 }
        ensures same { IsSame self.old.grip self.new.grip }
    {
        leave(&mut self.grip);
        self.ord += 1;
    }
}
