//! Steps on the word of a transaction id.
ghost use Rattle.std.specs.Prelude.{◌≡◌, ◌<◌, ◌≤◌, ◌^◌, ℕ};
ghost use Rattle.hc_base.specs.Words.{IsTidWord, tid_word};
ghost use Rattle.hc_base.specs.declared.tid_word.TidWord.TheVariants.{Empty};
ghost use Rattle.hc_rows.specs.Places.{HasTid, tid_at};
ghost use Rattle.hc_rule.specs.Views.{bare};
ghost use Rattle.hc_rule.specs.declared.view.Role.TheVariants.{Connection};
ghost use Rattle.hc_rule.specs.Kinds.TidWord.{saw, said, LoadsTid, Drawing, MayDraw, DrawsTid, DrewTid, TidStore, MayStoreTid, StoresTid};
ghost use Rattle.hc_steps.specs.Own.{own_store};
ghost use Rattle.hc_steps.specs.Same.{IsSame};
ghost use Rattle.hc_steps.specs.Seated.{IsSeated};

use crate::grip::{Grip, Token, Words};
use atomic_table::Play;
use hc_base::{Tid, TidWord};
use hc_rows::Layout;
use hc_rule::View;
use std::marker::{Brand, PhantomData};

// The id of a load.
trait Looked {
    ghost id: { ℕ };
}

impl Looked for Brand {
    ghost id = { 0 };
}

struct Loads<N> {
    looked: PhantomData<N>,
}

impl<N: Looked> Play<(), View> for Loads<N> {
    ghost then = { λ step before found after. LoadsTid step.word N.id before.0 found after };
}

fn load_tid_as<N: Looked>(table: &Words, layout: &Layout, conn: u8, seat: &mut Token, t: Tid) -> u64
    requires seated { IsSeated table.now.table_id table.now.key layout.now seat.old.table_id seat.old.me }
    requires connected { seat.old.me.0.role ≡ Connection conn }
    requires tid { HasTid layout.now t.0 }
    requires picked { N.id ≡ t.0 }
    ensures table { seat.new.table_id ≡ seat.old.table_id }
    ensures told { LoadsTid (tid_at layout.now t.0) t.0 seat.old.me.0 result seat.new.me }
{
    table.load::<Loads<N>>(seat, layout.tid_at(t) as usize)
}

// The draw.
trait Drawn {
    ghost drawing: { Drawing };
}

impl Drawn for Brand {
    ghost drawing = { record { conn = 0; id = 0; ord = 0 } };
}

struct Draws<N> {
    drawn: PhantomData<N>,
}

impl<N: Drawn> Play<(), View> for Draws<N> {
    ghost then = { λ step before found after. DrawsTid step.word N.drawing before.0 found after };
}

fn draw_as<N: Drawn>(
    table: &Words,
    layout: &Layout,
    conn: u8,
    seat: &mut Token,
    t: Tid,
    ord: u32,
) -> u64
    requires seated { IsSeated table.now.table_id table.now.key layout.now seat.old.table_id seat.old.me }
    requires connected { seat.old.me.0.role ≡ Connection conn }
    requires conn { conn < 2 ^ 7 }
    requires tid { HasTid layout.now t.0 }
    requires may { MayDraw (record { conn = conn; id = t.0; ord = ord }) seat.old.me.0 }
    requires picked { N.drawing ≡ record { conn = conn; id = t.0; ord = ord } }
    ensures table { seat.new.table_id ≡ seat.old.table_id }
    ensures told { DrawsTid (tid_at layout.now t.0) (record { conn = conn; id = t.0; ord = ord }) seat.old.me.0 result seat.new.me }
{
    let new = TidWord::Live {
        conn: u32::from(conn),
        ord,
    }
    .pack();
    table.compare_exchange::<Draws<N>>(seat, layout.tid_at(t) as usize, 0, new)
}

// The store.
trait Saying {
    ghost store: { TidStore };
}

impl Saying for Brand {
    ghost store = { record { conn = 0; id = 0; word = Empty } };
}

struct Stores<N> {
    saying: PhantomData<N>,
}

impl<N: Saying> Play<(), View> for Stores<N> {
    ghost then = { λ step before found after. StoresTid N.store before.0 after };
}

fn store_tid_as<N: Saying>(
    table: &Words,
    layout: &Layout,
    conn: u8,
    seat: &mut Token,
    t: Tid,
    w: TidWord,
)
    requires seated { IsSeated table.now.table_id table.now.key layout.now seat.old.table_id seat.old.me }
    requires connected { seat.old.me.0.role ≡ Connection conn }
    requires tid { HasTid layout.now t.0 }
    requires form { IsTidWord w }
    requires may { MayStoreTid (record { conn = conn; id = t.0; word = w }) seat.old.me.0 }
    requires picked { N.store ≡ record { conn = conn; id = t.0; word = w } }
    ensures table { seat.new.table_id ≡ seat.old.table_id }
    ensures told { seat.new.me ≡ bare (said w seat.old.me.0) }
{
    table.store::<Stores<N>>(seat, layout.tid_at(t) as usize, w.pack());
}

impl<'a> Grip<'a> {
    /// Loads the word of an id. The seat notes what it found: the word, or, where nobody has drawn the id, that its place is
    /// empty.
    pub fn load_tid(&mut self, t: Tid) -> TidWord
        requires tid { HasTid self.old.layout t.0 }
        ensures form { IsTidWord result }
        ensures seat { self.new.seat.me ≡ bare (saw (tid_at self.old.layout t.0) t.0 result self.old.seat.me.0) }
        ensures same { IsSame self.old self.new }
    {
        let word = load_tid_as::<Brand>(self.table, &self.layout, self.conn, &mut self.seat, t);
        match TidWord::unpack(word) {
            Some(form) => form,
            None => unreachable!(),
        }
    }

    /// Draws an id with an ordinal of the connection, where nobody has drawn it. Whether it did: else the seat notes what
    /// it found.
    pub fn draw(&mut self, t: Tid, ord: u32) -> bool
        requires tid { HasTid self.old.layout t.0 }
        requires may { MayDraw (record { conn = self.old.conn; id = t.0; ord = ord }) self.old.seat.me.0 }
        ensures drew { DrewTid (record { conn = self.old.conn; id = t.0; ord = ord }) self.old.seat.me.0 result self.new.seat.me }
        ensures same { IsSame self.old self.new }
    {
        let found = draw_as::<Brand>(self.table, &self.layout, self.conn, &mut self.seat, t, ord);
        if found == 0 {
            self.own = Some(t);
            return true;
        }
        false
    }

    /// Stores the word of the id that the seat has drawn: that it validates the number that it proposes, its commit
    /// number, or that it is rolled back.
    pub fn store_tid(&mut self, w: TidWord)
        requires may { MayStoreTid (own_store self.old.conn w self.old.seat.me.0) self.old.seat.me.0 }
        ensures seat { self.new.seat.me ≡ bare (said w self.old.seat.me.0) }
        ensures same { IsSame self.old self.new }
    {
        let t = self.own_tid();
        store_tid_as::<Brand>(self.table, &self.layout, self.conn, &mut self.seat, t, w);
    }
}
