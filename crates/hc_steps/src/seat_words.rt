//! Steps on the word of the seat's own connection.
ghost use Rattle.std.specs.Prelude.{◌≡◌, ◌<◌, []};
ghost use Rattle.hc_base.specs.Words.{IsSeatWord};
ghost use Rattle.hc_base.specs.declared.seat_word.SeatWord.TheVariants.{Idle, Starting, Snapshot};
ghost use Rattle.hc_rule.specs.Views.{bare};
ghost use Rattle.hc_rule.specs.declared.view.Role.TheVariants.{Connection};
ghost use Rattle.hc_rule.specs.Kinds.StoreSeat.{SeatStore, StoresSeat, MayStand, stood};
ghost use Rattle.hc_steps.specs.Same.{IsSame};
ghost use Rattle.hc_steps.specs.Seated.{IsSeated};

use crate::grip::{Grip, Token, Words};
use atomic_table::Play;
use hc_base::{Cid, SeatWord};
use hc_rows::Layout;
use hc_rule::View;
use std::marker::{Brand, PhantomData};

// The store: the word, and whose it is.
trait Standing {
    ghost store: { SeatStore };
}

impl Standing for Brand {
    ghost store = { record { word = Idle; conn = 0 } };
}

struct Stores<N> {
    standing: PhantomData<N>,
}

impl<N: Standing> Play<(), View> for Stores<N> {
    ghost then = { λ step before found after. StoresSeat N.store before.0 after };
}

fn store_seat_as<N: Standing>(
    table: &Words,
    layout: &Layout,
    conn: u8,
    seat: &mut Token,
    w: SeatWord,
)
    requires seated { IsSeated table.now.table_id table.now.key layout.now seat.old.table_id seat.old.me }
    requires connected { seat.old.me.0.role ≡ Connection conn }
    requires conn { conn < layout.now.seats }
    requires form { IsSeatWord w }
    requires picked { (N.store.conn ≡ conn) × (N.store.word ≡ w) }
    requires may { MayStand w seat.old.me.0 }
    ensures table { seat.new.table_id ≡ seat.old.table_id }
    ensures told { StoresSeat N.store seat.old.me.0 seat.new.me }
{
    table.store::<Stores<N>>(seat, layout.seat_at(u32::from(conn)) as usize, w.pack());
}

impl<'a> Grip<'a> {
    /// Stores that the seat is about to take a snapshot. It is idle, and so owns no page.
    pub fn store_starting(&mut self)
        requires idle { MayStand Starting self.old.seat.me.0 }
        ensures none { self.old.seat.me.0.pages ≡ [] }
        ensures seat { self.new.seat.me ≡ bare (stood Starting self.old.conn self.old.seat.me.0) }
        ensures same { IsSame self.old self.new }
    {
        store_seat_as::<Brand>(
            self.table,
            &self.layout,
            self.conn,
            &mut self.seat,
            SeatWord::Starting,
        );
    }

    /// Stores the snapshot of the transaction that has begun. The seat is starting.
    pub fn store_snapshot(&mut self, c: Cid)
        requires begun { MayStand (Snapshot c) self.old.seat.me.0 }
        ensures seat { self.new.seat.me ≡ bare (stood (Snapshot c) self.old.conn self.old.seat.me.0) }
        ensures same { IsSame self.old self.new }
    {
        store_seat_as::<Brand>(
            self.table,
            &self.layout,
            self.conn,
            &mut self.seat,
            SeatWord::Snapshot(c),
        );
    }

    /// Stores that the seat is idle: its transaction ends. It is committed, or nothing is in its write set, and the seat owns
    /// no page.
    pub fn store_idle(&mut self)
        requires may_end { MayStand Idle self.old.seat.me.0 }
        ensures seat { self.new.seat.me ≡ bare (stood Idle self.old.conn self.old.seat.me.0) }
        ensures same { IsSame self.old self.new }
    {
        store_seat_as::<Brand>(
            self.table,
            &self.layout,
            self.conn,
            &mut self.seat,
            SeatWord::Idle,
        );
        self.own = None;
    }
}
