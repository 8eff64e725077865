//! Steps on the word of a commit number.
ghost use Rattle.std.specs.Prelude.{◌≡◌, ◌≢◌, ◌<◌, ◌≤◌, IfSome, IfNone, IfOk, IfErr};
ghost use Rattle.hc_rows.specs.Places.{HasPlace, log_at};
ghost use Rattle.hc_rule.specs.Views.{bare};
ghost use Rattle.hc_rule.specs.declared.view.Role.TheVariants.{Connection};
ghost use Rattle.hc_rule.specs.Kinds.LoadPage.{with_found};
ghost use Rattle.hc_rule.specs.Kinds.LoadLog.{Looking, Looks, LogLoad, LoadsLog, Asks, at_end, later, with_place};
ghost use Rattle.hc_rule.specs.Kinds.WinLog.{Winning, MayWin, WinsLog, won_by, lost_to};
ghost use Rattle.hc_steps.specs.Own.{own_win};
ghost use Rattle.hc_steps.specs.Same.{IsSame};
ghost use Rattle.hc_steps.specs.Seated.{IsSeated};

use crate::grip::{Grip, Token, Words};
use atomic_table::Play;
use hc_base::{Cid, Tid};
use hc_rows::Layout;
use hc_rule::View;
use std::marker::{Brand, PhantomData};

// The load: what it is for, and of which connection and number it is.
trait Looked {
    ghost load: { LogLoad };
}

impl Looked for Brand {
    ghost load = { record { kind = Looks; conn = 0; c = 0; last = 0 } };
}

struct Loads<N> {
    looked: PhantomData<N>,
}

impl<N: Looked> Play<(), View> for Loads<N> {
    ghost then = { λ step before found after. LoadsLog step.word N.load before.0 found after };
}

fn load_log_as<N: Looked>(table: &Words, layout: &Layout, conn: u8, seat: &mut Token, c: Cid) -> u64
    requires seated { IsSeated table.now.table_id table.now.key layout.now seat.old.table_id seat.old.me }
    requires connected { seat.old.me.0.role ≡ Connection conn }
    requires place { HasPlace layout.now c.0 }
    requires picked { (N.load.conn ≡ conn) × (N.load.c ≡ c.0) × (N.load.last ≡ layout.now.transactions) }
    requires asked { Asks N.load.kind c.0 seat.old.me.0 }
    ensures table { seat.new.table_id ≡ seat.old.table_id }
    ensures told { LoadsLog (log_at layout.now c.0) N.load seat.old.me.0 result seat.new.me }
{
    table.load::<Loads<N>>(seat, layout.log_at(c) as usize)
}

// The greater commit number.
pub(crate) fn greater(seen: Cid, c: Cid) -> Cid
    ensures { result ≡ later seen c.0 }
{
    if seen.0 < c.0 { c } else { seen }
}

impl<'a> Grip<'a> {
    /// How many places of the log the seat has seen taken.
    pub fn seen(&self) -> Cid
        ensures seen { result ≡ self.now.seat.me.0.seen }
        ensures bounded { result.0 ≤ self.now.layout.transactions }
    {
        self.seen
    }

    /// Loads the word of a commit number: the id of the transaction that has it, or `None` where the log ends before it. The
    /// seat notes what it found. A caller that has seen all numbers before may begin a transaction there, or propose the
    /// number: the account of the connection says so then.
    pub fn load_log(&mut self, c: Cid) -> Option<Tid>
        ghost kind: { Looking }
        requires place { HasPlace self.old.layout c.0 }
        requires asked { Asks kind c.0 self.old.seat.me.0 }
        ensures empty { IfNone result ((self.old.seat.me.0.seen.0 < c.0) × (self.new.seat.me ≡ bare (at_end kind self.old.conn (with_found (log_at self.old.layout c.0) 0 self.old.seat.me.0)))) }
        ensures taken { IfSome result (λ t. (t.0 ≢ 0) × (t.0 ≤ self.old.layout.transactions) × (self.new.seat.me ≡ bare (with_place c.0 t.0 self.old.seat.me.0))) }
        ensures same { IsSame self.old self.new }
    {
        let word = load_log_as::<Brand>(self.table, &self.layout, self.conn, &mut self.seat, c);
        if word == 0 {
            return None;
        }
        self.seen = greater(self.seen, c);
        Some(Tid(word as u32))
    }
}

// The exchange.
trait Wins {
    ghost winning: { Winning };
}

impl Wins for Brand {
    ghost winning = { record { conn = 0; c = 0; id = 0; last = 0 } };
}

struct Exchanges<N> {
    wins: PhantomData<N>,
}

impl<N: Wins> Play<(), View> for Exchanges<N> {
    ghost then = { λ step before found after. WinsLog N.winning before.0 found after };
}

fn win_log_as<N: Wins>(
    table: &Words,
    layout: &Layout,
    conn: u8,
    seat: &mut Token,
    t: Tid,
    c: Cid,
) -> u64
    requires seated { IsSeated table.now.table_id table.now.key layout.now seat.old.table_id seat.old.me }
    requires connected { seat.old.me.0.role ≡ Connection conn }
    requires place { HasPlace layout.now c.0 }
    requires picked { N.winning ≡ record { conn = conn; c = c.0; id = t.0; last = layout.now.transactions } }
    requires may { MayWin (record { conn = conn; c = c.0; id = t.0; last = layout.now.transactions }) seat.old.me.0 }
    ensures table { seat.new.table_id ≡ seat.old.table_id }
    ensures told { WinsLog (record { conn = conn; c = c.0; id = t.0; last = layout.now.transactions }) seat.old.me.0 result seat.new.me }
{
    table.compare_exchange::<Exchanges<N>>(seat, layout.log_at(c) as usize, 0, u64::from(t.0))
}

impl<'a> Grip<'a> {
    /// Exchanges the word of the commit number that the transaction proposes, where it is empty, by its own id: it is committed
    /// then, at that number. Else `Err` has the id of the transaction that has the number, which the seat notes, and the
    /// proposal is void.
    pub fn win_log(&mut self, c: Cid) -> Result<(), Tid>
        requires place { HasPlace self.old.layout c.0 }
        requires may { MayWin (own_win self.old.conn c.0 self.old.layout.transactions self.old.seat.me.0) self.old.seat.me.0 }
        ensures won { IfOk result (λ _. self.new.seat.me ≡ bare (won_by (own_win self.old.conn c.0 self.old.layout.transactions self.old.seat.me.0) self.old.seat.me.0)) }
        ensures lost { IfErr result (λ other. (other.0 ≢ 0) × (other.0 ≤ self.old.layout.transactions) × (self.new.seat.me ≡ bare (lost_to (own_win self.old.conn c.0 self.old.layout.transactions self.old.seat.me.0) other.0 self.old.seat.me.0))) }
        ensures same { IsSame self.old self.new }
    {
        let t = self.own_tid();
        let found = win_log_as::<Brand>(self.table, &self.layout, self.conn, &mut self.seat, t, c);
        self.seen = greater(self.seen, c);
        match found {
            0 => Ok(()),
            _ => Err(Tid(found as u32)),
        }
    }
}
