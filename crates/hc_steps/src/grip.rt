//! A seat at the table, with what its owner needs beside it.
ghost use Rattle.std.specs.Prelude.{◌≡◌, ◌<◌, ◌≤◌, true, Some};
ghost use Rattle.hc_rows.specs.Places.{IsLayout, HasPage, HasTid, total};
ghost use Rattle.hc_rule.specs.Views.{bare};
ghost use Rattle.hc_rule.specs.declared.view.Role.TheVariants.{Connection};
ghost use Rattle.hc_steps.specs.Own.{own_id, is_own};

use atomic_table::{Seat, Shared};
use hc_base::{Cid, Tid};
use hc_rows::Layout;
use hc_rule::{Rule, View};

/// The engine's table.
pub(crate) type Words = Shared<(), View, Layout, Rule>;

/// A seat at it.
pub(crate) type Token = Seat<(), View>;

/// A connection's access to the table. Its seat's view is what it knows.
#[derive(Drop)]
pub struct Grip<'a> {
    pub(crate) table: &'a Words,
    pub layout: Layout,
    pub conn: u8,
    /// Where the next claim of a page begins.
    pub(crate) hint: u32,
    /// How many places of the log it has seen taken.
    pub(crate) seen: Cid,
    /// The id that its open transaction has drawn.
    pub(crate) own: Option<Tid>,
    pub seat: Seat<(), View>,
    ghost of_table: { seat.table_id ≡ table.now.table_id },
    ghost keyed: { table.now.key ≡ layout },
    ghost sized: { table.now.table_id.words ≡ total layout },
    ghost ranged: { IsLayout layout },
    ghost hinted: { HasPage layout hint },
    ghost bare_seat: { seat.me ≡ bare seat.me.0 },
    ghost connected: { seat.me.0.role ≡ Connection conn },
    ghost counted: { seen ≡ seat.me.0.seen },
    ghost bounded: { seen.0 ≤ layout.transactions },
    ghost owned: { own ≡ seat.me.0.own },
    ghost drawn: { is_own layout own ≡ true },
    ghost dealt: { conn < layout.seats },
}

impl<'a> Grip<'a> {
    // The id that its open transaction has drawn.
    pub(crate) fn own_tid(&self) -> Tid
        requires drawn { self.now.seat.me.0.own ≡ Some (record { 0 = own_id self.now.seat.me.0.own }) }
        ensures own { result.0 ≡ own_id self.now.seat.me.0.own }
        ensures tid { HasTid self.now.layout result.0 }
    {
        match self.own {
            Some(t) => t,
            None => unreachable!(),
        }
    }
}
