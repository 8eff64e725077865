//! The engine's table, and how its seats are dealt.
ghost use Rattle.std.specs.Prelude.{◌≡◌, ◌<◌, ◌≤◌, ◌+◌, IfOk};
ghost use Rattle.hc_rows.specs.Places.{IsLayout, HasPage, total};
ghost use Rattle.hc_rule.specs.Views.{bare, dealt_view};
ghost use Rattle.hc_steps.specs.Hints.{first_hint_of};
ghost use Rattle.hc_steps.specs.Seated.{IsSeated};
ghost use Rattle.hc_rule.specs.Kinds.Deal.{dealer_after, seat_dealt};
ghost use Rattle.hc_rule.specs.declared.view.Role.TheVariants.{Dealer as Deals};

use crate::first::first_words;
use crate::grip::{Grip, Token, Words};
use atomic_table::{Seat, Split, Table};
use hc_base::Cid;
use hc_range::NoMemory;
use hc_rows::Layout;
use hc_rule::{Rule, View};
use std::alloc::Global;

/// The engine's table with the layout of its words. Between any two steps on it the rule holds.
#[derive(Drop)]
pub struct Region {
    table: Table<(), View, Layout, Rule, Global>,
    pub layout: Layout,
    ghost keyed: { table.shared.key ≡ layout },
    ghost sized: { table.shared.table_id.words ≡ total layout },
    ghost ranged: { IsLayout layout },
}

/// Deals a seat to each connection of a region, in the order of their numbers.
#[derive(Drop)]
pub struct Dealer {
    /// How many connections have theirs.
    pub dealt: u32,
    pub seat: Seat<(), View>,
    ghost bare_seat: { seat.me ≡ bare seat.me.0 },
    ghost dealer: { seat.me.0.role ≡ Deals dealt },
}

// How the dealer's seat is split.
struct Next;

impl Split<View> for Next {
    ghost use Rattle.hc_rule.specs.Kinds.Deal.{dealer_after, seat_dealt};

    ghost left = { dealer_after };

    ghost right = { seat_dealt };
}

fn deal_as(table: &Words, layout: &Layout, dealt: u32, seat: &mut Token) -> Token
    requires seated { IsSeated table.now.table_id table.now.key layout.now seat.old.table_id seat.old.me }
    requires dealer { seat.old.me.0.role ≡ Deals dealt }
    requires room { dealt < layout.now.seats }
    ensures table { (seat.new.table_id ≡ seat.old.table_id) × (result.table_id ≡ seat.old.table_id) }
    ensures dealer { seat.new.me ≡ bare (dealer_after seat.old.me.0) }
    ensures dealt { result.me ≡ bare (seat_dealt seat.old.me.0) }
{
    table.split_seat::<Next>(seat)
}

// Where a connection begins to claim pages.
fn first_hint(layout: &Layout, conn: u32) -> u32
    requires ranged { IsLayout layout.now }
    requires conn { conn < layout.now.seats }
    ensures page { HasPage layout.now result }
    ensures hint { result ≡ first_hint_of layout.now conn }
{
    (u64::from(conn) * u64::from(layout.pages) / u64::from(layout.seats)) as u32 + 1
}

impl Region {
    /// A region in which pages 1 and 2 have the logical numbers 1 and 2, an empty leaf and an inner page over it, and all
    /// else is free, and the dealer of its seats.
    pub fn make(alloc: Global, layout: Layout) -> Result<(Region, Dealer), NoMemory>
        requires ranged { IsLayout layout }
        ensures made { IfOk result (λ made. (made.0.layout ≡ layout) × (made.1.seat.table_id ≡ made.0.table.shared.table_id) × (made.1.dealt ≡ 0)) }
    {
        let words = first_words(alloc, &layout)?;
        let (table, seat) = Table::of_words(alloc, words.as_slice(), &layout)?;
        Ok((Region { table, layout }, Dealer { dealt: 0, seat }))
    }

    /// Deals a seat to the next connection.
    pub fn deal<'a>(&'a self, dealer: &mut Dealer) -> Grip<'a>
        requires table { dealer.old.seat.table_id ≡ self.now.table.shared.table_id }
        requires room { dealer.old.dealt < self.now.layout.seats }
        ensures conn { (result.conn ≡ dealer.old.dealt) × (result.layout ≡ self.now.layout) }
        ensures view { result.seat.me.0 ≡ dealt_view dealer.old.dealt }
        ensures hint { result.hint ≡ first_hint_of self.now.layout dealer.old.dealt }
        ensures table { (result.seat.table_id ≡ dealer.old.seat.table_id) × (dealer.new.seat.table_id ≡ dealer.old.seat.table_id) }
        ensures dealer { dealer.new.dealt ≡ dealer.old.dealt + 1 }
    {
        let table = &self.table.shared;
        let dealt = dealer.dealt;
        let seat = deal_as(table, &self.layout, dealt, &mut dealer.seat);
        dealer.dealt = dealt + 1;
        Grip {
            table,
            layout: self.layout,
            conn: dealt as u8,
            hint: first_hint(&self.layout, dealt),
            seen: Cid(0),
            own: None,
            seat,
        }
    }
}
