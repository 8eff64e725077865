//! Steps on the word of a page.
ghost use Rattle.std.specs.Prelude.{◌≡◌, ℕ};
ghost use Rattle.hc_base.specs.Words.{IsPageWord, page_word};
ghost use Rattle.hc_rows.specs.Places.{HasPage, page_at};
ghost use Rattle.hc_rule.specs.Holders.{IsRegistered};
ghost use Rattle.hc_rule.specs.Views.{bare};
ghost use Rattle.hc_base.specs.declared.page_word.PageWord.{PageWord as Form};
ghost use Rattle.hc_base.specs.declared.page_word.PageWord.TheVariants.{Free};
ghost use Rattle.hc_rule.specs.declared.view.Role.TheVariants.{Connection};
ghost use Rattle.hc_steps.specs.Same.{IsSame};
ghost use Rattle.hc_steps.specs.Seated.{IsSeated};
ghost use Rattle.hc_rule.specs.Kinds.LoadPage.{LoadsPage, with_found};
ghost use Rattle.hc_rule.specs.Kinds.TakePage.{TakesPage, TookPage};
ghost use Rattle.hc_rule.specs.Kinds.StorePage.{Owns, MayStore, StoresPage};

use crate::grip::{Grip, Token, Words};
use atomic_table::Play;
use hc_base::{PageWord, Phys};
use hc_rows::Layout;
use hc_rule::View;
use std::marker::{Brand, PhantomData};

// The seat notes where it loaded, and what it found there.
struct Loads;

impl Play<(), View> for Loads {
    ghost then = { λ step before found after. LoadsPage step.word before.0 found after };
}

fn load_page_at(table: &Words, layout: &Layout, seat: &mut Token, p: Phys) -> u64
    requires seated { IsSeated table.now.table_id table.now.key layout.now seat.old.table_id seat.old.me }
    requires page { HasPage layout.now p.0 }
    ensures table { seat.new.table_id ≡ seat.old.table_id }
    ensures told { LoadsPage (page_at layout.now p.0) seat.old.me.0 result seat.new.me }
{
    table.load::<Loads>(seat, layout.page_at(p) as usize)
}

// The page of an exchange, and the next one that it is to name. A step's play cannot read its arguments, so each call of
// `take_page_as` picks them.
trait Taking {
    ghost page: { ℕ };

    ghost next: { ℕ };
}

impl Taking for Brand {
    ghost page = { 0 };

    ghost next = { 0 };
}

struct Takes<N> {
    taking: PhantomData<N>,
}

impl<N: Taking> Play<(), View> for Takes<N> {
    ghost then = { λ step before found after. TakesPage step.word N.page N.next before.0 found after };
}

fn take_page_as<N: Taking>(
    table: &Words,
    layout: &Layout,
    conn: u8,
    seat: &mut Token,
    p: Phys,
    next: u32,
) -> u64
    requires seated { IsSeated table.now.table_id table.now.key layout.now seat.old.table_id seat.old.me }
    requires connected { seat.old.me.0.role ≡ Connection conn }
    requires page { HasPage layout.now p.0 }
    requires registered { IsRegistered seat.old.me.0.stage }
    requires picked { (N.page ≡ p.0) × (N.next ≡ next) }
    ensures table { seat.new.table_id ≡ seat.old.table_id }
    ensures told { TakesPage (page_at layout.now p.0) p.0 next seat.old.me.0 result seat.new.me }
{
    let new = PageWord::Owned { seat: conn, next }.pack();
    table.compare_exchange::<Takes<N>>(seat, layout.page_at(p) as usize, 0, new)
}

// The page of a store, and the form that is stored.
trait Storing {
    ghost page: { ℕ };

    ghost form: { Form };
}

impl Storing for Brand {
    ghost page = { 0 };

    ghost form = { Free };
}

struct Stores<N> {
    storing: PhantomData<N>,
}

impl<N: Storing> Play<(), View> for Stores<N> {
    ghost then = { λ step before found after. StoresPage N.page N.form before.0 after };
}

fn store_page_as<N: Storing>(
    table: &Words,
    layout: &Layout,
    conn: u8,
    seat: &mut Token,
    p: Phys,
    w: PageWord,
)
    requires seated { IsSeated table.now.table_id table.now.key layout.now seat.old.table_id seat.old.me }
    requires connected { seat.old.me.0.role ≡ Connection conn }
    requires page { HasPage layout.now p.0 }
    requires owns { Owns seat.old.me.0 p.0 }
    requires form { IsPageWord w × MayStore conn w }
    requires picked { (N.page ≡ p.0) × (N.form ≡ w) }
    ensures table { seat.new.table_id ≡ seat.old.table_id }
    ensures told { StoresPage p.0 w seat.old.me.0 seat.new.me }
{
    table.store::<Stores<N>>(seat, layout.page_at(p) as usize, w.pack());
}

impl<'a> Grip<'a> {
    /// Loads the word of a page. The seat notes where it loaded, the place of that page's word, and what it found.
    pub fn load_page(&mut self, p: Phys) -> PageWord
        requires page { HasPage self.old.layout p.0 }
        ensures form { IsPageWord result }
        ensures seat { self.new.seat.me ≡ bare (with_found (page_at self.old.layout p.0) (page_word result) self.old.seat.me.0) }
        ensures same { IsSame self.old self.new }
    {
        let word = load_page_at(self.table, &self.layout, &mut self.seat, p);
        match PageWord::unpack(word) {
            Some(form) => form,
            None => unreachable!(),
        }
    }

    /// Exchanges the word of a free page, `seen`, by one that says that this seat owns it and that `next` is the next page
    /// that it owns, 0 at the end. Whether it was free still: else the seat notes what it found. The seat is registered.
    pub fn take_page(&mut self, p: Phys, seen: PageWord, next: u32) -> bool
        requires page { HasPage self.old.layout p.0 }
        requires registered { IsRegistered self.old.seat.me.0.stage }
        requires seen { seen ≡ Free }
        ensures taken { TookPage (page_at self.old.layout p.0) p.0 next self.old.seat.me.0 result self.new.seat.me }
        ensures same { IsSame self.old self.new }
    {
        let found = take_page_as::<Brand>(
            self.table,
            &self.layout,
            self.conn,
            &mut self.seat,
            p,
            next,
        );
        found == seen.pack()
    }

    /// Stores the word of a page that the seat owns: that it owns it still, with another next page, or that it is free.
    pub fn store_page(&mut self, p: Phys, w: PageWord)
        requires page { HasPage self.old.layout p.0 }
        requires owns { Owns self.old.seat.me.0 p.0 }
        requires form { IsPageWord w × MayStore self.old.conn w }
        ensures stored { StoresPage p.0 w self.old.seat.me.0 self.new.seat.me }
        ensures same { IsSame self.old self.new }
    {
        store_page_as::<Brand>(self.table, &self.layout, self.conn, &mut self.seat, p, w);
    }
}
