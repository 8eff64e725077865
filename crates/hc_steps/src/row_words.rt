//! Steps on a word of a page's row.
ghost use Rattle.std.specs.Prelude.{◌≡◌, ◌<◌, ℕ, slice_index};
ghost use Rattle.hc_base.specs.Lookup.{Among};
ghost use Rattle.hc_rows.specs.Places.{HasPage};
ghost use Rattle.hc_rule.specs.Views.{bare};
ghost use Rattle.hc_rule.specs.declared.view.Role.TheVariants.{Connection};
ghost use Rattle.hc_steps.specs.Same.{IsSame};
ghost use Rattle.hc_steps.specs.Seated.{IsSeated};
ghost use Rattle.hc_rule.specs.Kinds.Rows.{LoadsRow, StoresRow, ReadsPage, IsWhole, with_row};
ghost use Rattle.hc_rule.specs.Kinds.StorePage.{Owns};

use crate::grip::{Grip, Token, Words};
use atomic_table::Play;
use hc_base::{Page, Phys};
use hc_rows::Layout;
use hc_rule::View;
use std::marker::{Brand, PhantomData};

// The page and the word of a step on a row.
trait Placed {
    ghost page: { ℕ };

    ghost word: { ℕ };
}

impl Placed for Brand {
    ghost page = { 0 };

    ghost word = { 0 };
}

struct Loads<N> {
    placed: PhantomData<N>,
}

impl<N: Placed> Play<(), View> for Loads<N> {
    ghost then = { λ step before found after. LoadsRow N.page N.word before.0 found after };
}

fn load_row_as<N: Placed>(
    table: &Words,
    layout: &Layout,
    seat: &mut Token,
    p: Phys,
    word: u16,
) -> u64
    requires seated { IsSeated table.now.table_id table.now.key layout.now seat.old.table_id seat.old.me }
    requires page { HasPage layout.now p.0 }
    requires word { word < 256 }
    requires picked { (N.page ≡ p.0) × (N.word ≡ word) }
    ensures table { seat.new.table_id ≡ seat.old.table_id }
    ensures told { LoadsRow p.0 word seat.old.me.0 result seat.new.me }
{
    table.load::<Loads<N>>(seat, layout.row_at(p, word) as usize)
}

struct Stores<N> {
    placed: PhantomData<N>,
}

impl<N: Placed> Play<(), View> for Stores<N> {
    ghost then = { λ step before stored after. StoresRow N.page N.word before.0 stored after };
}

fn store_row_as<N: Placed>(
    table: &Words,
    layout: &Layout,
    conn: u8,
    seat: &mut Token,
    p: Phys,
    word: u16,
    w: u64,
)
    requires seated { IsSeated table.now.table_id table.now.key layout.now seat.old.table_id seat.old.me }
    requires connected { seat.old.me.0.role ≡ Connection conn }
    requires page { HasPage layout.now p.0 }
    requires owns { Owns seat.old.me.0 p.0 }
    requires word { word < 256 }
    requires picked { (N.page ≡ p.0) × (N.word ≡ word) }
    ensures table { seat.new.table_id ≡ seat.old.table_id }
    ensures told { StoresRow p.0 word seat.old.me.0 w seat.new.me }
{
    table.store::<Stores<N>>(seat, layout.row_at(p, word) as usize, w);
}

// The whole row. The places are those of a layout that no load can change, so that they are not computed anew for each word.
fn read_row_as(table: &Words, layout: &Layout, seat: &mut Token, p: Phys, out: &mut Page)
    requires seated { IsSeated table.now.table_id table.now.key layout.now seat.old.table_id seat.old.me }
    requires page { HasPage layout.now p.0 }
    ensures table { seat.new.table_id ≡ seat.old.table_id }
    ensures seat { seat.new.me ≡ seat.old.me }
    ensures read { ReadsPage p.0 seat.old.me.0 out.new.words }
{
    for word in 0..256u16 {
        out.words[word as usize] = load_row_as::<Brand>(table, layout, seat, p, word);
    }
}

// Stores a word where it differs.
fn write_word_as(
    table: &Words,
    layout: &Layout,
    conn: u8,
    seat: &mut Token,
    p: Phys,
    word: u16,
    w: u64,
)
    requires seated { IsSeated table.now.table_id table.now.key layout.now seat.old.table_id seat.old.me }
    requires connected { seat.old.me.0.role ≡ Connection conn }
    requires page { HasPage layout.now p.0 }
    requires owns { Owns seat.old.me.0 p.0 }
    requires word { word < 256 }
    ensures table { seat.new.table_id ≡ seat.old.table_id }
    ensures stored { StoresRow p.0 word seat.old.me.0 w seat.new.me }
    ensures whole { IsWhole p.0 seat.old.me.0 }
{
    if load_row_as::<Brand>(table, layout, seat, p, word) != w {
        store_row_as::<Brand>(table, layout, conn, seat, p, word, w);
    }
}

fn write_row_as(table: &Words, layout: &Layout, conn: u8, seat: &mut Token, p: Phys, page: &Page)
    requires seated { IsSeated table.now.table_id table.now.key layout.now seat.old.table_id seat.old.me }
    requires connected { seat.old.me.0.role ≡ Connection conn }
    requires page { HasPage layout.now p.0 }
    requires owns { Owns seat.old.me.0 p.0 }
    ensures table { seat.new.table_id ≡ seat.old.table_id }
    ensures written { seat.new.me ≡ bare (with_row p.0 page.now.words seat.old.me.0) }
{
    for word in 0..256u16 {
        let w = page.words[word as usize];
        write_word_as(table, layout, conn, seat, p, word, w);
    }
}

impl<'a> Grip<'a> {
    /// Loads a word of a page's row, by its number below 256. Of a page that the seat owns it is the one that it knows.
    pub fn load_row(&mut self, p: Phys, word: u16) -> u64
        requires page { HasPage self.old.layout p.0 }
        requires word { word < 256 }
        ensures found { LoadsRow p.0 word self.old.seat.me.0 result self.new.seat.me }
        ensures same { IsSame self.old self.new }
    {
        load_row_as::<Brand>(self.table, &self.layout, &mut self.seat, p, word)
    }

    /// Stores a word of the row of a page that the seat owns.
    pub fn store_row(&mut self, p: Phys, word: u16, w: u64)
        requires page { HasPage self.old.layout p.0 }
        requires owns { Owns self.old.seat.me.0 p.0 }
        requires word { word < 256 }
        ensures stored { StoresRow p.0 word self.old.seat.me.0 w self.new.seat.me }
        ensures same { IsSame self.old self.new }
    {
        store_row_as::<Brand>(
            self.table,
            &self.layout,
            self.conn,
            &mut self.seat,
            p,
            word,
            w,
        );
    }

    /// Loads the whole row of a page. Of a page that the seat owns it is the one that it knows.
    pub fn read_page(&mut self, p: Phys, out: &mut Page)
        requires page { HasPage self.old.layout p.0 }
        ensures read { ReadsPage p.0 self.old.seat.me.0 out.new.words }
        ensures seat { self.new.seat.me.0 ≡ self.old.seat.me.0 }
        ensures same { IsSame self.old self.new }
    {
        let layout = self.layout;
        read_row_as(self.table, &layout, &mut self.seat, p, out);
    }

    /// Writes the whole row of a page that the seat owns: each word is loaded, and stored only where it differs.
    pub fn write_page(&mut self, p: Phys, page: &Page)
        requires page { HasPage self.old.layout p.0 }
        requires owns { Owns self.old.seat.me.0 p.0 }
        ensures written { self.new.seat.me.0 ≡ with_row p.0 page.now.words self.old.seat.me.0 }
        ensures same { IsSame self.old self.new }
    {
        let layout = self.layout;
        write_row_as(self.table, &layout, self.conn, &mut self.seat, p, page);
    }
}
