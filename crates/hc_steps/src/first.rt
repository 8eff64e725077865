//! The words of a new table: pages 1 and 2 have the logical numbers 1 and 2, all else is free.
ghost use Rattle.std.specs.Prelude.{◌≡◌, ◌<◌, length, slice_set, IfOk};
ghost use Rattle.hc_base.specs.Layout.{IsPage};
ghost use Rattle.hc_rows.specs.Places.{IsLayout, HasPage, HasNumber, page_at, map_at, total};
ghost use Rattle.hc_rule.specs.Start.{IsFirst, IsLaid, IsNamed, IsBlank, IsWritten, first_leaf as empty, first_inner as over, mapped, names};

use hc_base::{Logical, MapWord, Page, PageWord, Phys};
use hc_page::{Head, begin, finish, push_child};
use hc_range::NoMemory;
use hc_rows::Layout;
use std::alloc::Global;

/// The words of a new table. For the time of the call they take memory besides.
pub fn first_words(alloc: Global, layout: &Layout) -> Result<Vec<u64>, NoMemory>
    requires { IsLayout layout.now }
    ensures { IfOk result (λ words. IsFirst layout.now words.items) }
{
    let mut words = vec![in alloc; 0; layout.total() as usize]?;
    lay_pages(layout, words.as_mut_slice());
    name_pages(layout, words.as_mut_slice());
    Ok(words)
}

// Writes the rows of the first two pages.
fn lay_pages(layout: &Layout, words: &mut [u64])
    requires layout { IsLayout layout.now }
    requires blank { IsBlank layout.now words.old }
    ensures { IsWritten layout.now words.new }
{
    let mut page = Page { words: [0; 256] };
    first_leaf(&mut page);
    lay_row(layout, Phys(1), &page, words);
    first_inner(&mut page);
    lay_row(layout, Phys(2), &page, words);
}

// Writes the words of the first two pages and of their numbers.
fn name_pages(layout: &Layout, words: &mut [u64])
    requires layout { IsLayout layout.now }
    requires sized { length words.old ≡ total layout.now }
    ensures { IsNamed layout.now words.old words.new }
{
    name_page(layout, 1, words);
    name_page(layout, 2, words);
    name_number(layout, 1, words);
    name_number(layout, 2, words);
}

// The page has the logical number that is its own.
fn name_page(layout: &Layout, number: u32, words: &mut [u64])
    requires layout { IsLayout layout.now }
    requires page { HasPage layout.now number }
    requires sized { length words.old ≡ total layout.now }
    ensures { words.new ≡ slice_set words.old (page_at layout.now number) (mapped number) }
{
    let place = layout.page_at(Phys(number)) as usize;
    words[place] = PageWord::Mapped(Logical(number)).pack();
}

// The logical number names the page of this number.
fn name_number(layout: &Layout, number: u32, words: &mut [u64])
    requires layout { IsLayout layout.now }
    requires number { HasNumber layout.now number }
    requires sized { length words.old ≡ total layout.now }
    ensures { words.new ≡ slice_set words.old (map_at layout.now number) (names number) }
{
    let place = layout.map_at(Logical(number)) as usize;
    words[place] = MapWord::Page(Phys(number)).pack();
}

fn first_leaf(out: &mut Page)
    ensures content { IsPage out.new.words empty }
    ensures long { length out.new.words ≡ 256 }
{
    let head = Head {
        level: 0,
        own: Logical(1),
        right: None,
        low: &[],
        high: None,
    };
    let draft = begin(&head, 0, out);
    finish(draft, out);
}

// An inner page of level 1, which has the leaf for all keys.
fn first_inner(out: &mut Page)
    ensures content { IsPage out.new.words over }
    ensures long { length out.new.words ≡ 256 }
{
    let head = Head {
        level: 1,
        own: Logical(2),
        right: None,
        low: &[],
        high: None,
    };
    let draft = begin(&head, 1, out);
    let draft = push_child(draft, &[], Logical(1), out);
    finish(draft, out);
}

fn lay_row(layout: &Layout, p: Phys, page: &Page, words: &mut [u64])
    requires layout { IsLayout layout.now }
    requires page { HasPage layout.now p.0 }
    requires long { length page.now.words ≡ 256 }
    requires sized { length words.old ≡ total layout.now }
    ensures { IsLaid layout.now words.old words.new p.0 page.now.words }
{
    for k in 0..256u16 {
        words[layout.row_at(p, k) as usize] = page.words[k as usize];
    }
}
