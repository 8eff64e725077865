//! A leaf without fences, and puts into it.
ghost use Rattle.std.specs.Prelude.{◌≡◌, ◌≤◌, length};
ghost use Rattle.hc_page.specs.Open.{IsOpenLeaf};

use hc_base::{Logical, Page, Tid};
use hc_page::{Head, NewEntry, begin, finish, fits, with_put};

/// A leaf with twenty entries, whose keys have 13 bytes. Every second number is there.
pub fn full_leaf() -> Page
    ensures { IsOpenLeaf result.words }
{
    let mut page = Page { words: [0; 256] };
    empty(&mut page);
    let mut next = page;
    'puts: for number in 0..20 {
        put(&page, &key(2 * number), &mut next);
        page = next;
    }
    page
}

/// The key of a number.
pub fn key(number: u8) -> [u8; 13] {
    [
        107, 101, 121, 32, 111, 102, 32, 97, 32, 114, 111, 119, number,
    ]
}

/// A leaf with no entry.
pub fn empty(out: &mut Page)
    ensures { IsOpenLeaf out.new.words }
{
    let head = Head {
        level: 0,
        own: Logical(1),
        right: None,
        low: &[],
        high: None,
    };
    let draft = begin(&head, 0, out);
    finish(draft, out);
}

/// The leaf with the key and a record of the same bytes; without them where they do not fit.
pub fn put(page: &Page, key: &[u8], out: &mut Page)
    requires leaf { IsOpenLeaf page.now.words }
    requires key { length key.now ≤ 463 }
    ensures { IsOpenLeaf out.new.words }
{
    if !fits(page, key, key.len() as u16) {
        *out = *page;
        return;
    }
    let new = NewEntry {
        tid: Tid(1),
        key,
        rec: Some(key),
        older: None,
    };
    with_put(page, &new, out);
}
