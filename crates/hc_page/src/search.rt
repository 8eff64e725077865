//! Where a key is on a page.
ghost use Rattle.std.specs.Prelude.{◌≡◌, ◌≤◌, ◌<◌, ◌+◌, ◌*◌, ◌^◌, Some, length};
ghost use Rattle.std.specs.List.{slice_get};
ghost use Rattle.hc_base.specs.Content.{Content, Entry, keys};
ghost use Rattle.hc_base.specs.Layout.{IsPage, HasContent};
ghost use Rattle.hc_page.specs.Finding.{IsFound};
ghost use Rattle.hc_page.specs.Reading.{HasEntry, IsKeyAt};

use crate::Sought;
use crate::compare::{KeyAt, compare};
use crate::reading::{count, head, key_len, level, place};
use hc_base::Page;
use std::cmp::Ordering;

/// Where a key is on a page.
#[derive(Debug, Clone, Copy, PartialEq, Eq)]
pub enum Found {
    /// The entry of this number has it.
    At(u16),
    /// No entry has it. Those up to this number have lesser keys, and those from it on greater ones.
    Before(u16),
}

/// Looks a key up among the entries of a page, of a leaf or of an inner one, by halving the directory. On an inner page
/// the child for the key is the entry at the place, or the one before it. For look-ups in several pages put the key
/// into words once, and use `find_sought`.
pub fn find(page: &Page, key: &[u8]) -> Found
    requires valid { HasContent page.now.words }
    ensures found { (c : Content) → IsPage page.now.words c → IsFound (keys c.entries) key.now result }
{
    find_sought(page, &Sought::of(key))
}

/// Looks up a key that is in words already.
pub fn find_sought(page: &Page, key: &Sought<'_>) -> Found
    requires valid { HasContent page.now.words }
    ensures found { (c : Content) → IsPage page.now.words c → IsFound (keys c.entries) key.now.bytes.now result }
{
    let level = level(page);
    let mut low = 0;
    let mut high = count(page);
    'halves: while low < high {
        let middle = low + (high - low) / 2;
        match compare(page, key_of(page, level, middle), key) {
            Ordering::Less => low = middle + 1,
            Ordering::Equal => return Found::At(middle as u16),
            Ordering::Greater => high = middle,
        }
    }
    Found::Before(low as u16)
}

/// Where the key of an entry is.
pub fn key_of(page: &Page, level: u8, slot: usize) -> KeyAt
    requires entry { HasEntry page.now.words level slot }
    ensures fits { result.at * 8 + result.len ≤ 2048 }
    ensures key { (c : Content) (entry : Entry) → IsPage page.now.words c → slice_get c.entries slot ≡ Some entry → IsKeyAt page.now.words result.at result.len entry.key }
{
    let first = place(page, slot);
    KeyAt {
        at: first + head(level),
        len: key_len(level, page.words[first]),
    }
}
