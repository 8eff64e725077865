//! Whether an entry fits a page.
ghost use Rattle.std.specs.Prelude.{◌≡◌, ◌≤◌, ◌<◌, ◌+◌, ◌-◌, ◌*◌, ◌/◌, ◌^◌, ℕ, List, Option, length, take, drop, IsTrue, ◌↔◌};
ghost use Rattle.hc_base.specs.declared.numbers.Tid.{Tid as Id};
ghost use Rattle.hc_base.specs.declared.page.Older.{Older as Link};
ghost use Rattle.hc_base.specs.Content.{Content, Entry, Version};
ghost use Rattle.hc_base.specs.Layout.{IsPage, HasContent, record_bytes, used_words, all_words, entry_words};
ghost use Rattle.hc_page.specs.Puts.{with_entry, CanFree, HasShort};

use crate::reading::{count, entry_len, level, place};
use crate::rewrite::{Gap, around, entry_key};
use hc_base::Page;

/// Whether all fits 256 words after an entry with this key, and with a record of this length, is put on a leaf. Where
/// the key has an entry already, that entry goes, and its room counts as free.
pub fn fits(page: &Page, key: &[u8], rec_len: u16) -> bool
    requires valid { HasContent page.now.words }
    requires key { length key.now ≤ 4095 }
    ensures fits { (c : Content) (tid : Id) (rec : Option (List ℕ)) (older : Option Link) → IsPage page.now.words c → length (record_bytes rec) ≡ rec_len → IsTrue result ↔ (used_words (with_entry c (record { key = key.now; held = Version tid rec older })) ≤ 256) }
{
    let len = 2 + (key.len() + rec_len as usize + 7) / 8;
    has_room(page, key, len)
}

/// Whether all fits 256 words after an entry of another leaf, by its number there, is put on a leaf in its key's place.
/// The key must have at most 463 bytes.
pub fn fits_copied(page: &Page, from: &Page, slot: u16) -> bool
    requires valid { HasContent page.now.words }
    requires there { (d : Content) × (e : Entry) × HasShort from.now.words slot d e }
    ensures fits { (c d : Content) (e : Entry) → IsPage page.now.words c → HasShort from.now.words slot d e → IsTrue result ↔ (used_words (with_entry c e) ≤ 256) }
{
    let slot = slot as usize;
    let key = entry_key(from, slot);
    let first = place(from, slot);
    has_room(
        page,
        key.as_slice(),
        entry_len(level(from), from.words[first]),
    )
}

// Whether an entry with this key and with so many words fits.
fn has_room(page: &Page, key: &[u8], len: usize) -> bool
    requires valid { HasContent page.now.words }
    requires len { len < 2 ^ 32 }
    ensures room { (c : Content) (e : Entry) → IsPage page.now.words c → e.key ≡ key.now → len ≡ length (entry_words e) → IsTrue result ↔ (used_words (with_entry c e) ≤ 256) }
{
    let gap = around(page, key);
    let count = count(page);
    let total = gap.before + 1 + (count - gap.after);
    let free = freed(page, gap) + 256 + (count + 3) / 4;
    is_at_most(used(page) + len + (total + 3) / 4, free)
}

fn is_at_most(one: usize, other: usize) -> bool
    ensures { IsTrue result ↔ (one ≤ other) }
{
    one <= other
}

// How many words of the page are used.
fn used(page: &Page) -> usize
    requires valid { HasContent page.now.words }
    ensures small { result ≤ 256 }
    ensures used { (c : Content) → IsPage page.now.words c → result ≡ used_words c }
{
    (page.words[0] / (1 << 16) % (1 << 16)) as usize
}

// How many words the entry in the gap has.
fn freed(page: &Page, gap: Gap) -> usize
    requires gap { (c : Content) × CanFree page.now.words gap.before gap.after c }
    ensures small { result ≤ 256 }
    ensures freed { (c : Content) → CanFree page.now.words gap.before gap.after c → result ≡ length (all_words (take (gap.after - gap.before) (drop gap.before c.entries))) }
{
    if gap.before == gap.after {
        return 0;
    }
    let first = place(page, gap.before);
    entry_len(level(page), page.words[first])
}
