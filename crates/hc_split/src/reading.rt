//! The numbers of a page where its layout puts them, and copies of its keys.
ghost use Rattle.std.specs.Prelude.{◌≡◌, ◌<◌, ◌≤◌, ◌+◌, ◌/◌, ◌%◌, ◌^◌, ℕ, List, Some, length, take, slice_index};
ghost use Rattle.std.specs.List.{slice_get};
ghost use Rattle.hc_base.specs.Content.{Content, Entry};
ghost use Rattle.hc_base.specs.Layout.{IsPage, HasContent, all_words, quarter};
ghost use Rattle.hc_page.specs.Entries.{AreAt};
ghost use Rattle.hc_page.specs.Puts.{HasShort, IsAround};
ghost use Rattle.hc_page.specs.Reading.{place_in, entry_head, key_length};
ghost use Rattle.hc_split.specs.Sizes.{HasEntryAt, HasUpTo, place_at};

use hc_base::{Logical, Page};
use hc_page::{Found, byte, count, find, level};
use hc_range::KeyBuf;

/// The number of the page.
pub fn own(page: &Page) -> Logical
    requires valid { HasContent page.now.words }
    ensures own { (c : Content) → IsPage page.now.words c → result ≡ c.own }
{
    Logical((page.words[1] / (1 << 32)) as u32)
}

/// How many entries are before a key, and the number from which on they are after it.
#[derive(Debug, Clone, Copy, PartialEq, Eq)]
pub struct Gap {
    pub before: usize,
    pub after: usize,
}

/// What is around a key.
pub fn around(page: &Page, key: &[u8]) -> Gap
    requires valid { HasContent page.now.words }
    ensures around { (c : Content) → IsPage page.now.words c → IsAround c.entries key.now result.before result.after }
{
    match find(page, key) {
        Found::At(slot) => Gap {
            before: slot as usize,
            after: slot as usize + 1,
        },
        Found::Before(slot) => Gap {
            before: slot as usize,
            after: slot as usize,
        },
    }
}

/// How many words the first entries have, so many of them.
pub fn words_to(page: &Page, slot: usize) -> usize
    requires there { (c : Content) × HasUpTo page.now.words slot c }
    ensures small { result ≤ 256 }
    ensures words { (c : Content) → HasUpTo page.now.words slot c → result ≡ length (all_words (take slot c.entries)) }
{
    end_of(page, slot) - end_of(page, 0)
}

// The word after the first entries, so many of them.
fn end_of(page: &Page, slot: usize) -> usize
    requires there { (c : Content) × HasUpTo page.now.words slot c }
    ensures small { result ≤ 256 }
    ensures end { (c : Content) → HasUpTo page.now.words slot c → result ≡ place_at c slot }
{
    if slot == count(page) as usize {
        used(page)
    } else {
        place(page, slot)
    }
}

// How many words of the page are used.
fn used(page: &Page) -> usize
    ensures { result ≡ slice_index page.now.words 0 / 2 ^ 16 % 2 ^ 16 }
{
    (page.words[0] / (1 << 16) % (1 << 16)) as usize
}

// The first word of an entry.
fn place(page: &Page, slot: usize) -> usize
    requires { slot < 1008 }
    ensures { result ≡ place_in page.now.words slot }
{
    let word = page.words[4 + slot / 4];
    quarter(slot % 4, word) as usize
}

// Number k of the four in a word.
fn quarter(k: usize, word: u64) -> u64
    ensures { result ≡ quarter k word }
{
    match k {
        0 => word / (1 << 48),
        1 => word / (1 << 32) % (1 << 16),
        2 => word / (1 << 16) % (1 << 16),
        _ => word % (1 << 16),
    }
}

/// How many bytes the key of an entry has.
pub fn key_len(page: &Page, slot: usize) -> usize
    requires entry { HasEntryAt page.now.words slot }
    ensures len { (c : Content) (e : Entry) → IsPage page.now.words c → slice_get c.entries slot ≡ Some e → result ≡ length e.key }
{
    key_len_in(level(page), page.words[place(page, slot)])
}

// The length of an entry's key, from its first word.
fn key_len_in(level: u8, word: u64) -> usize
    ensures { result ≡ key_length level word }
{
    if level == 0 {
        (word / (1 << 20) % (1 << 12)) as usize
    } else {
        (word / (1 << 16) % (1 << 16)) as usize
    }
}

// How many words an entry has before its key.
fn head(level: u8) -> usize
    ensures { result ≡ entry_head level }
{
    if level == 0 { 2 } else { 1 }
}

/// A copy of the key of an entry. It must have at most 463 bytes.
pub fn copy_key(page: &Page, slot: usize) -> KeyBuf
    requires there { (d : Content) × (e : Entry) × HasShort page.now.words slot d e }
    ensures key { (d : Content) (e : Entry) → HasShort page.now.words slot d e → result ≡ e.key }
{
    let len = key_len(page, slot);
    copy_bytes(page, (place(page, slot) + head(level(page))) * 8, len)
}

// A copy of bytes of the page.
fn copy_bytes(page: &Page, at: usize, len: usize) -> KeyBuf
    requires within { at + len ≤ 2048 }
    requires short { len ≤ 463 }
    ensures { (bytes : List ℕ) → AreAt page.now.words at len bytes → result ≡ bytes }
{
    let mut copy = [0; 463];
    for k in 0..len {
        copy[k] = byte(page, (at + k) as u16);
    }
    KeyBuf::from_slice(&copy[..len])
}
