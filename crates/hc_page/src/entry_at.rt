//! An entry of a page.
ghost use Rattle.std.specs.Prelude.{◌≡◌, ◌+◌, ◌≤◌, ℕ, Some};
ghost use Rattle.std.specs.List.{slice_get};
ghost use Rattle.hc_base.specs.Content.{Content, Entry, Child, IsOlder, OfSome};
ghost use Rattle.hc_base.specs.Layout.{IsPage};
ghost use Rattle.hc_page.specs.Entries.{Tells, HasVersion, HasChild};
ghost use Rattle.hc_page.specs.Reading.{older_in};

use crate::reading::place;
use hc_base::{Logical, Older, Page, Phys, Tid};

/// What an entry of a leaf has, and where. Places and lengths are in bytes.
#[derive(Debug, Clone, Copy, PartialEq, Eq)]
pub struct EntryAt {
    /// The transaction that put it.
    pub tid: Tid,
    pub key_at: u16,
    pub key_len: u16,
    pub rec_at: u16,
    /// 0 for a tombstone too.
    pub rec_len: u16,
    /// Whether it has no record: the key was deleted.
    pub tombstone: bool,
    /// Where the version before it is.
    pub older: Option<Older>,
}

/// An entry of a leaf, by its number from 0.
pub fn entry(page: &Page, slot: u16) -> EntryAt
    requires leaf { HasVersion page.now.words slot }
    ensures entry { (c : Content) (entry : Entry) → IsPage page.now.words c → slice_get c.entries slot ≡ Some entry → Tells page.now.words result entry }
    // So each byte of its key and of its record can be asked for.
    ensures key_within { result.key_at + result.key_len ≤ 2048 }
    ensures rec_within { result.rec_at + result.rec_len ≤ 2048 }
{
    let first = place(page, slot as usize);
    let head = page.words[first];
    let key_at = (first as u16 + 2) * 8;
    let key_len = (head / (1 << 20) % (1 << 12)) as u16;
    EntryAt {
        tid: Tid((head / (1 << 32)) as u32),
        key_at,
        key_len,
        rec_at: key_at + key_len,
        rec_len: (head / (1 << 8) % (1 << 12)) as u16,
        tombstone: head % 2 == 1,
        older: older(page.words[first + 1]),
    }
}

/// The older version that a word names; page 0 is none.
pub fn older(word: u64) -> Option<Older>
    ensures older { result ≡ older_in word }
    ensures within { OfSome IsOlder result }
{
    match (word / (1 << 32)) as u32 {
        0 => None,
        page => Some(Older {
            page: Phys(page),
            slot: (word / (1 << 16) % (1 << 16)) as u16,
        }),
    }
}

/// The child that an entry of an inner page names, by the entry's number from 0.
pub fn child(page: &Page, slot: u16) -> Logical
    requires inner { HasChild page.now.words slot }
    ensures child { (c : Content) (entry : Entry) → IsPage page.now.words c → slice_get c.entries slot ≡ Some entry → entry.held ≡ Child result }
{
    let first = place(page, slot as usize);
    Logical((page.words[first] / (1 << 32)) as u32)
}
