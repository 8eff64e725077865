//! What words tell of a content, whether they are a page or not. Each place is tested before it is read.
ghost use Rattle.std.specs.Prelude.{◌≡◌, ◌≤◌, ◌<◌, ◌+◌, ◌*◌, ◌/◌, ◌%◌, ◌^◌, ℕ, List, [], ◌∷◌, length, cond, Option, Some, None};
ghost use Rattle.std.specs.Option.{option_copied};
ghost use Rattle.hc_base.specs.Content.{Content, IsEntryOf};
ghost use Rattle.hc_base.specs.Layout.{entry_words};
ghost use Rattle.hc_page.specs.Drafts.{IsDraft, HasRoom, with_last};
ghost use Rattle.hc_page.specs.Told.{AreBytesOf, TellsBytes, TellsFence, TellsHead, TellsVersion, TellsChild, TellsEntry, entry_told};

use crate::bytes::byte;
use crate::entry_at::older;
use crate::fences::number;
use crate::reading::{key_len, level, place, rec_len};
use crate::writer::{Draft, Head, NewEntry, child_size, push_child, push_version, version_size};
use hc_base::{Logical, Page, Tid};

/// An entry of either kind of page.
#[derive(Debug, Clone, Copy)]
pub enum Told<'a> {
    Version(NewEntry<'a>),
    Child { key: &'a [u8], child: Logical },
}

/// All bytes of a page.
pub fn all_bytes(page: &Page) -> [u8; 2048]
    ensures { AreBytesOf page.now.words result }
{
    let mut bytes = [0; 2048];
    for k in 0..2048u16 {
        bytes[k as usize] = byte(page, k);
    }
    bytes
}

// So many bytes from a place on, where there are so many.
fn part(bytes: &[u8], at: usize, len: usize) -> Option<&[u8]>
    requires { at + len < 2 ^ 32 }
    ensures { (words : List ℕ) → AreBytesOf words bytes.now → TellsBytes words at len (option_copied result) }
{
    bytes.get(at..at + len)
}

/// What the words tell of what a page has besides its entries.
pub fn head_told<'a>(page: &Page, bytes: &'a [u8]) -> Option<Head<'a>>
    requires bytes { AreBytesOf page.now.words bytes.now }
    ensures { TellsHead page.now.words result }
{
    let own = upper(page.words[1]);
    if own == 0 {
        return None;
    }
    let low = fence(bytes, page.words[2] / (1 << 32))?;
    let high = if page.words[0] % 2 == 1 {
        None
    } else {
        Some(fence(bytes, page.words[2] % (1 << 32))?)
    };
    Some(Head {
        level: level(page),
        own: Logical(own),
        right: number((page.words[1] % (1 << 32)) as u32),
        low,
        high,
    })
}

// The fence whose first word and length these are, 16 bits each.
fn fence(bytes: &[u8], word: u64) -> Option<&[u8]>
    requires { word < 2 ^ 32 }
    ensures { (words : List ℕ) → AreBytesOf words bytes.now → TellsFence words word (option_copied result) }
{
    let len = (word % (1 << 16)) as usize;
    if len > 463 {
        return None;
    }
    part(bytes, (word / (1 << 16)) as usize * 8, len)
}

// The upper half of a word.
fn upper(word: u64) -> u32
    ensures half { result ≡ word / 2 ^ 32 }
    ensures small { result < 2 ^ 32 }
{
    (word / (1 << 32)) as u32
}

/// What the words tell of an entry, by its number.
pub fn any_entry<'a>(page: &Page, bytes: &'a [u8], slot: usize) -> Option<Told<'a>>
    requires bytes { AreBytesOf page.now.words bytes.now }
    requires slot { slot < 1008 }
    ensures { TellsEntry page.now.words slot result }
{
    let at = place(page, slot);
    if level(page) == 0 {
        Some(Told::Version(version_told(page, bytes, at)?))
    } else {
        child_told(page, bytes, at)
    }
}

// The entry of a leaf whose words begin at a place.
fn version_told<'a>(page: &Page, bytes: &'a [u8], at: usize) -> Option<NewEntry<'a>>
    requires bytes { AreBytesOf page.now.words bytes.now }
    ensures { TellsVersion page.now.words at result }
{
    if at > 254 {
        return None;
    }
    let head = page.words[at];
    let key_len = key_len(0, head);
    let key = part(bytes, (at + 2) * 8, key_len)?;
    let rec = part(bytes, (at + 2) * 8 + key_len, rec_len(0, head))?;
    Some(NewEntry {
        tid: Tid(upper(head)),
        key,
        rec: record(head % 2 == 1, rec),
        older: older(page.words[at + 1]),
    })
}

// The record, or none.
fn record(tombstone: bool, rec: &[u8]) -> Option<&[u8]>
    ensures { option_copied result ≡ cond tombstone None (Some rec.now) }
{
    if tombstone { None } else { Some(rec) }
}

// The entry of an inner page whose words begin at a place.
fn child_told<'a>(page: &Page, bytes: &'a [u8], at: usize) -> Option<Told<'a>>
    requires bytes { AreBytesOf page.now.words bytes.now }
    ensures { TellsChild page.now.words at result }
{
    if at > 255 {
        return None;
    }
    let head = page.words[at];
    let child = upper(head);
    let key_len = key_len(1, head);
    if child == 0 || key_len > 463 {
        return None;
    }
    let key = part(bytes, (at + 1) * 8, key_len)?;
    Some(Told::Child {
        key,
        child: Logical(child),
    })
}

impl<'a> Told<'a> {
    /// The entry's key.
    pub fn key(&self) -> &'a [u8]
        ensures { result.now ≡ (entry_told self.now).key }
    {
        match self {
            Told::Version(new) => new.key,
            Told::Child { key, .. } => key,
        }
    }

    /// How many words it has.
    pub fn size(&self) -> usize
        requires { (level : ℕ) × IsEntryOf level (entry_told self.now) }
        ensures { result ≡ length (entry_words (entry_told self.now)) }
    {
        match self {
            Told::Version(new) => version_size(new),
            Told::Child { key, .. } => child_size(key),
        }
    }

    /// Adds it to a draft.
    pub fn push(&self, draft: Draft, out: &mut Page) -> Draft
        requires entry { (level : ℕ) × IsEntryOf level (entry_told self.now) }
        requires room { HasRoom draft out.old.words (entry_told self.now) }
        ensures draft { (c : Content) → IsDraft draft out.old.words c → IsDraft result out.new.words (with_last c (entry_told self.now ∷ [])) }
        ensures total { result.total ≡ draft.total }
    {
        match self {
            Told::Version(new) => push_version(draft, new, out),
            Told::Child { key, child } => push_child(draft, key, *child, out),
        }
    }
}
