//! Pages that are written anew with one entry changed.
ghost use Rattle.std.specs.Prelude.{◌≡◌, ℕ, List, [], ◌∷◌, ◌++◌, ◌≤◌, ◌<◌, ◌+◌, ◌-◌, take, drop, length};
ghost use Rattle.std.specs.List.{slice_get};
ghost use Rattle.std.specs.Option.{option_copied};
ghost use Rattle.hc_base.specs.Content.{Content, Entry, keys};
ghost use Rattle.hc_base.specs.Layout.{IsPage, HasContent};
ghost use Rattle.hc_page.specs.Drafts.{IsDraft, with_last, entries_from, entry_of, started};
ghost use Rattle.hc_page.specs.Puts.{CanPut, CanTake, CanCopyRange, CanBegin, CanEnd, HasShort, IsAround, with_entries, with_entry, without_entry};

use crate::bytes::copy_key;
use crate::fences::{high, low, right};
use crate::reading::{count, level};
use crate::search::{Found, find, key_of};
use crate::writer::{Draft, Head, NewEntry, begin, finish, push_copied, push_version};
use hc_base::{Logical, Page};
use hc_range::KeyBuf;

/// Writes a leaf's content with a new entry into `out`, whatever `out` held. Where the key has an entry already, that
/// entry goes.
pub fn with_put(page: &Page, new: &NewEntry<'_>, out: &mut Page)
    requires put { (c : Content) × CanPut page.now.words (entry_of new.now) c }
    ensures page { (c : Content) → CanPut page.now.words (entry_of new.now) c → IsPage out.new.words (with_entry c (entry_of new.now)) }
{
    let around = around(page, new.key);
    let total = around.before + 1 + (count(page) - around.after);
    let draft = begin_with(page, around.before, total, out);
    let draft = push_version(draft, new, out);
    end_with(page, around.after, draft, out);
}

/// Writes a leaf's content without an entry into `out`, whatever `out` held.
pub fn without(page: &Page, slot: u16, out: &mut Page)
    requires there { (c : Content) × CanTake page.now.words slot c }
    ensures page { (c : Content) → CanTake page.now.words slot c → IsPage out.new.words (without_entry c slot) }
{
    let slot = slot as usize;
    let draft = begin_with(page, slot, count(page) - 1, out);
    end_with(page, slot + 1, draft, out);
}

/// Writes a leaf's content with an entry of another leaf, by its number there, in its key's place into `out`, whatever
/// `out` held. The entry keeps its transaction, its record and its link. The key must have at most 463 bytes.
pub fn with_copied(page: &Page, from: &Page, slot: u16, out: &mut Page)
    requires put { (c d : Content) × (e : Entry) × HasShort from.now.words slot d e × CanPut page.now.words e c }
    ensures page { (c d : Content) (e : Entry) → HasShort from.now.words slot d e → CanPut page.now.words e c → IsPage out.new.words (with_entry c e) }
{
    let slot = slot as usize;
    let key = entry_key(from, slot);
    let around = around(page, key.as_slice());
    let total = around.before + 1 + (count(page) - around.after);
    let draft = begin_with(page, around.before, total, out);
    let draft = push_copied(draft, from, slot, out);
    end_with(page, around.after, draft, out);
}

/// A copy of an entry's key.
pub fn entry_key(page: &Page, slot: usize) -> KeyBuf
    requires there { (d : Content) × (e : Entry) × HasShort page.now.words slot d e }
    ensures key { (d : Content) (e : Entry) → HasShort page.now.words slot d e → result ≡ e.key }
{
    copy_key(page, key_of(page, level(page), slot))
}

/// How many entries are before a key, and the number from which on they are after it.
#[derive(Debug, Clone, Copy, PartialEq, Eq)]
pub struct Gap {
    pub before: usize,
    pub after: usize,
}

/// What is around a key.
pub fn around(page: &Page, key: &[u8]) -> Gap
    requires valid { HasContent page.now.words }
    ensures around { (c : Content) → IsPage page.now.words c → IsAround c.entries key.now result.before result.after }
{
    match find(page, key) {
        Found::At(slot) => Gap {
            before: slot as usize,
            after: slot as usize + 1,
        },
        Found::Before(slot) => Gap {
            before: slot as usize,
            after: slot as usize,
        },
    }
}

// Head and fences of a page that will have so many entries, and the first ones.
fn begin_with(page: &Page, before: usize, total: usize, out: &mut Page) -> Draft
    requires begin { (c : Content) × CanBegin page.now.words before total c }
    ensures draft { (c : Content) → CanBegin page.now.words before total c → IsDraft result out.new.words (with_entries c (take before c.entries)) }
    ensures total { result.total ≡ total }
{
    let draft = begin_as(page, total, out);
    copy_range(page, 0, before, draft, out)
}

// The entries from a number on, and the end.
fn end_with(page: &Page, after: usize, draft: Draft, out: &mut Page)
    requires end { (c : Content) × (es : List Entry) × CanEnd page.now.words after draft out.old.words c es }
    ensures page { (c : Content) (es : List Entry) → CanEnd page.now.words after draft out.old.words c es → IsPage out.new.words (with_entries c (es ++ drop after c.entries)) }
{
    let draft = copy_range(page, after, count(page), draft, out);
    finish(draft, out);
}

// Head and fences of a page that will have so many entries.
fn begin_as(page: &Page, total: usize, out: &mut Page) -> Draft
    requires room { (c : Content) × IsPage page.now.words c × (entries_from total c ≤ 256) }
    ensures draft { (c : Content) → IsPage page.now.words c → IsDraft result out.new.words (with_entries c []) }
    ensures total { result.total ≡ total }
{
    let low = low(page);
    let high = high(page);
    let head = head_of(page, &low, &high);
    begin(&head, total, out)
}

// What a page has besides its entries.
fn head_of<'a>(page: &Page, low: &'a KeyBuf, high: &'a Option<KeyBuf>) -> Head<'a>
    requires valid { HasContent page.now.words }
    ensures head { (c : Content) → IsPage page.now.words c → low.now ≡ c.low → high.now ≡ c.high → started result ≡ with_entries c [] }
{
    Head {
        level: level(page),
        own: own(page),
        right: right(page),
        low: low.as_slice(),
        high: bytes_of_key(high),
    }
}

fn bytes_of_key<'a>(key: &'a Option<KeyBuf>) -> Option<&'a [u8]>
    ensures { option_copied result ≡ key.now }
{
    match key {
        Some(key) => Some(key.as_slice()),
        None => None,
    }
}

fn own(page: &Page) -> Logical
    requires valid { HasContent page.now.words }
    ensures own { (c : Content) → IsPage page.now.words c → result ≡ c.own }
{
    Logical((page.words[1] / (1 << 32)) as u32)
}

// The entries from a number to another one.
fn copy_range(page: &Page, from: usize, to: usize, draft: Draft, out: &mut Page) -> Draft
    requires room { (c d : Content) × CanCopyRange page.now.words from to draft out.old.words c d }
    ensures draft { (c d : Content) → CanCopyRange page.now.words from to draft out.old.words c d → IsDraft result out.new.words (with_last c (take (to - from) (drop from d.entries))) }
    ensures total { result.total ≡ draft.total }
{
    let mut longer = draft;
    'entries: for slot in from..to {
        longer = push_copied(longer, page, slot, out);
    }
    longer
}
