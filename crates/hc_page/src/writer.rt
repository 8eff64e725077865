//! The writer: every page is written here, from its head on, entry after entry.
//!
//! `begin` writes head and fences, `push_version` and `push_copied` an entry each, and `finish` the number of used
//! words. In between the page is a draft: what is to come is 0.
ghost use Rattle.std.specs.Prelude.{◌≡◌, ◌≤◌, ◌<◌, ◌+◌, ◌-◌, ◌*◌, ◌/◌, ◌%◌, ◌^◌, ◌++◌, [], ◌∷◌, ℕ, length, take, drop, slice_index, slice_set, Some, IsTrue, ◌↔◌};
ghost use Rattle.std.specs.List.{slice_get};
ghost use Rattle.hc_base.specs.declared.numbers.Logical.{Logical as Number};
ghost use Rattle.hc_base.specs.Content.{Content, Entry, IsEntryOf};
ghost use Rattle.std.specs.Option.{option_copied};
ghost use Rattle.hc_base.specs.Layout.{word, words_of, low_words, fence_words, record_bytes, right_number, record_flags, older_word, entry_words, IsPage};
ghost use Rattle.hc_page.specs.Drafts.{IsWritten, IsDraft, IsWhole, HasRoom, CanCopy, with_last, longer, entry_of, child_of, started, entries_from, first_of, second_of, low_from, high_part};

use crate::reading::{entry_len, level, place};
use crate::sought::{first_word, word_from};
use hc_base::{Logical, Older, Page, Tid};

/// A page that is being written.
#[derive(Debug, Clone, Copy, PartialEq, Eq)]
pub struct Draft {
    /// How many entries it will have, and how many it has.
    pub total: usize,
    pub count: usize,
    /// The first word of the entries, and how many words are taken.
    pub first: usize,
    pub used: usize,
}

/// What a page has besides its entries.
#[derive(Debug, Clone, Copy)]
pub struct Head<'a> {
    pub level: u8,
    pub own: Logical,
    pub right: Option<Logical>,
    pub low: &'a [u8],
    pub high: Option<&'a [u8]>,
}

/// An entry of a leaf that is put.
#[derive(Debug, Clone, Copy)]
pub struct NewEntry<'a> {
    /// The transaction that puts it.
    pub tid: Tid,
    pub key: &'a [u8],
    /// `None` deletes the key.
    pub rec: Option<&'a [u8]>,
    /// Where the version before it is.
    pub older: Option<Older>,
}

/// Writes head and fences of a page that will have so many entries.
pub fn begin(head: &Head<'_>, total: usize, out: &mut Page) -> Draft
    requires room { entries_from total (started head.now) ≤ 256 }
    requires low { length head.now.low.now ≤ 463 }
    requires high { length (record_bytes (option_copied head.now.high)) ≤ 463 }
    ensures draft { IsDraft result out.new.words (started head.now) }
    ensures total { result.total ≡ total }
{
    let low = written_low(head);
    let high = bytes_of(head.high);
    let low_at = 4 + (total + 3) / 4;
    let high_at = low_at + (low.len() + 7) / 8;
    let first = high_at + (high.len() + 7) / 8;
    let third = third_word_of(head, low_at as u64, high_at as u64, first as u64);
    clear(
        first_word_of(head, total as u64),
        second_word_of(head),
        third,
        out,
    );
    write_bytes(low, &[], low_at, out);
    write_bytes(high, &[], high_at, out);
    Draft {
        total,
        count: 0,
        first,
        used: first,
    }
}

// These three words, and then zeros.
fn clear(first: u64, second: u64, third: u64, out: &mut Page)
    ensures long { length out.new.words ≡ 256 }
    ensures first { slice_index out.new.words 0 ≡ first }
    ensures second { slice_index out.new.words 1 ≡ second }
    ensures third { slice_index out.new.words 2 ≡ third }
    ensures rest { (i : ℕ) → 3 ≤ i → slice_index out.new.words i ≡ 0 }
{
    let mut words = [0; 256];
    words[0] = first;
    words[1] = second;
    words[2] = third;
    out.words = words;
}

// The low fence, where it is written out.
fn written_low<'a>(head: &Head<'a>) -> &'a [u8]
    ensures { words_of result.now ≡ low_words head.now.level head.now.low.now }
{
    if head.level == 0 { head.low } else { &[] }
}

// The bytes, none where there are none.
fn bytes_of<'a>(bytes: Option<&'a [u8]>) -> &'a [u8]
    ensures fence { words_of result.now ≡ fence_words (option_copied bytes.entry) }
    ensures record { result.now ≡ record_bytes (option_copied bytes.entry) }
{
    match bytes {
        Some(bytes) => bytes,
        None => &[],
    }
}

fn first_word_of(head: &Head<'_>, total: u64) -> u64
    requires { total ≤ 1008 }
    ensures { result ≡ first_of total (started head.now) }
{
    let kind = if head.level == 0 { 1 } else { 2 };
    let no_high = match head.high {
        Some(_) => 0,
        None => 1,
    };
    kind * (1 << 56) + u64::from(head.level) * (1 << 48) + total * (1 << 32) + no_high
}

fn second_word_of(head: &Head<'_>) -> u64
    ensures { result ≡ second_of (started head.now) }
{
    u64::from(head.own.0) * (1 << 32) + number_or_0(head.right)
}

fn number_or_0(number: Option<Logical>) -> u64
    ensures number { result ≡ right_number number }
    ensures small { result < 2 ^ 32 }
{
    match number {
        Some(number) => u64::from(number.0),
        None => 0,
    }
}

fn third_word_of(head: &Head<'_>, low_at: u64, high_at: u64, first: u64) -> u64
    requires places { (low_at ≤ 256) × (high_at ≤ 256) × (first ≤ 256) }
    requires low { length head.now.low.now ≤ 463 }
    requires high { length (record_bytes (option_copied head.now.high)) ≤ 463 }
    ensures { result ≡ low_from head.now.level low_at first * 2 ^ 48 + length head.now.low.now * 2 ^ 32 + high_part high_at (option_copied head.now.high) }
{
    let low_place = if head.level == 0 { low_at } else { first + 1 };
    let high = match head.high {
        Some(high) => high_at * (1 << 16) + high.len() as u64,
        None => 0,
    };
    low_place * (1 << 48) + head.low.len() as u64 * (1 << 32) + high
}

/// Whether head, fences and directory of a page with so many entries fit.
pub fn can_begin(head: &Head<'_>, total: usize) -> bool
    requires total { total < 2 ^ 16 }
    requires low { length head.now.low.now ≤ 463 }
    requires high { length (record_bytes (option_copied head.now.high)) ≤ 463 }
    ensures { IsTrue result ↔ (entries_from total (started head.now) ≤ 256) }
{
    let low = written_low(head).len();
    let high = bytes_of(head.high).len();
    4 + (total + 3) / 4 + (low + 7) / 8 + (high + 7) / 8 <= 256
}

/// Adds an entry of another page, as whole words.
pub fn push_copied(draft: Draft, page: &Page, slot: usize, out: &mut Page) -> Draft
    requires room { CanCopy page.now.words slot draft out.old.words }
    ensures draft { (c d : Content) (e : Entry) → IsDraft draft out.old.words c → IsPage page.now.words d → slice_get d.entries slot ≡ Some e → IsDraft result out.new.words (with_last c (e ∷ [])) }
    ensures total { result.total ≡ draft.total }
{
    let from = place(page, slot);
    let len = entry_len(level(page), page.words[from]);
    enter(draft, out);
    copy_words(page, from, len, draft.used, out);
    draft.longer(len)
}

/// Adds a new entry of a leaf.
pub fn push_version(draft: Draft, new: &NewEntry<'_>, out: &mut Page) -> Draft
    requires entry { IsEntryOf 0 (entry_of new.now) }
    requires room { HasRoom draft out.old.words (entry_of new.now) }
    ensures draft { (c : Content) → IsDraft draft out.old.words c → IsDraft result out.new.words (with_last c (entry_of new.now ∷ [])) }
    ensures total { result.total ≡ draft.total }
{
    enter(draft, out);
    let len = write_version(new, draft.used, out);
    draft.longer(len)
}

/// Adds a new entry of an inner page.
pub fn push_child(draft: Draft, key: &[u8], child: Logical, out: &mut Page) -> Draft
    requires entry { IsEntryOf 1 (child_of key.now child) }
    requires room { HasRoom draft out.old.words (child_of key.now child) }
    ensures draft { (c : Content) → IsDraft draft out.old.words c → IsDraft result out.new.words (with_last c (child_of key.now child ∷ [])) }
    ensures total { result.total ≡ draft.total }
{
    enter(draft, out);
    let len = write_child(key, child, draft.used, out);
    draft.longer(len)
}

// The words of a new entry of an inner page, at a place; how many they are.
fn write_child(key: &[u8], child: Logical, at: usize, out: &mut Page) -> usize
    requires entry { IsEntryOf 1 (child_of key.now child) }
    requires room { at + length (entry_words (child_of key.now child)) ≤ 256 }
    ensures written { IsWritten out.old.words out.new.words at (entry_words (child_of key.now child)) }
    ensures len { result ≡ length (entry_words (child_of key.now child)) }
{
    out.words[at] = u64::from(child.0) * (1 << 32) + key.len() as u64 * (1 << 16);
    write_bytes(key, &[], at + 1, out);
    child_size(key)
}

/// How many words an entry of an inner page with this key has.
pub fn child_size(key: &[u8]) -> usize
    ensures { (child : Number) → result ≡ length (entry_words (child_of key.now child)) }
{
    1 + (key.len() + 7) / 8
}

// The words of a new entry of a leaf, at a place; how many they are.
fn write_version(new: &NewEntry<'_>, at: usize, out: &mut Page) -> usize
    requires entry { IsEntryOf 0 (entry_of new.now) }
    requires room { at + length (entry_words (entry_of new.now)) ≤ 256 }
    ensures written { IsWritten out.old.words out.new.words at (entry_words (entry_of new.now)) }
    ensures len { result ≡ length (entry_words (entry_of new.now)) }
{
    let record = bytes_of(new.rec);
    out.words[at] = version_head(new, record.len() as u64);
    out.words[at + 1] = older_number(new.older);
    write_bytes(new.key, record, at + 2, out);
    version_size(new)
}

/// How many words a new entry of a leaf has.
pub fn version_size(new: &NewEntry<'_>) -> usize
    requires entry { IsEntryOf 0 (entry_of new.now) }
    ensures { result ≡ length (entry_words (entry_of new.now)) }
{
    2 + (new.key.len() + bytes_of(new.rec).len() + 7) / 8
}

fn version_head(new: &NewEntry<'_>, rec_len: u64) -> u64
    requires entry { IsEntryOf 0 (entry_of new.now) }
    requires rec_len { rec_len ≡ length (record_bytes (option_copied new.now.rec)) }
    ensures { result ≡ new.now.tid.0 * 2 ^ 32 + length new.now.key.now * 2 ^ 20 + rec_len * 2 ^ 8 + record_flags (option_copied new.now.rec) }
{
    let flags = match new.rec {
        Some(_) => 0,
        None => 1,
    };
    u64::from(new.tid.0) * (1 << 32) + new.key.len() as u64 * (1 << 20) + rec_len * (1 << 8) + flags
}

fn older_number(older: Option<Older>) -> u64
    ensures { result ≡ older_word older }
{
    match older {
        Some(older) => u64::from(older.page.0) * (1 << 32) + u64::from(older.slot) * (1 << 16),
        None => 0,
    }
}

/// Writes the number of used words, so that the page is whole.
pub fn finish(draft: Draft, out: &mut Page)
    requires whole { (c : Content) × IsWhole draft out.old.words c }
    ensures page { (c : Content) → IsWhole draft out.old.words c → IsPage out.new.words c }
{
    out.words[0] += draft.used as u64 * (1 << 16);
}

impl Draft {
    // The draft with an entry of so many words more.
    fn longer(self, len: usize) -> Draft
        requires { self.count + self.used + len < 2 ^ 32 }
        ensures { result ≡ longer self len }
    {
        Draft {
            count: self.count + 1,
            used: self.used + len,
            ..self
        }
    }
}

// The directory gets the place of the next entry.
fn enter(draft: Draft, out: &mut Page)
    requires count { draft.count < 1008 }
    requires used { draft.used ≤ 256 }
    requires small { slice_index out.old.words (4 + draft.count / 4) < 2 ^ 60 }
    ensures long { length out.old.words ≡ 256 }
    ensures place { out.new.words ≡ slice_set out.old.words (4 + draft.count / 4) (slice_index out.old.words (4 + draft.count / 4) + draft.used * 2 ^ (48 - 16 * (draft.count % 4))) }
{
    out.words[4 + draft.count / 4] += in_quarter(draft.count % 4, draft.used as u64);
}

// A place in its quarter of a word.
fn in_quarter(k: usize, place: u64) -> u64
    requires k { k < 4 }
    requires place { place ≤ 256 }
    ensures value { result ≡ place * 2 ^ (48 - 16 * k) }
    ensures small { result < 2 ^ 57 }
{
    match k {
        0 => place * (1 << 48),
        1 => place * (1 << 32),
        2 => place * (1 << 16),
        _ => place,
    }
}

// Words of another page.
fn copy_words(page: &Page, from: usize, len: usize, at: usize, out: &mut Page)
    requires from { from + len ≤ 256 }
    requires at { at + len ≤ 256 }
    ensures { IsWritten out.old.words out.new.words at (take len (drop from page.now.words)) }
{
    for k in 0..len {
        out.words[at + k] = page.words[from + k];
    }
}

// The bytes of two strings, one after the other, in words.
fn write_bytes(one: &[u8], other: &[u8], at: usize, out: &mut Page)
    requires { at + (length one.now + length other.now + 7) / 8 ≤ 256 }
    ensures { IsWritten out.old.words out.new.words at (words_of (one.now ++ other.now)) }
{
    for k in 0..(one.len() + other.len() + 7) / 8 {
        out.words[at + k] = joined_word(one, other, 8 * k);
    }
}

// The word of the eight bytes from a place on of two strings, one after the other.
fn joined_word(one: &[u8], other: &[u8], at: usize) -> u64
    requires { at < 2 ^ 32 }
    ensures { result ≡ word 8 (drop at (one.now ++ other.now)) }
{
    if at >= one.len() {
        return word_from(other, at - one.len());
    }
    let left = one.len() - at;
    if left >= 8 {
        return word_from(one, at);
    }
    word_from(one, at) + after_bytes(left, first_word(other))
}

// A word after so many bytes of another one.
fn after_bytes(count: usize, word: u64) -> u64
    requires some { 0 < count }
    requires few { count < 8 }
    ensures { result ≡ word / 256 ^ count }
{
    match count {
        1 => word / (1 << 8),
        2 => word / (1 << 16),
        3 => word / (1 << 24),
        4 => word / (1 << 32),
        5 => word / (1 << 40),
        6 => word / (1 << 48),
        _ => word / (1 << 56),
    }
}
