//! The entries of a page with one more in its key's place, as a list that is not written anywhere.
ghost use Rattle.std.specs.Prelude.{◌≡◌, ◌<◌, ◌≤◌, ◌+◌, ◌-◌, [], ◌∷◌, ℕ, length, take, Some};
ghost use Rattle.std.specs.Option.{option_copied};
ghost use Rattle.std.specs.List.{slice_get};
ghost use Rattle.hc_base.specs.declared.numbers.Logical.{Logical as Number};
ghost use Rattle.hc_base.specs.Content.{Content, Entry, IsEntryOf};
ghost use Rattle.hc_base.specs.Layout.{IsPage, HasContent, all_words, entry_words, record_bytes};
ghost use Rattle.hc_page.specs.Drafts.{IsDraft, HasRoom, child_of, entry_of, with_last};
ghost use Rattle.hc_split.specs.Joined.{CanPush, CanWrite, IsJoined, IsSource, WillJoin, entry_added, joined_entries, key_of, part_of};

use crate::reading::{around, copy_key, key_len, words_to};
use hc_base::{Logical, Page};
use hc_page::{Draft, Head, NewEntry, begin, count, finish, push_child, push_copied, push_version};
use hc_range::KeyBuf;

/// An entry that comes to a page: of a leaf, or of an inner page.
#[derive(Debug, Clone, Copy)]
pub enum Added<'a> {
    Version(NewEntry<'a>),
    Child { key: &'a [u8], child: Logical },
}

/// The entries of a page with one more in its key's place: the page's first ones, the new one, and the page's entries from
/// a number on.
#[derive(Debug, Clone, Copy)]
pub struct Joined<'a> {
    pub page: &'a Page,
    pub added: Added<'a>,
    pub before: usize,
    pub after: usize,
}

/// Where an entry of a joined list comes from: it is the page's entry of this number, or the new one.
#[derive(Debug, Clone, Copy, PartialEq, Eq)]
pub enum Source {
    Page(usize),
    New,
}

impl<'a> Added<'a> {
    /// The entry's key.
    pub fn key(&self) -> &'a [u8]
        ensures { result.now ≡ (entry_added self.now).key }
    {
        match self {
            Added::Version(new) => new.key,
            Added::Child { key, .. } => key,
        }
    }

    /// How many words it has.
    pub fn size(&self) -> usize
        requires { (level : ℕ) × IsEntryOf level (entry_added self.now) }
        ensures { result ≡ length (entry_words (entry_added self.now)) }
    {
        match self {
            Added::Version(new) => version_size(new),
            Added::Child { key, .. } => child_size(key),
        }
    }

    /// Adds it to a draft.
    pub fn push(&self, draft: Draft, out: &mut Page) -> Draft
        requires entry { (level : ℕ) × IsEntryOf level (entry_added self.now) }
        requires room { HasRoom draft out.old.words (entry_added self.now) }
        ensures draft { (c : Content) → IsDraft draft out.old.words c → IsDraft result out.new.words (with_last c (entry_added self.now ∷ [])) }
        ensures total { result.total ≡ draft.total }
    {
        match self {
            Added::Version(new) => push_version(draft, new, out),
            Added::Child { key, child } => push_child(draft, key, *child, out),
        }
    }
}

// How many words a new entry of a leaf has.
fn version_size(new: &NewEntry<'_>) -> usize
    requires entry { IsEntryOf 0 (entry_of new.now) }
    ensures { result ≡ length (entry_words (entry_of new.now)) }
{
    2 + (new.key.len() + record_len(new.rec) + 7) / 8
}

// How many words an entry of an inner page with this key has.
fn child_size(key: &[u8]) -> usize
    ensures { (child : Number) → result ≡ length (entry_words (child_of key.now child)) }
{
    1 + (key.len() + 7) / 8
}

// How many bytes a record has, none where there is none.
fn record_len(rec: Option<&[u8]>) -> usize
    ensures { result ≡ length (record_bytes (option_copied rec.entry)) }
{
    match rec {
        Some(bytes) => bytes.len(),
        None => 0,
    }
}

impl<'a> Joined<'a> {
    /// The entries of a page with one more.
    pub fn of(page: &'a Page, added: Added<'a>) -> Joined<'a>
        requires valid { HasContent page.now.words }
        ensures joined { (c : Content) → WillJoin page.now.words (entry_added added.entry) c → IsJoined result c }
        ensures page { result.page.now.words ≡ page.now.words }
        ensures added { result.added ≡ added.entry }
    {
        let gap = around(page, added.key());
        Joined {
            page,
            added,
            before: gap.before,
            after: gap.after,
        }
    }

    /// How many they are.
    pub fn count(&self) -> usize
        requires joined { (c : Content) × IsJoined self.now c }
        ensures small { result ≤ 1009 }
        ensures count { (c : Content) → IsJoined self.now c → result ≡ length (joined_entries self.now c) }
    {
        self.before + 1 + (count(self.page) as usize - self.after)
    }

    // Where an entry comes from.
    fn source(&self, slot: usize) -> Source
        requires there { (c : Content) × IsJoined self.now c × (slot < length (joined_entries self.now c)) }
        ensures source { (c : Content) → IsJoined self.now c → slot < length (joined_entries self.now c) → IsSource self.now c slot result }
    {
        if slot < self.before {
            Source::Page(slot)
        } else if slot == self.before {
            Source::New
        } else {
            Source::Page(slot - 1 - self.before + self.after)
        }
    }

    /// How many words the first entries have, so many of them.
    pub fn words_to(&self, slot: usize) -> usize
        requires there { (c : Content) × IsJoined self.now c × (slot ≤ length (joined_entries self.now c)) }
        ensures small { result ≤ 4096 }
        ensures words { (c : Content) → IsJoined self.now c → slot ≤ length (joined_entries self.now c) → result ≡ length (all_words (take slot (joined_entries self.now c))) }
    {
        if slot <= self.before {
            return words_to(self.page, slot);
        }
        let rest = words_to(self.page, slot - 1 - self.before + self.after)
            - words_to(self.page, self.after);
        words_to(self.page, self.before) + self.added.size() + rest
    }

    /// How many bytes the key of an entry has.
    pub fn key_len(&self, slot: usize) -> usize
        requires there { (c : Content) × IsJoined self.now c × (slot < length (joined_entries self.now c)) }
        ensures len { (c : Content) → IsJoined self.now c → slot < length (joined_entries self.now c) → result ≡ length (key_of (joined_entries self.now c) slot) }
    {
        match self.source(slot) {
            Source::Page(of) => key_len(self.page, of),
            Source::New => self.added.key().len(),
        }
    }

    /// A copy of the key of an entry.
    pub fn key(&self, slot: usize) -> KeyBuf
        requires there { (c : Content) × IsJoined self.now c × (slot < length (joined_entries self.now c)) }
        ensures key { (c : Content) → IsJoined self.now c → slot < length (joined_entries self.now c) → result ≡ key_of (joined_entries self.now c) slot }
    {
        match self.source(slot) {
            Source::Page(of) => copy_key(self.page, of),
            Source::New => KeyBuf::from_slice(self.added.key()),
        }
    }

    // Adds an entry to a draft.
    fn push(&self, slot: usize, draft: Draft, out: &mut Page) -> Draft
        requires room { (c : Content) × (e : Entry) × CanPush self.now slot draft out.old.words c e }
        ensures draft { (c d : Content) (e : Entry) → CanPush self.now slot draft out.old.words c e → IsDraft draft out.old.words d → IsDraft result out.new.words (with_last d (e ∷ [])) }
        ensures total { result.total ≡ draft.total }
    {
        match self.source(slot) {
            Source::Page(of) => push_copied(draft, self.page, of, out),
            Source::New => self.added.push(draft, out),
        }
    }

    /// Writes a page with this head and with the entries from a number to another one.
    pub fn write(&self, head: &Head<'_>, from: usize, to: usize, out: &mut Page)
        requires write { (c : Content) × CanWrite self.now head.now from to c }
        ensures page { (c : Content) → CanWrite self.now head.now from to c → IsPage out.new.words (part_of self.now head.now from to c) }
    {
        let mut draft = begin(head, to - from, out);
        'entries: for slot in from..to {
            draft = self.push(slot, draft, out);
        }
        finish(draft, out);
    }
}
