//! Whether words are a page: what they tell of a content is written again, and has to give the same words.
ghost use Rattle.std.specs.Prelude.{◌≡◌, ◌<◌, ◌+◌, IsTrue, ◌↔◌, Some, IfSome, IfNone};
ghost use Rattle.std.specs.Option.{option_copied};
ghost use Rattle.hc_base.specs.Content.{Content, IsBelowEnd};
ghost use Rattle.hc_base.specs.Layout.{IsPage, HasContent};
ghost use Rattle.hc_page.specs.Drafts.{started};
ghost use Rattle.hc_page.specs.Told.{AreBytesOf, TellsHead, IsNext, MayFollow, HasCopied, HasWhole, IsNextCount};

use crate::reading::count;
use crate::told::{all_bytes, any_entry, head_told};
use crate::writer::{Draft, Head, begin, can_begin, finish};
use hc_base::{PAGE_WORDS, Page};
use hc_range::is_below;

/// Whether the words are the layout of some content.
pub fn valid(page: &Page) -> bool
    ensures { IsTrue result ↔ HasContent page.now.words }
{
    let mut copy = Page {
        words: [0; PAGE_WORDS],
    };
    write_again(page, &mut copy) && copy == *page
}

// Writes the content that the words tell of, where there is one.
fn write_again(page: &Page, out: &mut Page) -> bool
    ensures page { IsTrue result → HasContent out.new.words }
    ensures same { (c : Content) → IsPage page.now.words c → IsTrue result × IsPage out.new.words c }
{
    let bytes = all_bytes(page);
    match head_told(page, &bytes) {
        Some(head) => write_with(page, &bytes, &head, out),
        None => false,
    }
}

// The same with the head that the words tell of.
fn write_with(page: &Page, bytes: &[u8], head: &Head<'_>, out: &mut Page) -> bool
    requires bytes { AreBytesOf page.now.words bytes.now }
    requires head { TellsHead page.now.words (Some head.now) }
    ensures page { IsTrue result → HasContent out.new.words }
    ensures same { (c : Content) → IsPage page.now.words c → IsTrue result × IsPage out.new.words c }
{
    let total = count(page);
    if !can_begin(head, total) || !is_enough(head, total) {
        return false;
    }
    let draft = begin(head, total, out);
    match copy_all(page, bytes, head, Copied { draft, last: None }, out) {
        Some(draft) => {
            finish(draft, out);
            true
        }
        None => false,
    }
}

// An inner page has an entry.
fn is_enough(head: &Head<'_>, total: usize) -> bool
    ensures { IsTrue result ↔ (0 < head.now.level → 0 < total) }
{
    head.level == 0 || total > 0
}

/// The entries so far.
#[derive(Debug, Clone, Copy)]
pub struct Copied<'a> {
    pub draft: Draft,
    /// The key of the last one.
    pub last: Option<&'a [u8]>,
}

// Copies all entries.
fn copy_all<'a>(
    page: &Page,
    bytes: &'a [u8],
    head: &Head<'_>,
    begun: Copied<'a>,
    out: &mut Page,
) -> Option<Draft>
    requires bytes { AreBytesOf page.now.words bytes.now }
    requires begun { HasCopied page.now.words head.now begun out.old.words }
    ensures some { IfSome result (λ draft. HasWhole page.now.words head.now draft out.new.words) }
    ensures none { IfNone result (HasContent page.now.words → ⊥) }
{
    let mut copied = begun;
    'entries: while copied.draft.count < copied.draft.total {
        copied = copy_next(page, bytes, head, copied, out)?;
    }
    Some(copied.draft)
}

// Copies the next entry.
fn copy_next<'a>(
    page: &Page,
    bytes: &'a [u8],
    head: &Head<'_>,
    copied: Copied<'a>,
    out: &mut Page,
) -> Option<Copied<'a>>
    requires bytes { AreBytesOf page.now.words bytes.now }
    requires copied { HasCopied page.now.words head.now copied out.old.words }
    requires more { copied.draft.count < copied.draft.total }
    ensures some { IfSome result (λ next. HasCopied page.now.words head.now next out.new.words × IsNextCount copied.entry.draft next.draft) }
    ensures none { IfNone result (HasContent page.now.words → ⊥) }
{
    let entry = any_entry(page, bytes, copied.draft.count)?;
    let key = entry.key();
    if entry.size() > 256 - copied.draft.used || !may_follow(head, copied.last, key) {
        return None;
    }
    Some(Copied {
        draft: entry.push(copied.draft, out),
        last: Some(key),
    })
}

// Whether an entry with this key may come after one with the last key.
fn may_follow(head: &Head<'_>, last: Option<&[u8]>, key: &[u8]) -> bool
    ensures { IsTrue result ↔ MayFollow (started head.now) (option_copied last.entry) key.now }
{
    !is_below(key, head.low) && is_below_end(key, head.high) && is_next(head, last, key)
}

fn is_below_end(key: &[u8], end: Option<&[u8]>) -> bool
    ensures { IsTrue result ↔ IsBelowEnd key.now (option_copied end.entry) }
{
    match end {
        Some(end) => is_below(key, end),
        None => true,
    }
}

fn is_next(head: &Head<'_>, last: Option<&[u8]>, key: &[u8]) -> bool
    ensures { IsTrue result ↔ IsNext head.now.level head.now.low.now (option_copied last.entry) key.now }
{
    match last {
        Some(last) => is_below(last, key),
        None => head.level == 0 || head.low == key,
    }
}
