//! Leaves of small entries and inner pages, between fences, to which entries come one by one.
ghost use Rattle.std.specs.Prelude.{◌≡◌, ◌≤◌, ◌<◌, ◌+◌, [], ◌∷◌, length, IsTrue, IfSome};
ghost use Rattle.std.specs.Option.{option_copied};
ghost use Rattle.hc_base.specs.Content.{Content, IsContent, IsWithin};
ghost use Rattle.hc_base.specs.Layout.{HasContent, IsPage, record_bytes};
ghost use Rattle.hc_page.specs.Drafts.{child_of, entry_of, started};
ghost use Rattle.hc_page.specs.Puts.{with_entries};
ghost use Rattle.hc_test_pages.specs.SmallPages.{HasInner, HasLeaf, HasSmallLeaf, IsSmallVersion};

use hc_base::{Logical, Page, Tid};
use hc_page::{Head, NewEntry, begin, finish, fits, high, low, push_child, with_put};
use hc_range::is_below;

/// The leaf that a head says, with no entry.
fn started_leaf(head: &Head<'_>) -> Page
    requires content { IsContent (started head.now) }
    requires leaf { head.now.level ≡ 0 }
    ensures { HasSmallLeaf result.words }
{
    let mut page = Page { words: [7; 256] };
    let draft = begin(head, 0, &mut page);
    finish(draft, &mut page);
    page
}

/// A leaf of number 7 without fences, and with no entry.
pub fn open_leaf() -> Page
    ensures { HasSmallLeaf result.words }
{
    started_leaf(&Head {
        level: 0,
        own: Logical(7),
        right: None,
        low: &[],
        high: None,
    })
}

/// A leaf of number 7 between two fences, at the left of number 9, with no entry.
pub fn leaf_between(low: &[u8], high: &[u8]) -> Page
    requires low { length low.now ≤ 463 }
    requires high { length high.now ≤ 463 }
    ensures { HasSmallLeaf result.words }
{
    started_leaf(&Head {
        level: 0,
        own: Logical(7),
        right: Some(Logical(9)),
        low,
        high: Some(high),
    })
}

/// The inner page that a head says, whose one child has its keys from the low fence on.
fn started_inner(head: &Head<'_>, first: Logical) -> Page
    requires content { IsContent (with_entries (started head.now) (child_of head.now.low.now first ∷ [])) }
    requires inner { 0 < head.now.level }
    ensures { HasInner result.words }
{
    let mut page = Page { words: [7; 256] };
    let draft = begin(head, 1, &mut page);
    let draft = push_child(draft, head.low, first, &mut page);
    finish(draft, &mut page);
    page
}

/// An inner page of number 2 and level 3 without fences, whose one child is number 11: a top.
pub fn top() -> Page
    ensures { HasInner result.words }
{
    started_inner(
        &Head {
            level: 3,
            own: Logical(2),
            right: None,
            low: &[],
            high: None,
        },
        Logical(11),
    )
}

/// An inner page of number 7 and level 1 between two fences, at the left of number 9, whose one child is number 11; `None` where
/// the low fence is not below the high one.
pub fn inner_between(low: &[u8], high: &[u8]) -> Option<Page>
    requires low { length low.now ≤ 463 }
    requires high { length high.now ≤ 463 }
    ensures { IfSome result (λ page. HasInner page.words) }
{
    if !is_below(low, high) {
        return None;
    }
    Some(started_inner(
        &Head {
            level: 1,
            own: Logical(7),
            right: Some(Logical(9)),
            low,
            high: Some(high),
        },
        Logical(11),
    ))
}

/// A version of at most 60 words, with no older one.
pub fn version<'a>(tid: u32, key: &'a [u8], rec: &'a [u8]) -> NewEntry<'a>
    requires key { length key.now ≤ 463 }
    requires rec { length key.now + length rec.now ≤ 464 }
    ensures small { IsSmallVersion (entry_of result) }
    ensures key { result.key.now ≡ key.now }
    ensures rec { length (record_bytes (option_copied result.rec)) ≤ 464 }
{
    NewEntry {
        tid: Tid(tid),
        key,
        rec: Some(rec),
        older: None,
    }
}

/// Whether a key is between a page's fences.
pub fn is_within(page: &Page, key: &[u8]) -> bool
    requires { HasContent page.now.words }
    ensures { (c : Content) → IsPage page.now.words c → IsTrue result → IsWithin c.low c.high key.now }
{
    if is_below(key, low(page).as_slice()) {
        return false;
    }
    match high(page) {
        Some(high) => is_below(key, high.as_slice()),
        None => true,
    }
}

/// How many bytes a record has.
pub fn rec_len(rec: Option<&[u8]>) -> u16
    requires { length (record_bytes (option_copied rec)) ≤ 464 }
    ensures { result ≡ length (record_bytes (option_copied rec.entry)) }
{
    match rec {
        Some(rec) => rec.len() as u16,
        None => 0,
    }
}

/// The leaf with the version in its key's place, where that is within the fences and fits.
pub fn put(page: &mut Page, new: &NewEntry<'_>) -> bool
    requires leaf { HasSmallLeaf page.old.words }
    requires small { IsSmallVersion (entry_of new.now) }
    requires rec { length (record_bytes (option_copied new.now.rec)) ≤ 464 }
    ensures { HasSmallLeaf page.new.words }
{
    if !is_within(page, new.key) || !fits(page, new.key, rec_len(new.rec)) {
        return false;
    }
    let mut out = Page { words: [7; 256] };
    with_put(page, new, &mut out);
    *page = out;
    true
}
