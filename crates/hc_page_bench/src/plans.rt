//! Times of plans: a full leaf that is halved, and an inner page that gets one child more.
ghost use Rattle.std.specs.Prelude.{◌≤◌, length};
ghost use Rattle.hc_base.specs.Content.{Content};
ghost use Rattle.hc_page.specs.Drafts.{entry_of};
ghost use Rattle.hc_split.specs.Plans.{IsFullLeaf, IsParent};
ghost use Rattle.hc_test_pages.specs.SmallPages.{HasInner, HasSmallLeaf};

use crate::leaf::key;
use crate::rounds::copies;
use crate::timed::{Timed, report};
use hc_base::{Logical, Page};
use hc_page::NewEntry;
use hc_split::{halve, post};
use hc_test_pages::{can_post, is_full, open_leaf, posted, put, top, version};
use std::io;
use std::time::Instant;

const TURNS: u32 = 40;

const ROUNDS: u32 = 2_000;

// The record of an entry of twelve words.
const RECORD: [u8; 67] = [114; 67];

// A leaf with twenty entries of twelve words, which has no room for one more.
fn full_leaf() -> Page
    ensures { HasSmallLeaf result.words }
{
    let mut page = open_leaf();
    for number in 0..20 {
        let key = key(2 * number);
        put(&mut page, &version(1, &key, &RECORD));
    }
    page
}

// An inner page with twenty children of three words and that of the empty key.
fn inner_page() -> Page
    ensures { HasInner result.words }
{
    let mut page = top();
    for number in 0..20 {
        page = with_child(page, 2 * number);
    }
    page
}

fn with_child(page: Page, number: u8) -> Page
    requires { HasInner page.words }
    ensures { HasInner result.words }
{
    match posted(&page, &key(number), Logical(20)) {
        Some(more) => more,
        None => page,
    }
}

fn halvings(page: &Page, new: &NewEntry<'_>) -> u64
    requires full { (c : Content) × IsFullLeaf page.now.words (entry_of new.now) c }
{
    let mut left = *page;
    let mut right = *page;
    let mut sum = 0u64;
    for _ in 0..ROUNDS {
        halve(page, new, Logical(8), &mut left, &mut right);
        sum = sum.wrapping_add(left.words[0]).wrapping_add(right.words[0]);
    }
    sum
}

fn posts(page: &Page, key: &[u8], child: Logical) -> u64
    requires parent { (c : Content) × IsParent page.now.words key.now child c }
{
    let mut out = *page;
    let mut sum = 0u64;
    for _ in 0..ROUNDS {
        post(page, key, child, &mut out);
        sum = sum.wrapping_add(out.words[0]);
    }
    sum
}

// A leaf that is not full is not halved.
fn halvings_of(leaf: &Page) -> u64
    requires { HasSmallLeaf leaf.now.words }
{
    let key = key(21);
    let new = version(1, &key, &RECORD);
    if is_full(leaf, &new) {
        halvings(leaf, &new)
    } else {
        0
    }
}

fn posts_of(inner: &Page) -> u64
    requires { HasInner inner.now.words }
{
    let key = key(21);
    if can_post(inner, &key, Logical(99)) {
        posts(inner, &key, Logical(99))
    } else {
        0
    }
}

pub fn time_plans(rt: &HostRuntime) -> io::Result<()> {
    let leaf = full_leaf();
    let inner = inner_page();
    let mut copy = Timed::new();
    let mut halved = Timed::new();
    let mut post = Timed::new();
    for _ in 0..TURNS {
        let start = Instant::now(rt)?;
        let sum = copies(ROUNDS);
        copy = copy.with(sum, start.elapsed(rt)?);
        let start = Instant::now(rt)?;
        let sum = halvings_of(&leaf);
        halved = halved.with(sum, start.elapsed(rt)?);
        let start = Instant::now(rt)?;
        let sum = posts_of(&inner);
        post = post.with(sum, start.elapsed(rt)?);
    }
    report(rt, "halvings of a full leaf", halved, "a copy", copy)?;
    report(rt, "posts of a child", post, "a copy", copy)
}
