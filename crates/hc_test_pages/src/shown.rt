//! What is compared of a page.
ghost use Rattle.hc_base.specs.Layout.{HasContent};
ghost use Rattle.hc_test_pages.specs.SmallPages.{HasInner, HasLeaf};

use hc_base::Page;
use hc_page::{Found, child, entry, find, high, level, low, right};

/// What a page is compared with, besides its entries.
#[derive(Clone, Copy)]
pub struct Frame<'a> {
    pub level: u8,
    pub own: u32,
    pub right: Option<u32>,
    pub low: &'a [u8],
    pub high: Option<&'a [u8]>,
}

fn is_high(page: &Page, expected: Option<&[u8]>) -> bool
    requires { HasContent page.now.words }
{
    match (high(page), expected) {
        (Some(high), Some(expected)) => high.as_slice() == expected,
        (None, None) => true,
        _ => false,
    }
}

fn is_right(page: &Page, expected: Option<u32>) -> bool
    requires { HasContent page.now.words }
{
    match (right(page), expected) {
        (Some(right), Some(expected)) => right.0 == expected,
        (None, None) => true,
        _ => false,
    }
}

/// Whether a page has this level, these numbers and these fences.
pub fn has_frame(page: &Page, frame: &Frame<'_>) -> bool
    requires { HasContent page.now.words }
{
    level(page) == frame.level
        && page.words[1] >> 32 == u64::from(frame.own)
        && is_right(page, frame.right)
        && low(page).as_slice() == frame.low
        && is_high(page, frame.high)
}

/// The transaction that put the version at this key, where that has this place on the leaf.
pub fn tid_at(page: &Page, slot: usize, key: &[u8]) -> Option<u32>
    requires { HasLeaf page.now.words }
{
    match find(page, key) {
        Found::At(at) if at as usize == slot => Some(entry(page, at).tid.0),
        _ => None,
    }
}

/// The child at this key, where that has this place on the inner page.
pub fn child_at(page: &Page, slot: usize, key: &[u8]) -> Option<u32>
    requires { HasInner page.now.words }
{
    match find(page, key) {
        Found::At(at) if at as usize == slot => Some(child(page, at).0),
        _ => None,
    }
}
