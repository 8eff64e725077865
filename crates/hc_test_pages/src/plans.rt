//! Plans whose conditions are looked at first.
ghost use Rattle.std.specs.Prelude.{◌≤◌, ◌<◌, length, IsTrue, IfSome};
ghost use Rattle.std.specs.Option.{option_copied};
ghost use Rattle.hc_base.specs.Content.{Content};
ghost use Rattle.hc_base.specs.Layout.{record_bytes};
ghost use Rattle.hc_page.specs.Drafts.{entry_of};
ghost use Rattle.hc_split.specs.Plans.{IsFullLeaf, IsParent};
ghost use Rattle.hc_test_pages.specs.SmallPages.{HasInner, HasLeaf, HasSmallLeaf, IsSmallVersion};

use crate::small_pages::{is_within, rec_len};
use hc_base::{Logical, Page};
use hc_page::{NewEntry, fits, level};
use hc_split::{grow_root, halve, halve_inner, post};

/// The two pages that one was cut into. The right one has number 8.
#[derive(Drop)]
pub struct Halves {
    pub left: Page,
    pub right: Page,
}

/// The top that grew, and the two pages that it names: numbers 21 and 22.
#[derive(Drop)]
pub struct Growth {
    pub left: Page,
    pub right: Page,
    pub top: Page,
}

fn blank() -> Page {
    Page { words: [7; 256] }
}

/// Whether the version's key is between the leaf's fences, and the leaf has no room for it.
pub fn is_full(page: &Page, new: &NewEntry<'_>) -> bool
    requires leaf { HasSmallLeaf page.now.words }
    requires small { IsSmallVersion (entry_of new.now) }
    requires rec { length (record_bytes (option_copied new.now.rec)) ≤ 464 }
    ensures { IsTrue result → (c : Content) × IsFullLeaf page.now.words (entry_of new.now) c }
{
    is_within(page, new.key) && !fits(page, new.key, rec_len(new.rec))
}

/// Whether the child's low fence is between the inner page's fences.
pub fn can_post(page: &Page, key: &[u8], child: Logical) -> bool
    requires inner { HasInner page.now.words }
    requires key { length key.now ≤ 463 }
    requires child { 0 < child.0 }
    ensures { IsTrue result → (c : Content) × IsParent page.now.words key.now child c }
{
    is_within(page, key)
}

/// The leaf with the version, for which it has no room, as two.
pub fn halved(page: &Page, new: &NewEntry<'_>) -> Option<Halves>
    requires leaf { HasSmallLeaf page.now.words }
    requires small { IsSmallVersion (entry_of new.now) }
    requires rec { length (record_bytes (option_copied new.now.rec)) ≤ 464 }
    ensures left { IfSome result (λ halves. HasLeaf halves.left.words) }
    ensures right { IfSome result (λ halves. HasLeaf halves.right.words) }
{
    if !is_full(page, new) {
        return None;
    }
    let mut left = blank();
    let mut right = blank();
    halve(page, new, Logical(8), &mut left, &mut right);
    Some(Halves { left, right })
}

/// The inner page with the child, where it fits.
pub fn posted(page: &Page, key: &[u8], child: Logical) -> Option<Page>
    requires inner { HasInner page.now.words }
    requires key { length key.now ≤ 463 }
    requires child { 0 < child.0 }
    ensures { IfSome result (λ page. HasInner page.words) }
{
    if !can_post(page, key, child) {
        return None;
    }
    let mut out = blank();
    if post(page, key, child, &mut out) {
        Some(out)
    } else {
        None
    }
}

/// The inner page with the child, for which it has no room, as two.
pub fn halved_inner(page: &Page, key: &[u8], child: Logical) -> Option<Halves>
    requires inner { HasInner page.now.words }
    requires key { length key.now ≤ 463 }
    requires child { 0 < child.0 }
    ensures left { IfSome result (λ halves. HasInner halves.left.words) }
    ensures right { IfSome result (λ halves. HasInner halves.right.words) }
{
    if !can_post(page, key, child) {
        return None;
    }
    let mut left = blank();
    let mut right = blank();
    if post(page, key, child, &mut left) {
        return None;
    }
    halve_inner(page, key, child, Logical(8), &mut left, &mut right);
    Some(Halves { left, right })
}

/// The top with the child, for which it has no room, one level higher.
pub fn grown(page: &Page, key: &[u8], child: Logical) -> Option<Growth>
    requires inner { HasInner page.now.words }
    requires key { length key.now ≤ 463 }
    requires child { 0 < child.0 }
    ensures left { IfSome result (λ growth. HasInner growth.left.words) }
    ensures right { IfSome result (λ growth. HasInner growth.right.words) }
    ensures top { IfSome result (λ growth. HasInner growth.top.words) }
{
    if !can_post(page, key, child) {
        return None;
    }
    let mut left = blank();
    let mut right = blank();
    let mut top = blank();
    if level(page) == 255 || post(page, key, child, &mut top) {
        return None;
    }
    grow_root(
        page,
        key,
        child,
        Logical(21),
        Logical(22),
        &mut left,
        &mut right,
        &mut top,
    );
    Some(Growth { left, right, top })
}
