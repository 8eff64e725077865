//! Plans: leaves and inner pages that are cut in two, and a top that grows.
ghost use Rattle.std.specs.Prelude.{◌≤◌, ◌<◌, length, IfSome};
ghost use Rattle.hc_test_pages.specs.SmallPages.{HasInner, HasLeaf, HasSmallLeaf};

use hc_base::{Logical, Page};
use hc_test_pages::{Halves, halved, leaf_between, open_leaf, posted, put, version};

const RECORD: [u8; 456] = [0x72; 456];

fn key(number: u8) -> [u8; 8] {
    [107, 101, 121, 32, 111, 102, 32, number]
}

// A key of the greatest length, which begins with b.
fn long_key(number: u8) -> [u8; 463] {
    let mut key = [0x62; 463];
    key[462] = number;
    key
}

// The child whose low fence is the key of a number.
fn child_of(number: u8) -> Logical
    ensures { 0 < result.0 }
{
    Logical(11 + u32::from(number))
}

fn record(len: usize) -> &'static [u8]
    ensures { length result.now ≤ 456 }
{
    &RECORD[..len.min(456)]
}

// A leaf of so many versions but one, with records of one length, or of 456 bytes for one version, and then the one that was
// left out. Version n has the key of number n.
fn halved_at(count: u8, len: usize, wide: u8, new: u8) -> Option<Halves>
    ensures left { IfSome result (λ halves. HasLeaf halves.left.words) }
    ensures right { IfSome result (λ halves. HasLeaf halves.right.words) }
{
    let mut page = open_leaf();
    for number in 0..count {
        let len = if number == wide { 456 } else { len };
        if number != new
            && !put(
                &mut page,
                &version(u32::from(number), &key(number), record(len)),
            )
        {
            return None;
        }
    }
    let len = if new == wide { 456 } else { len };
    halved(&page, &version(u32::from(new), &key(new), record(len)))
}

// A leaf of 61 versions of three words, and then one of 60 words for the key of one of them, which transaction 99 had put.
fn halved_over(new: u8) -> Option<Halves>
    ensures left { IfSome result (λ halves. HasLeaf halves.left.words) }
    ensures right { IfSome result (λ halves. HasLeaf halves.right.words) }
{
    let mut page = open_leaf();
    for number in 0..61u8 {
        let tid = if number == new { 99 } else { u32::from(number) };
        if !put(&mut page, &version(tid, &key(number), b"")) {
            return None;
        }
    }
    halved(&page, &version(u32::from(new), &key(new), record(456)))
}

// The leaf with a version of 60 words at a key of the greatest length.
fn put_long(page: &mut Page, number: u8) -> bool
    requires { HasSmallLeaf page.old.words }
    ensures { HasSmallLeaf page.new.words }
{
    put(page, &version(u32::from(number), &long_key(number), b"r"))
}

// A leaf between fences of 463 bytes, with two of three versions of 60 words, and then the third.
fn halved_between(new: u8) -> Option<Halves>
    ensures left { IfSome result (λ halves. HasLeaf halves.left.words) }
    ensures right { IfSome result (λ halves. HasLeaf halves.right.words) }
{
    let mut page = leaf_between(&[0x61; 463], &[0x63; 463]);
    for number in 0..3 {
        if number != new && !put_long(&mut page, number) {
            return None;
        }
    }
    halved(&page, &version(u32::from(new), &long_key(new), b"r"))
}

// The inner page with the children of numbers from 1 on, but for one. The child of number n is number 11 + n.
fn with_children(first: Page, last: u8, new: u8) -> Option<Page>
    requires { HasInner first.words }
    ensures { IfSome result (λ page. HasInner page.words) }
{
    let mut page = first;
    for number in 1..=last {
        if number != new {
            page = posted(&page, &long_key(number), child_of(number))?;
        }
    }
    Some(page)
}

#[cfg(test)]
mod tests {
    use super::*;
    use hc_page::count;
    use hc_test_pages::{
        Frame, Growth, child_at, grown, halved_inner, has_frame, inner_between, tid_at, top,
    };
    use std::test::Fail;

    // The leaf has the versions of these numbers and no others.
    fn has_versions(page: &Page, from: u8, to: u8) -> bool
        requires { HasLeaf page.now.words }
    {
        for number in from..to {
            if tid_at(page, usize::from(number - from), &key(number)) != Some(u32::from(number)) {
                return false;
            }
        }
        count(page) == u16::from(to.saturating_sub(from))
    }

    fn has_long_versions(page: &Page, from: u8, to: u8) -> bool
        requires { HasLeaf page.now.words }
    {
        for number in from..to {
            let slot = usize::from(number - from);
            if tid_at(page, slot, &long_key(number)) != Some(u32::from(number)) {
                return false;
            }
        }
        count(page) == u16::from(to.saturating_sub(from))
    }

    // The inner page has the low fence's child and those of these numbers, and no others.
    fn has_children(page: &Page, low: &[u8], first: u32, from: u8, to: u8) -> bool
        requires { HasInner page.now.words }
    {
        if child_at(page, 0, low) != Some(first) {
            return false;
        }
        for number in from..to {
            let slot = usize::from(number - from) + 1;
            if child_at(page, slot, &long_key(number)) != Some(child_of(number).0) {
                return false;
            }
        }
        count(page) == u16::from(to.saturating_sub(from)) + 1
    }

    fn is_cut(halves: &Halves, cut: u8, len: u8) -> bool
        requires left { HasLeaf halves.now.left.words }
        requires right { HasLeaf halves.now.right.words }
    {
        let fence = key(cut);
        has_frame(
            &halves.left,
            &Frame {
                level: 0,
                own: 7,
                right: Some(8),
                low: &[],
                high: Some(&fence),
            },
        ) && has_frame(
            &halves.right,
            &Frame {
                level: 0,
                own: 8,
                right: None,
                low: &fence,
                high: None,
            },
        ) && has_versions(&halves.left, 0, cut)
            && has_versions(&halves.right, cut, len)
    }

    // Each has 26 words: nine fit, and ten do not.
    fn ten_are_cut(new: u8) -> bool {
        match halved_at(10, 184, 255, new) {
            Some(halves) => is_cut(&halves, 5, 10),
            None => false,
        }
    }

    #[test]
    fn ten_equal_entries_are_cut_in_the_middle(rt: HostRuntime) -> Result<(), Fail> {
        for new in 0..10 {
            assert!(rt; ten_are_cut(new), "new {new}");
        }
        Ok(())
    }

    // One of 60 words and sixty of 3: all but one fit. The larger half is the least where the wide one has some twenty beside
    // it; where it is in the middle, it is the first of the right half.
    fn one_wide_is_cut(wide: u8, cut: u8, new: u8) -> bool {
        match halved_at(61, 0, wide, new) {
            Some(halves) => is_cut(&halves, cut, 61),
            None => false,
        }
    }

    #[test]
    fn one_wide_entry_moves_the_cut(rt: HostRuntime) -> Result<(), Fail> {
        for (wide, cut) in [(0, 22), (30, 30), (60, 39)] {
            for new in [0, 1, 21, 22, 29, 30, 38, 39, 59, 60] {
                assert!(rt; one_wide_is_cut(wide, cut, new), "wide {wide} new {new}");
            }
        }
        Ok(())
    }

    fn a_replaced_one_is_cut(new: u8, cut: u8) -> bool {
        match halved_over(new) {
            Some(halves) => is_cut(&halves, cut, 61),
            None => false,
        }
    }

    // The older version of the key goes, and there are as many entries as before.
    #[test]
    fn an_entry_is_replaced_where_its_leaf_is_halved(rt: HostRuntime) -> Result<(), Fail> {
        for (new, cut) in [(0, 22), (30, 30), (60, 39)] {
            assert!(rt; a_replaced_one_is_cut(new, cut), "new {new}");
        }
        Ok(())
    }

    fn is_cut_between(halves: &Halves) -> bool
        requires left { HasLeaf halves.now.left.words }
        requires right { HasLeaf halves.now.right.words }
    {
        let fence = long_key(1);
        has_frame(
            &halves.left,
            &Frame {
                level: 0,
                own: 7,
                right: Some(8),
                low: &[0x61; 463],
                high: Some(&fence),
            },
        ) && has_frame(
            &halves.right,
            &Frame {
                level: 0,
                own: 8,
                right: Some(9),
                low: &fence,
                high: Some(&[0x63; 463]),
            },
        ) && has_long_versions(&halves.left, 0, 1)
            && has_long_versions(&halves.right, 1, 3)
    }

    fn fences_are_kept(new: u8) -> bool {
        match halved_between(new) {
            Some(halves) => is_cut_between(&halves),
            None => false,
        }
    }

    // Two of 60 words fit beside two fences of 58, and each half of three has one or two.
    #[test]
    fn long_fences_are_kept(rt: HostRuntime) -> Result<(), Fail> {
        for new in 0..3 {
            assert!(rt; fences_are_kept(new), "new {new}");
        }
        Ok(())
    }

    fn are_two_and_two(halves: &Halves) -> bool
        requires left { HasInner halves.now.left.words }
        requires right { HasInner halves.now.right.words }
    {
        let fence = long_key(2);
        has_frame(
            &halves.left,
            &Frame {
                level: 1,
                own: 7,
                right: Some(8),
                low: &[0x61; 463],
                high: Some(&fence),
            },
        ) && has_frame(
            &halves.right,
            &Frame {
                level: 1,
                own: 8,
                right: Some(9),
                low: &fence,
                high: Some(&[0x63; 463]),
            },
        ) && has_children(&halves.left, &[0x61; 463], 11, 1, 2)
            && has_children(&halves.right, &fence, 13, 3, 4)
    }

    fn halves_of_four(new: u8) -> Option<Halves>
        ensures left { IfSome result (λ halves. HasInner halves.left.words) }
        ensures right { IfSome result (λ halves. HasInner halves.right.words) }
    {
        let first = inner_between(&[0x61; 463], &[0x63; 463])?;
        let page = with_children(first, 3, new)?;
        halved_inner(&page, &long_key(new), child_of(new))
    }

    fn four_are_cut(new: u8) -> bool {
        match halves_of_four(new) {
            Some(halves) => are_two_and_two(&halves),
            None => false,
        }
    }

    // Three children of 59 words fit beside a high fence of 58, and each half of four has two.
    #[test]
    fn four_children_are_cut_in_the_middle(rt: HostRuntime) -> Result<(), Fail> {
        for new in 1..4 {
            assert!(rt; four_are_cut(new), "new {new}");
        }
        Ok(())
    }

    fn are_three_and_three(left: &Page, right: &Page) -> bool
        requires left { HasInner left.now.words }
        requires right { HasInner right.now.words }
    {
        let fence = long_key(3);
        has_frame(
            left,
            &Frame {
                level: 3,
                own: 21,
                right: Some(22),
                low: &[],
                high: Some(&fence),
            },
        ) && has_frame(
            right,
            &Frame {
                level: 3,
                own: 22,
                right: None,
                low: &fence,
                high: None,
            },
        ) && has_children(left, &[], 11, 1, 3)
            && has_children(right, &fence, 14, 4, 6)
    }

    fn names_both(top: &Page) -> bool
        requires { HasInner top.now.words }
    {
        has_frame(
            top,
            &Frame {
                level: 4,
                own: 2,
                right: None,
                low: &[],
                high: None,
            },
        ) && child_at(top, 0, &[]) == Some(21)
            && child_at(top, 1, &long_key(3)) == Some(22)
            && count(top) == 2
    }

    fn growth_of_six(new: u8) -> Option<Growth>
        ensures left { IfSome result (λ growth. HasInner growth.left.words) }
        ensures right { IfSome result (λ growth. HasInner growth.right.words) }
        ensures top { IfSome result (λ growth. HasInner growth.top.words) }
    {
        let page = with_children(top(), 5, new)?;
        grown(&page, &long_key(new), child_of(new))
    }

    fn has_grown(new: u8) -> bool {
        match growth_of_six(new) {
            Some(growth) => {
                are_three_and_three(&growth.left, &growth.right) && names_both(&growth.top)
            }
            None => false,
        }
    }

    // A top of five children, four of which have 59 words, has no room for a sixth.
    #[test]
    fn a_top_grows_by_a_level(rt: HostRuntime) -> Result<(), Fail> {
        for new in 1..6 {
            assert!(rt; has_grown(new), "new {new}");
        }
        Ok(())
    }
}
