//! What a page has besides its entries, and what its halves have.
ghost use Rattle.std.specs.Prelude.{◌≡◌, ◌+◌, ◌<◌, ◌^◌, [], Some};
ghost use Rattle.std.specs.Option.{option_copied};
ghost use Rattle.hc_base.specs.Content.{Content};
ghost use Rattle.hc_base.specs.Layout.{IsPage, HasContent};
ghost use Rattle.hc_page.specs.Drafts.{started};
ghost use Rattle.hc_page.specs.Puts.{with_entries};

use crate::reading::own;
use hc_base::{Logical, Page};
use hc_page::{Head, level, right};
use hc_range::KeyBuf;

/// What a page has besides its entries, with copies of its fences.
pub fn head_of<'a>(page: &Page, low: &'a KeyBuf, high: &'a Option<KeyBuf>) -> Head<'a>
    requires valid { HasContent page.now.words }
    ensures head { (c : Content) → IsPage page.now.words c → low.now ≡ c.low → high.now ≡ c.high → started result ≡ with_entries c [] }
{
    Head {
        level: level(page),
        own: own(page),
        right: right(page),
        low: low.as_slice(),
        high: bytes_of(high),
    }
}

/// What the left half of a page has: its number, a link to the right half, its low fence, and the cut.
pub fn left_head<'a>(
    page: &Page,
    own: Logical,
    fresh: Logical,
    low: &'a KeyBuf,
    cut: &'a KeyBuf,
) -> Head<'a>
    requires valid { HasContent page.now.words }
    ensures head { (c : Content) → IsPage page.now.words c → low.now ≡ c.low → started result ≡ record c { own = own; right = Some fresh; high = Some cut.now; entries = [] } }
{
    Head {
        level: level(page),
        own,
        right: Some(fresh),
        low: low.as_slice(),
        high: Some(cut.as_slice()),
    }
}

/// What the right half of a page has: a number of its own, the page's link, the cut, and the page's high fence.
pub fn right_head<'a>(
    page: &Page,
    fresh: Logical,
    cut: &'a KeyBuf,
    high: &'a Option<KeyBuf>,
) -> Head<'a>
    requires valid { HasContent page.now.words }
    ensures head { (c : Content) → IsPage page.now.words c → high.now ≡ c.high → started result ≡ record c { own = fresh; low = cut.now; entries = [] } }
{
    Head {
        level: level(page),
        own: fresh,
        right: right(page),
        low: cut.as_slice(),
        high: bytes_of(high),
    }
}

fn bytes_of<'a>(key: &'a Option<KeyBuf>) -> Option<&'a [u8]>
    ensures { option_copied result ≡ key.now }
{
    match key {
        Some(key) => Some(key.as_slice()),
        None => None,
    }
}

/// The same of a page one level higher.
pub fn higher_head<'a>(page: &Page, low: &'a KeyBuf, high: &'a Option<KeyBuf>) -> Head<'a>
    requires level { (c : Content) × IsPage page.now.words c × (c.level + 1 < 2 ^ 8) }
    ensures head { (c : Content) → IsPage page.now.words c → low.now ≡ c.low → high.now ≡ c.high → started result ≡ record c { level = c.level + 1; entries = [] } }
{
    Head {
        level: level(page) + 1,
        own: own(page),
        right: right(page),
        low: low.as_slice(),
        high: bytes_of(high),
    }
}
