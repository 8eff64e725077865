//! Inner pages: one child more.
ghost use Rattle.std.specs.Prelude.{◌≡◌, ◌≤◌, IsTrue, IsFalse, ◌↔◌};
ghost use Rattle.hc_base.specs.Content.{Content};
ghost use Rattle.hc_base.specs.Layout.{used_words};
ghost use Rattle.hc_base.specs.Words.{IsNumber};
ghost use Rattle.hc_page.specs.Drafts.{child_of};
ghost use Rattle.hc_page.specs.Puts.{with_entry};
ghost use Rattle.hc_split.specs.Plans.{AreHalvedInner, HasPosted, IsFullParent, IsParent};

use crate::cut::{all_used, frame_of};
use crate::halves::write_halves;
use crate::heads::head_of;
use crate::joined::{Added, Joined};
use crate::reading::own;
use hc_base::{Logical, Page};
use hc_page::{high, level, low};

/// Writes the content of an inner page with one child more, by the child's low fence, into `out`, whatever `out` held. Answers
/// false exactly where that does not fit a page, and leaves `out` then. A child with this very low fence goes.
pub fn post(parent: &Page, key: &[u8], child: Logical, out: &mut Page) -> bool
    requires parent { (c : Content) × IsParent parent.now.words key.now child c }
    ensures fits { (c : Content) → IsParent parent.now.words key.now child c → IsTrue result ↔ (used_words (with_entry c (child_of key.now child)) ≤ 256) }
    ensures posted { (c : Content) → IsParent parent.now.words key.now child c → IsTrue result → HasPosted c key.now child out.new.words }
    ensures left { IsFalse result → out.new ≡ out.old }
{
    let joined = Joined::of(parent, Added::Child { key, child });
    let low = low(parent);
    let high = high(parent);
    if all_used(&joined, frame_of(level(parent), &low, &high)) > 256 {
        return false;
    }
    joined.write(&head_of(parent, &low, &high), 0, joined.count(), out);
    true
}

/// Writes the content of an inner page with one child more, for which it has no room, as two inner pages of its level, whatever
/// these held. The larger page has the fewest words that it can have, and each has two children at least. The left page keeps the
/// number; the right one has the number `fresh`, and the keys from its low fence on.
pub fn halve_inner(
    parent: &Page,
    key: &[u8],
    child: Logical,
    fresh: Logical,
    left: &mut Page,
    right: &mut Page,
)
    requires full { (c : Content) × IsFullParent parent.now.words key.now child c }
    requires fresh { IsNumber fresh.0 }
    ensures halved { (c : Content) → IsFullParent parent.now.words key.now child c → AreHalvedInner c key.now child fresh left.new.words right.new.words }
{
    let joined = Joined::of(parent, Added::Child { key, child });
    write_halves(&joined, own(parent), fresh, left, right);
}
