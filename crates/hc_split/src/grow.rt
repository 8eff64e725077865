//! Growth: the top becomes one level higher.
ghost use Rattle.std.specs.Prelude.{◌<◌, [], ◌∷◌};
ghost use Rattle.hc_base.specs.Content.{Content, IsContent};
ghost use Rattle.hc_base.specs.Layout.{IsPage};
ghost use Rattle.hc_base.specs.Words.{IsNumber};
ghost use Rattle.hc_page.specs.Drafts.{child_of, started};
ghost use Rattle.hc_page.specs.Puts.{with_entries};
ghost use Rattle.hc_split.specs.Plans.{AreGrown, IsFullTop};

use crate::halves::write_halves;
use crate::heads::higher_head;
use crate::joined::{Added, Joined};
use hc_base::{Logical, Page};
use hc_page::{Head, begin, finish, high, low, push_child};

/// Writes the content of the top with one child more, for which it has no room, as a higher top and two inner pages of its old
/// level, whatever these held. The top keeps its number, its link and its fences, and names the two pages: the left one has the
/// number `a` and is linked to the right one, which has the number `b`.
pub fn grow_root(
    top: &Page,
    key: &[u8],
    child: Logical,
    a: Logical,
    b: Logical,
    left: &mut Page,
    right: &mut Page,
    out: &mut Page,
)
    requires full { (c : Content) × IsFullTop top.now.words key.now child c }
    requires first { IsNumber a.0 }
    requires second { IsNumber b.0 }
    ensures grown { (c : Content) → IsFullTop top.now.words key.now child c → AreGrown c key.now child a b left.new.words right.new.words out.new.words }
{
    let joined = Joined::of(top, Added::Child { key, child });
    write_halves(&joined, a, b, left, right);
    let cut = low(right);
    let fence = low(top);
    let high = high(top);
    write_pair(&higher_head(top, &fence, &high), a, cut.as_slice(), b, out);
}

// Writes an inner page of two children, whose low fences are the page's one and a key.
fn write_pair(head: &Head<'_>, first: Logical, key: &[u8], second: Logical, out: &mut Page)
    requires content { IsContent (with_entries (started head.now) (child_of head.now.low.now first ∷ child_of key.now second ∷ [])) }
    requires inner { 0 < head.now.level }
    ensures page { IsPage out.new.words (with_entries (started head.now) (child_of head.now.low.now first ∷ child_of key.now second ∷ [])) }
{
    let draft = begin(head, 2, out);
    let draft = push_child(draft, head.low, first, out);
    let draft = push_child(draft, key, second, out);
    finish(draft, out);
}
