//! A joined list that is cut and written as two pages.
ghost use Rattle.hc_base.specs.declared.numbers.Logical.{Logical as Number};
ghost use Rattle.hc_base.specs.Content.{Content};
ghost use Rattle.hc_base.specs.Layout.{IsPage};
ghost use Rattle.hc_page.specs.Puts.{put_entry};
ghost use Rattle.hc_shape.specs.Halves.{IsCut, left_half, right_half};
ghost use Rattle.hc_split.specs.Joined.{entry_added, joined_entries};
ghost use Rattle.hc_split.specs.Parts.{AreParts, CanPart, IsCutOf, owned};

use crate::cut::{cut, frame_of};
use crate::heads::{left_head, right_head};
use crate::joined::Joined;
use hc_base::{Logical, Page};
use hc_page::{high, level, low};

/// Writes the halves of a joined list: the left one with a number and the page's low fence up to the cut, and the right one
/// with another number from the cut on.
pub fn write_halves(
    joined: &Joined<'_>,
    own: Logical,
    fresh: Logical,
    left: &mut Page,
    right: &mut Page,
)
    requires part { (c : Content) × CanPart joined.now own fresh c }
    ensures parts { (c : Content) → CanPart joined.now own fresh c → AreParts (owned c own) (entry_added joined.now.added) fresh left.new.words right.new.words }
{
    let at = cut_of(joined);
    write_right(joined, at, fresh, right);
    write_left(joined, at, own, fresh, left);
}

// The cut of a list that is more than fits.
fn cut_of(joined: &Joined<'_>) -> usize
    requires part { (c : Content) × (own fresh : Number) × CanPart joined.now own fresh c }
    ensures cut { (c : Content) (own fresh : Number) → CanPart joined.now own fresh c → IsCut c fresh (joined_entries joined.now c) result }
{
    let page = joined.page;
    let low = low(page);
    let high = high(page);
    cut(joined, frame_of(level(page), &low, &high))
}

// The right half.
fn write_right(joined: &Joined<'_>, at: usize, fresh: Logical, out: &mut Page)
    requires cut { (c : Content) × (own : Number) × IsCutOf joined.now own fresh at c }
    ensures page { (c : Content) (own : Number) → IsCutOf joined.now own fresh at c → IsPage out.new.words (right_half (owned c own) fresh (put_entry (entry_added joined.now.added) c.entries) at) }
{
    let high = high(joined.page);
    let key = joined.key(at);
    let head = right_head(joined.page, fresh, &key, &high);
    joined.write(&head, at, joined.count(), out);
}

// The left half.
fn write_left(joined: &Joined<'_>, at: usize, own: Logical, fresh: Logical, out: &mut Page)
    requires cut { (c : Content) × IsCutOf joined.now own fresh at c }
    ensures page { (c : Content) → IsCutOf joined.now own fresh at c → IsPage out.new.words (left_half (owned c own) fresh (put_entry (entry_added joined.now.added) c.entries) at) }
{
    let low = low(joined.page);
    let key = joined.key(at);
    let head = left_head(joined.page, own, fresh, &low, &key);
    joined.write(&head, 0, at, out);
}
