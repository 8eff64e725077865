//! Leaves: a put for which a leaf has no room.
ghost use Rattle.hc_base.specs.Content.{Content};
ghost use Rattle.hc_base.specs.Words.{IsNumber};
ghost use Rattle.hc_page.specs.Drafts.{entry_of};
ghost use Rattle.hc_split.specs.Plans.{ArePutHalved, IsFullLeaf};

use crate::halves::write_halves;
use crate::joined::{Added, Joined};
use crate::reading::own;
use hc_base::{Logical, Page};
use hc_page::NewEntry;

/// Writes the content of a leaf with a new entry, for which it has no room, as two leaves, whatever these held. Where the key has
/// an entry already, that entry goes. The larger leaf has the fewest words that it can have, and each has one entry at least. The
/// left leaf keeps the number; the right one has the number `fresh`, and the keys from its low fence on.
///
/// Each entry, the new one too, must have at most 60 words and a key of at most 463 bytes.
pub fn halve(page: &Page, new: &NewEntry<'_>, fresh: Logical, left: &mut Page, right: &mut Page)
    requires full { (c : Content) × IsFullLeaf page.now.words (entry_of new.now) c }
    requires fresh { IsNumber fresh.0 }
    ensures halved { (c : Content) → IsFullLeaf page.now.words (entry_of new.now) c → ArePutHalved c (entry_of new.now) fresh left.new.words right.new.words }
{
    let joined = Joined::of(page, Added::Version(*new));
    write_halves(&joined, own(page), fresh, left, right);
}
