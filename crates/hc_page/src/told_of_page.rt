//! How many entries a page has, and its level.
ghost use Rattle.std.specs.Prelude.{◌≡◌, length};
ghost use Rattle.hc_base.specs.Content.{Content};
ghost use Rattle.hc_base.specs.Layout.{IsPage, HasContent};

use crate::reading;
use hc_base::Page;

/// How many entries a page has. They are counted from 0 by the calls that take a slot.
pub fn count(page: &Page) -> u16
    requires valid { HasContent page.now.words }
    ensures count { (c : Content) → IsPage page.now.words c → result ≡ length c.entries }
{
    reading::count(page) as u16
}

/// The level of a page: 0 for a leaf.
pub fn level(page: &Page) -> u8
    requires valid { HasContent page.now.words }
    ensures level { (c : Content) → IsPage page.now.words c → result ≡ c.level }
{
    reading::level(page)
}
