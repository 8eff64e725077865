//! What does not fit.
ghost use Rattle.std.specs.Prelude.{◌≡◌, ◌≤◌, ◌+◌, ◌/◌, IsFalse, length};
ghost use Rattle.hc_base.specs.Content.{Content};
ghost use Rattle.hc_engine_tests.specs.Four.{HasFour};

use hc_base::Page;
use hc_page::fits;

/// A leaf without fences, with four entries of 53 words each, has no room for an entry of that size with another key.
pub fn a_fifth_of_that_size(page: &Page, key: &[u8], rec_len: u16) -> bool
    requires four { (c : Content) × HasFour page.now.words key.now c }
    requires key { length key.now ≤ 4095 }
    requires size { 2 + (length key.now + rec_len + 7) / 8 ≡ 53 }
    ensures { IsFalse result }
{
    fits(page, key, rec_len)
}
