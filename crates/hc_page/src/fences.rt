//! The fences of a page, and the page at its right.
ghost use Rattle.std.specs.Prelude.{◌≡◌, Some, None};
ghost use Rattle.hc_base.specs.Words.{IsNumber};
ghost use Rattle.hc_base.specs.Content.{Content, OfSome};
ghost use Rattle.hc_base.specs.Layout.{IsPage, HasContent, right_number};

use crate::bytes::copy_key;
use crate::compare::KeyAt;
use hc_base::{Logical, Page};
use hc_range::KeyBuf;

/// The low fence: the page has the keys from it on.
pub fn low(page: &Page) -> KeyBuf
    requires valid { HasContent page.now.words }
    ensures low { (c : Content) → IsPage page.now.words c → result ≡ c.low }
{
    let word = page.words[2];
    let at = (word / (1 << 48)) as usize;
    let len = (word / (1 << 32) % (1 << 16)) as usize;
    copy_key(page, KeyAt { at, len })
}

/// The high fence, where the page has one: its keys are below.
pub fn high(page: &Page) -> Option<KeyBuf>
    requires valid { HasContent page.now.words }
    ensures high { (c : Content) → IsPage page.now.words c → result ≡ c.high }
{
    if page.words[0] % 2 == 1 {
        return None;
    }
    let word = page.words[2];
    let at = (word / (1 << 16) % (1 << 16)) as usize;
    let len = (word % (1 << 16)) as usize;
    Some(copy_key(page, KeyAt { at, len }))
}

/// The number of the page at its right, where there is one.
pub fn right(page: &Page) -> Option<Logical>
    requires valid { HasContent page.now.words }
    ensures right { (c : Content) → IsPage page.now.words c → result ≡ c.right }
{
    number((page.words[1] % (1 << 32)) as u32)
}

/// A number of a page; 0 is none.
pub fn number(word: u32) -> Option<Logical>
    ensures number { right_number result ≡ word }
    ensures from_1 { OfSome (λ number. IsNumber number.0) result }
{
    match word {
        0 => None,
        number => Some(Logical(number)),
    }
}
