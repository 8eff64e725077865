// The bytes of a text or a blob, read up to their end.
ghost use Rattle.std.specs.Prelude.{◌≡◌, ◌+◌, ◌-◌, ◌^◌, ◌<◌, ◌≤◌, List, ℕ, ◌∷◌, ◌++◌, length, IfOk, IfErr, IfSome, IfNone};
ghost use Rattle.hc_key.specs.Keys.{escape, ended};
ghost use Rattle.hc_key.specs.Reading.{IsContent, IsPartFault};
ghost use Rattle.hc_text.specs.Utf8.{Completes, IsOpen};

use crate::KeyFault;
use hc_text::{Expected, next_expected};
use std::alloc::Global;

/// The bytes up to the end of the text or the blob, and what follows. They begin at a place of the key.
pub fn content<'a>(
    alloc: Global,
    bytes: &'a [u8],
    first: Expected,
    place: u32,
) -> Result<(Vec<u8>, &'a [u8]), KeyFault>
    requires open { IsOpen first }
    requires fits { place + length bytes.now < 2 ^ 32 }
    ensures found { IfOk result (λ found. (bytes.now ≡ ended found.0.items ++ found.1.now) × Completes first found.0.items) }
    ensures fault { IfErr result (IsPartFault (IsContent first) bytes.now place) }
{
    let mut out = Vec::new(alloc);
    let mut rest = bytes;
    let mut expected = first;
    while let Some((byte, after)) = rest.split_first() {
        let Some(next) = next_expected(expected, *byte) else {
            return Err(bad_at(place, bytes, rest));
        };
        let Some(left) = after_escape(*byte, after) else {
            let Some(left) = after_end(after) else {
                return Err(bad_at(place, bytes, after));
            };
            return Ok((out, left));
        };
        out.push(*byte)?;
        rest = left;
        expected = next;
    }
    Err(bad_at(place, bytes, rest))
}

// What follows a byte with its escape; nothing where a zero has none.
fn after_escape(byte: u8, after: &[u8]) -> Option<&[u8]>
    ensures some { IfSome result (λ left. byte ∷ after.now ≡ escape byte ++ left.now) }
    ensures none { IfNone result ((byte ≡ 0) × ((left : List ℕ) → after.now ≡ 255 ∷ left → ⊥)) }
{
    if byte != 0 {
        return Some(after);
    }
    match after {
        [0xff, left @ ..] => Some(left),
        _ => None,
    }
}

// What follows the second zero of an end.
fn after_end(after: &[u8]) -> Option<&[u8]>
    ensures some { IfSome result (λ left. after.now ≡ 0 ∷ left.now) }
    ensures none { IfNone result ((left : List ℕ) → after.now ≡ 0 ∷ left → ⊥) }
{
    let [0, left @ ..] = after else {
        return None;
    };
    Some(left)
}

// A fault where the rest of the bytes begins.
fn bad_at(place: u32, bytes: &[u8], rest: &[u8]) -> KeyFault
    requires rest { length rest.now ≤ length bytes.now }
    requires fits { place + length bytes.now < 2 ^ 32 }
    ensures { result ≡ KeyFault.Bad (place + (length bytes.now - length rest.now)) }
{
    KeyFault::Bad {
        at: place + (bytes.len() - rest.len()) as u32,
    }
}
