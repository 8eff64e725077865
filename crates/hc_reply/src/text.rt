// Text literals, read byte by byte.
ghost use Rattle.std.specs.Prelude.{◌≡◌, ◌≢◌, ◌⊎◌, ◌∷◌, ◌++◌, IfOk, IfErr, IfSome, IfNone};
ghost use Rattle.std.specs.Str.{IsUtf8};
ghost use Rattle.hc_transcript.specs.Literals.{text_literal};
ghost use Rattle.hc_reply.specs.Mismatches.{NoQuote, MismatchIn};

use crate::mismatch::Mismatch;
use hc_value::{Expected, Str, next_expected};
use std::alloc::Global;

/// A text literal at the front of the bytes, and what is left.
pub fn text<'a>(alloc: Global, bytes: &'a [u8]) -> Result<(Str, &'a [u8]), Mismatch<'a>>
    ensures found { IfOk result (λ x. IsUtf8 x.0 × (bytes.now ≡ text_literal x.0 ++ x.1.now) × NoQuote x.1.now) }
    ensures stop { IfErr result (MismatchIn NoQuote IsUtf8 text_literal bytes.now) }
{
    let Some(inner) = after_quote(bytes) else {
        return Err(Mismatch::At(bytes));
    };
    let mut out = Vec::new(alloc);
    let mut rest = inner;
    let mut expected = Expected::Character;
    while let Some((byte, left)) = rest.split_first() {
        let Some(next) = next_expected(expected, *byte) else {
            return Err(Mismatch::At(rest));
        };
        let Some(next_bytes) = after_double(*byte, left) else {
            // SAFETY: the bytes so far are a text, since it may end where a quote may come.
            let text = unsafe { String::from_utf8_unchecked(out) };
            return Ok((Str::from_string(text), left));
        };
        out.push(*byte)?;
        rest = next_bytes;
        expected = next;
    }
    Err(Mismatch::At(rest))
}

/// What follows a quote.
pub fn after_quote(bytes: &[u8]) -> Option<&[u8]>
    ensures some { IfSome result (λ rest. bytes.now ≡ 39 ∷ rest.now) }
    ensures none { IfNone result (NoQuote bytes.now) }
{
    match bytes {
        [b'\'', rest @ ..] => Some(rest),
        _ => None,
    }
}

// What follows a byte with its double, where it is a quote; nothing where a quote has none.
fn after_double(byte: u8, after: &[u8]) -> Option<&[u8]>
    ensures some { IfSome result (λ left. ((byte ≡ 39) × (after.now ≡ 39 ∷ left.now)) ⊎ ((byte ≢ 39) × (after.now ≡ left.now))) }
    ensures none { IfNone result ((byte ≡ 39) × NoQuote after.now) }
{
    if byte == b'\'' {
        after_quote(after)
    } else {
        Some(after)
    }
}
