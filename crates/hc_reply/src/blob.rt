// Blob literals, read digit by digit.
ghost use Rattle.std.specs.Prelude.{◌≡◌, ℕ, ◌+◌, ◌<◌, ◌∷◌, ◌++◌, true, false, IfOk, IfErr, IfSome, IfNone};
ghost use Rattle.hc_text.specs.Digits.{hex_digit};
ghost use Rattle.hc_transcript.specs.Literals.{blob_literal};
ghost use Rattle.hc_reply.specs.Blobs.{IsBlob, IsWithinLimit, NoHexDigit};
ghost use Rattle.hc_reply.specs.Mismatches.{Anything, MismatchIn};

use crate::mismatch::Mismatch;
use crate::text::after_quote;
use crate::word::expect_word;
use hc_text::upper_hex_value;
use std::alloc::Global;

/// A blob literal at the front of the bytes, with at most so many bytes, and what is left.
pub fn blob<'a>(
    alloc: Global,
    limit: Option<usize>,
    bytes: &'a [u8],
) -> Result<(Vec<u8>, &'a [u8]), Mismatch<'a>>
    ensures found { IfOk result (λ x. IsBlob limit x.0.items × (bytes.now ≡ blob_literal x.0.items ++ x.1.now)) }
    ensures stop { IfErr result (MismatchIn Anything (IsBlob limit) blob_literal bytes.now) }
{
    let mut rest = expect_word(b"X'", bytes)?;
    let mut out = Vec::new(alloc);
    while let Some((high, after)) = hex_digit(rest) {
        if !has_room(limit, out.len()) {
            return Err(Mismatch::At(rest));
        }
        let Some((low, left)) = hex_digit(after) else {
            return Err(Mismatch::At(after));
        };
        out.push(high * 16 + low)?;
        rest = left;
    }
    let Some(left) = after_quote(rest) else {
        return Err(Mismatch::At(rest));
    };
    Ok((out, left))
}

// Whether one more byte is within the limit.
fn has_room(limit: Option<usize>, n: usize) -> bool
    ensures some { result ≡ true → IsWithinLimit limit (n + 1) }
    ensures none { result ≡ false → IsWithinLimit limit (n + 1) → ⊥ }
{
    match limit {
        None => true,
        Some(most) => n < most,
    }
}

// The value of a digit at the front, and what is left.
fn hex_digit(bytes: &[u8]) -> Option<(u8, &[u8])>
    ensures some { IfSome result (λ x. (x.0 < 16) × (bytes.now ≡ hex_digit x.0 ∷ x.1.now)) }
    ensures none { IfNone result (NoHexDigit bytes.now) }
{
    let (first, rest) = bytes.split_first()?;
    let value = upper_hex_value(*first)?;
    Some((value, rest))
}
