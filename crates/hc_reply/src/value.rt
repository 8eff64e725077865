// Values at the front of bytes. The first byte tells the class.
ghost use Rattle.std.specs.Prelude.{◌≡◌, List, ℕ, true, false, ◌∷◌, ◌++◌, ◌-◌, ◌^◌, ◌≤◌, negsuc, FitsSigned, IfOk, IfErr, IfSome, IfNone};
ghost use Rattle.std.specs.Fmt.{signed_decimal};
ghost use Rattle.std.specs.Int.{w64};
ghost use Rattle.hc_transcript.specs.Literals.{value_text, IsPrintable};
ghost use Rattle.hc_reply.specs.Mismatches.{EndsAfter, EndsValue, NoDigit, NoMinus, NotFirst, MismatchIn};

use crate::blob::blob;
use crate::mismatch::Mismatch;
use crate::number::number;
use crate::text::text;
use crate::word::expect_word;
use hc_value::{Blob, Value};
use std::alloc::Global;

const GREATEST: u64 = 9_223_372_036_854_775_807;

/// A value at the front of the bytes, and what is left.
pub fn value<'a>(alloc: Global, bytes: &'a [u8]) -> Result<(Value, &'a [u8]), Mismatch<'a>>
    ensures found { IfOk result (λ x. IsPrintable x.0 × (bytes.now ≡ value_text x.0 ++ x.1.now) × EndsAfter x.0 x.1.now) }
    ensures stop { IfErr result (MismatchIn EndsValue IsPrintable value_text bytes.now) }
{
    if begins(bytes, b'N') {
        let rest = expect_word(b"NULL", bytes)?;
        return Ok((Value::Null, rest));
    }
    if begins(bytes, b'\'') {
        let (text, rest) = text(alloc, bytes)?;
        return Ok((Value::Text(text), rest));
    }
    if begins(bytes, b'X') {
        let (bytes, rest) = blob(alloc, None, bytes)?;
        return Ok((Value::Blob(Blob::from_vec(bytes)), rest));
    }
    let (n, rest) = integer(bytes)?;
    Ok((Value::Int(n), rest))
}

// Whether this is the first byte.
fn begins(bytes: &[u8], first: u8) -> bool
    ensures some { result ≡ true → (rest : List ℕ) × (bytes.now ≡ first ∷ rest) }
    ensures none { result ≡ false → NotFirst first bytes.now }
{
    match bytes.split_first() {
        Some((b, _)) => *b == first,
        None => false,
    }
}

/// An integer at the front of the bytes, and what is left.
pub fn integer(bytes: &[u8]) -> Result<(i64, &[u8]), Mismatch<'_>>
    ensures found { IfOk result (λ x. FitsSigned w64 x.0 × (bytes.now ≡ signed_decimal x.0 ++ x.1.now) × NoDigit x.1.now) }
    ensures stop { IfErr result (MismatchIn NoDigit (FitsSigned w64) signed_decimal bytes.now) }
{
    let Some(digits) = after_minus(bytes) else {
        let (n, rest) = number(0, GREATEST, bytes)?;
        return Ok((n as i64, rest));
    };
    let (n, rest) = number(1, GREATEST + 1, digits)?;
    Ok((negative(n), rest))
}

// What follows a minus.
fn after_minus(bytes: &[u8]) -> Option<&[u8]>
    ensures some { IfSome result (λ rest. bytes.now ≡ 45 ∷ rest.now) }
    ensures none { IfNone result (NoMinus bytes.now) }
{
    match bytes {
        [b'-', rest @ ..] => Some(rest),
        _ => None,
    }
}

// The number with a minus.
fn negative(n: u64) -> i64
    requires { (1 ≤ n) × (n ≤ 2 ^ 63) }
    ensures { result ≡ negsuc (n - 1) }
{
    -1 - (n - 1) as i64
}
