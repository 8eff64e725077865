// Numbers in decimal digits, without leading zeros, within a range.
ghost use Rattle.std.specs.Prelude.{◌≡◌, ◌+◌, ◌*◌, ◌<◌, ◌≤◌, ◌∷◌, ◌++◌, decimal, IfOk, IfErr, IfSome, IfNone, true, false};
ghost use Rattle.hc_reply.specs.Numbers.{IsWithin, SomeBegins, NoneBegins};
ghost use Rattle.hc_reply.specs.Mismatches.{NoDigit, MismatchIn};

use crate::mismatch::Mismatch;

/// A number within a range at the front of the bytes, and what is left.
pub fn number(low: u64, high: u64, bytes: &[u8]) -> Result<(u64, &[u8]), Mismatch<'_>>
    requires some { low ≤ high }
    ensures found { IfOk result (λ x. IsWithin low high x.0 × (bytes.now ≡ decimal x.0 ++ x.1.now) × NoDigit x.1.now) }
    ensures stop { IfErr result (MismatchIn NoDigit (IsWithin low high) decimal bytes.now) }
{
    let Some((first, after)) = digit(bytes) else {
        return Err(Mismatch::At(bytes));
    };
    let mut n = first;
    let mut rest = after;
    if !begins_within(n, low, high) {
        return Err(Mismatch::At(bytes));
    }
    while let Some((d, after)) = digit(rest) {
        let Some(longer) = with_digit(n, d, low, high) else {
            return Err(Mismatch::At(rest));
        };
        n = longer;
        rest = after;
    }
    if n < low {
        return Err(Mismatch::At(rest));
    }
    Ok((n, rest))
}

// A digit at the front, and what is left.
fn digit(bytes: &[u8]) -> Option<(u64, &[u8])>
    ensures some { IfSome result (λ x. (x.0 < 10) × (bytes.now ≡ (48 + x.0) ∷ x.1.now)) }
    ensures none { IfNone result (NoDigit bytes.now) }
{
    let (first, rest) = bytes.split_first()?;
    if *first < b'0' || *first > b'9' {
        return None;
    }
    Some((u64::from(*first - b'0'), rest))
}

// The number with one digit more, where some number of the range begins so.
fn with_digit(n: u64, d: u64, low: u64, high: u64) -> Option<u64>
    requires digit { d < 10 }
    requires some { low ≤ high }
    ensures some { IfSome result (λ m. (0 < n) × (m ≡ n * 10 + d) × SomeBegins m low high) }
    ensures none { IfNone result (0 < n → NoneBegins (n * 10 + d) low high) }
{
    if n == 0 || n > (u64::MAX - d) / 10 {
        return None;
    }
    let longer = n * 10 + d;
    if begins_within(longer, low, high) {
        Some(longer)
    } else {
        None
    }
}

// Whether some number of the range has digits that begin with those of m. Its last digit is left out until m
// is within the range, or above it.
fn begins_within(m: u64, low: u64, high: u64) -> bool
    requires { low ≤ high }
    ensures some { result ≡ true → SomeBegins m low high }
    ensures none { result ≡ false → NoneBegins m low high }
{
    if m > high {
        return false;
    }
    if m >= low {
        return true;
    }
    m != 0 && begins_within(m, low / 10, high / 10)
}
