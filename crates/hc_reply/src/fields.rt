// One field of a line, with the words after it.
ghost use Rattle.std.specs.Prelude.{◌≡◌, ◌≤◌, ◌<◌, ◌^◌, List, ℕ, [], ◌∷◌, ◌++◌, decimal, IfOk, IfErr};
ghost use Rattle.std.specs.Str.{IsUtf8};
ghost use Rattle.hc_transcript.specs.Literals.{text_literal};
ghost use Rattle.hc_transcript.specs.Fields.{Number32, Number64, Integer, Key, Last, IsHeld, IsContent};
ghost use Rattle.hc_reply.specs.Fields.{content_end};
ghost use Rattle.hc_reply.specs.Numbers.{IsWithin};
ghost use Rattle.hc_reply.specs.Mismatches.{Anything, NoDigit, NoQuote, MismatchIn};

use crate::blob::blob;
use crate::mismatch::Mismatch;
use crate::number::number;
use crate::text::text;
use crate::value::integer;
use crate::word::expect_word;
use hc_range::LONGEST_KEY;
use hc_value::Str;
use std::alloc::Global;

const GREATEST_32: u64 = 4_294_967_295;

/// A number within a range and the words after it, and what is left.
pub fn number_within<'a>(
    low: u64,
    high: u64,
    words: &[u8],
    bytes: &'a [u8],
) -> Result<(u64, &'a [u8]), Mismatch<'a>>
    requires some { low ≤ high }
    requires ends { (rest : List ℕ) → NoDigit (words.now ++ rest) }
    ensures found { IfOk result (λ x. IsWithin low high x.0 × (bytes.now ≡ (decimal x.0 ++ words.now) ++ x.1.now)) }
    ensures stop { IfErr result (MismatchIn Anything (IsWithin low high) (λ n. decimal n ++ words.now) bytes.now) }
{
    let (n, after) = number(low, high, bytes)?;
    let rest = expect_word(words, after)?;
    Ok((n, rest))
}

/// A number of 32 bits and the words after it, and what is left.
pub fn number_32<'a>(words: &[u8], bytes: &'a [u8]) -> Result<(u32, &'a [u8]), Mismatch<'a>>
    requires ends { (rest : List ℕ) → NoDigit (words.now ++ rest) }
    ensures found { IfOk result (λ x. IsHeld Number32 x.0 × (bytes.now ≡ (decimal x.0 ++ words.now) ++ x.1.now)) }
    ensures stop { IfErr result (MismatchIn Anything (IsHeld Number32) (λ n. decimal n ++ words.now) bytes.now) }
{
    let (n, rest) = number_within(0, GREATEST_32, words, bytes)?;
    Ok((n as u32, rest))
}

/// A number of 64 bits and the line's end, and what is left.
pub fn number_64(bytes: &[u8]) -> Result<(u64, &[u8]), Mismatch<'_>>
    ensures found { IfOk result (λ x. IsHeld Number64 x.0 × (bytes.now ≡ content_end (Last Number64) x.0 ++ x.1.now)) }
    ensures stop { IfErr result (MismatchIn Anything (IsHeld Number64) (content_end (Last Number64)) bytes.now) }
{
    let (n, rest) = number_within(0, u64::MAX, b"\n", bytes)?;
    Ok((n, rest))
}

/// An integer and the line's end, and what is left.
pub fn integer_end(bytes: &[u8]) -> Result<(i64, &[u8]), Mismatch<'_>>
    ensures found { IfOk result (λ x. IsHeld Integer x.0 × (bytes.now ≡ content_end (Last Integer) x.0 ++ x.1.now)) }
    ensures stop { IfErr result (MismatchIn Anything (IsHeld Integer) (content_end (Last Integer)) bytes.now) }
{
    let (n, after) = integer(bytes)?;
    let rest = expect_word(b"\n", after)?;
    Ok((n, rest))
}

/// A name and the words after it, and what is left.
pub fn name<'a>(
    alloc: Global,
    words: &[u8],
    bytes: &'a [u8],
) -> Result<(Str, &'a [u8]), Mismatch<'a>>
    requires ends { (rest : List ℕ) → NoQuote (words.now ++ rest) }
    ensures found { IfOk result (λ x. IsUtf8 x.0 × (bytes.now ≡ (text_literal x.0 ++ words.now) ++ x.1.now)) }
    ensures stop { IfErr result (MismatchIn Anything IsUtf8 (λ t. text_literal t ++ words.now) bytes.now) }
{
    let (text, after) = text(alloc, bytes)?;
    let rest = expect_word(words, after)?;
    Ok((text, rest))
}

/// The bytes of a key and the line's end, and what is left.
pub fn key_end<'a>(alloc: Global, bytes: &'a [u8]) -> Result<(Vec<u8>, &'a [u8]), Mismatch<'a>>
    ensures found { IfOk result (λ x. IsHeld Key x.0.items × (bytes.now ≡ content_end (Last Key) x.0.items ++ x.1.now)) }
    ensures stop { IfErr result (MismatchIn Anything (IsHeld Key) (content_end (Last Key)) bytes.now) }
{
    let (key, after) = blob(alloc, Some(LONGEST_KEY), bytes)?;
    let rest = expect_word(b"\n", after)?;
    Ok((key, rest))
}
