// What is within quotes.
ghost use Rattle.std.specs.Prelude.{◌≡◌, ◌<◌, ◌≤◌, ◌∷◌, true, length, IfOk, IfSome, IfNone};
ghost use Rattle.std.specs.Char.{is_ascii_hexdigit, digit_value};
ghost use Rattle.hc_grammar.specs.Terminals.{also, unquoted, undoubled, blob_of, digit_bytes};
ghost use Rattle.hc_parse.specs.Pieces.{closes, are_hex_pairs, are_blob_digits};

use hc_value::{Blob, NoMemory, Str};
use std::alloc::Global;

/// What is within quotes, each quote within once; nothing where the text is not in such quotes.
pub fn unquoted(alloc: Global, quote: u8, text: &str) -> Result<Option<Str>, NoMemory>
    requires { quote < 128 }
    ensures { IfOk result (λ inner. inner ≡ unquoted quote text.now) }
{
    let Some(bytes) = unquoted_bytes(alloc, quote, text.as_bytes())? else {
        return Ok(None);
    };
    // SAFETY: a text without its quotes, which are ASCII, is a text.
    let inner = unsafe { String::from_utf8_unchecked(bytes) };
    Ok(Some(Str::from_string(inner)))
}

fn unquoted_bytes(alloc: Global, quote: u8, bytes: &[u8]) -> Result<Option<Vec<u8>>, NoMemory>
    ensures { IfOk result (λ inner. also (λ v. v.items) inner ≡ unquoted quote bytes.now) }
{
    match bytes.split_first() {
        Some((first, rest)) if *first == quote => undoubled(alloc, quote, rest),
        _ => Ok(None),
    }
}

// What is before a closing quote, each quote within once.
fn undoubled(alloc: Global, quote: u8, bytes: &[u8]) -> Result<Option<Vec<u8>>, NoMemory>
    ensures { IfOk result (λ inner. also (λ v. v.items) inner ≡ undoubled quote bytes.now) }
{
    let mut out = Vec::with_capacity(alloc, bytes.len().saturating_sub(1))?;
    let mut rest = bytes;
    'bytes: while let Some((first, after)) = rest.split_first() {
        let Some(left) = after_inner(quote, *first, after) else {
            return Ok(if after.is_empty() { Some(out) } else { None });
        };
        out.push(*first)?;
        rest = left;
    }
    Ok(None)
}

// What follows a byte within quotes, and after its double where it is a quote; nothing after a closing one.
fn after_inner(quote: u8, first: u8, after: &[u8]) -> Option<&[u8]>
    ensures some { IfSome result (λ left. undoubled quote (first ∷ after.now) ≡ also (λ inner. first ∷ inner) (undoubled quote left.now)) }
    ensures shorter { IfSome result (λ left. length left.now ≤ length after.now) }
    ensures none { IfNone result (undoubled quote (first ∷ after.now) ≡ closes after.now) }
{
    if first != quote {
        return Some(after);
    }
    match after.split_first() {
        Some((second, left)) if *second == quote => Some(left),
        _ => None,
    }
}

/// The bytes that the digits of a blob spell.
pub fn blob_of(alloc: Global, text: &[u8]) -> Result<Option<Blob>, NoMemory>
    requires { are_blob_digits text.now ≡ true }
    ensures { IfOk result (λ inner. inner ≡ blob_of text.now) }
{
    match text {
        [_, b'\'', digits @ ..] => digit_bytes(alloc, digits),
        _ => Ok(None),
    }
}

fn digit_bytes(alloc: Global, digits: &[u8]) -> Result<Option<Blob>, NoMemory>
    requires { are_hex_pairs digits.now ≡ true }
    ensures { IfOk result (λ inner. inner ≡ digit_bytes digits.now) }
{
    let mut out = Vec::with_capacity(alloc, digits.len() / 2)?;
    let mut rest = digits;
    'pairs: while let Some((high, tail)) = rest.split_first() {
        let Some((low, after)) = tail.split_first() else {
            return Ok(if *high == b'\'' {
                Some(Blob::from_vec(out))
            } else {
                None
            });
        };
        out.push(16 * digit_value(*high) + digit_value(*low))?;
        rest = after;
    }
    Ok(None)
}

// The value of a hexadecimal digit.
fn digit_value(digit: u8) -> u8
    requires { is_ascii_hexdigit digit ≡ true }
    ensures value { result ≡ digit_value digit }
    ensures small { result < 16 }
{
    match digit {
        b'0'..=b'9' => digit - b'0',
        b'A'..=b'F' => digit - b'A' + 10,
        b'a'..=b'f' => digit - b'a' + 10,
        _ => 0,
    }
}
