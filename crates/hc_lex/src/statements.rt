// The statements of a script, in one pass over its bytes.
ghost use Rattle.std.specs.Prelude.{◌≡◌, ◌<◌, ◌^◌, ◌∷◌, ◌++◌, List, length, option_to_list, IfOk, OnOk};
ghost use Rattle.hc_lex.specs.declared.statements.Span.{Span};
ghost use Rattle.hc_lex.specs.Quotes.{IsQuote};
ghost use Rattle.hc_lex.specs.Pieces.{Skips};
ghost use Rattle.hc_lex.specs.Places.{SpansAscend, SpansAtCharacters};
ghost use Rattle.hc_lex.specs.Statements.{AreOrdinary, HasStatements, IsPart, is_ordinary};
ghost use Rattle.std.specs.Option.{option_map_or};

use crate::NoMemory;
use crate::blanks::skip_blank;
use crate::part::Part;
use crate::quotes::skip_quoted;
use sqlite_items::Items;
use std::alloc::Global;

/// The bytes of a script from `from` up to, and without, `to`.
#[derive(Clone, Copy, Debug, PartialEq, Eq)]
pub struct Span {
    /// The place of the first byte.
    pub from: u32,
    /// The place after the last byte.
    pub to: u32,
}

/// The statements of a script, in order.
pub fn cut(alloc: Global, text: &str) -> Result<Items<Span>, NoMemory>
    requires { length text.now < 2 ^ 32 }
    ensures statements { IfOk result (λ spans. HasStatements text.now spans) }
    ensures places { IfOk result (λ spans. SpansAscend 0 (length text.now) spans) }
    ensures boundaries { IfOk result (λ spans. SpansAtCharacters text.now spans) }

    // The script has no other statements.
    ensures only { IfOk result (λ spans. (others : List Span) → HasStatements text.now others → others ≡ spans) }
{
    let spans = cut_all(alloc, text.as_bytes())?;
    Ok(Items::from_vec(spans))
}

fn cut_all(alloc: Global, bytes: &[u8]) -> Result<Vec<Span>, NoMemory>
    requires { length bytes.now < 2 ^ 32 }
    ensures { IfOk result (λ spans. HasStatements bytes.now spans.items) }
{
    let mut spans = Vec::new(alloc);
    let mut unfinished = None;
    let mut rest = bytes;
    while let Some((first, tail)) = rest.split_first() {
        let from = (bytes.len() - rest.len()) as u32;
        let (part, after) = read_part(rest, *first, tail);
        rest = after;
        match part {
            Part::Blank => {}
            Part::Statement => {
                rest = skip_ordinary(after);
                let to = (bytes.len() - rest.len()) as u32;
                unfinished = Some(with_bytes(unfinished, from, to));
            }
            Part::Separator => {
                push_if(&mut spans, unfinished)?;
                unfinished = None;
            }
        }
    }
    push_if(&mut spans, unfinished)?;
    Ok(spans)
}

fn push_if(spans: &mut Vec<Span>, span: Option<Span>) -> Result<(), NoMemory>
    ensures { OnOk result (spans.new.items ≡ spans.old.items ++ option_to_list span) }
{
    if let Some(span) = span {
        spans.push(span)?;
    }
    Ok(())
}

// The span with more bytes at its end, which are its first ones where there is none.
fn with_bytes(span: Option<Span>, from: u32, to: u32) -> Span
    ensures from { result.from ≡ option_map_or (λ span. span.from) span from }
    ensures to { result.to ≡ to }
{
    match span {
        None => Span { from, to },
        Some(span) => Span {
            from: span.from,
            to,
        },
    }
}

// What the first bytes belong to, and what follows them.
#[inline(always)]
fn read_part<'a>(bytes: &'a [u8], first: u8, tail: &'a [u8]) -> (Part, &'a [u8])
    requires { bytes.now ≡ first ∷ tail.now }
    ensures { Skips (IsPart result.0) bytes.now result.1.now }
{
    if is_ordinary(first) {
        return (Part::Statement, tail);
    }
    match first {
        b';' => (Part::Separator, tail),
        b'"' | b'\'' => read_literal(first, tail),
        b'-' | b'/' => match skip_blank(bytes) {
            Some(rest) => (Part::Blank, rest),
            None => (Part::Statement, tail),
        },
        _ => (Part::Blank, tail),
    }
}

// A text or a quoted name, which goes on to the end of the script where it is not closed.
fn read_literal(quote: u8, tail: &[u8]) -> (Part, &[u8])
    requires { IsQuote quote }
    ensures { Skips (IsPart result.0) (quote ∷ tail.now) result.1.now }
{
    match skip_quoted(quote, tail) {
        Some(rest) => (Part::Statement, rest),
        None => (Part::Statement, &[]),
    }
}

// What follows the ordinary bytes in front. Each is a part of a statement, wherever it is outside quotes.
#[inline(always)]
fn skip_ordinary(bytes: &[u8]) -> &[u8]
    ensures { Skips (λ text rest. AreOrdinary text) bytes.now result.now }
{
    for (i, b) in bytes.iter().enumerate() {
        if !is_ordinary(*b) {
            let (_, rest) = bytes.split_at(i);
            return rest;
        }
    }
    &[]
}

// Whether a byte is a part of a statement outside quotes, whatever follows it. Most bytes of a script are.
#[inline(always)]
fn is_ordinary(b: u8) -> bool
    ensures { result ≡ is_ordinary b }
{
    !matches!(
        b,
        b'\t' | b'\n' | b'\x0c' | b'\r' | b' ' | b'"' | b'\'' | b'-' | b'/' | b';'
    )
}
