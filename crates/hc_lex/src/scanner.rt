// The tokens of a text, in one pass over its bytes.
ghost use Rattle.std.specs.Prelude.{◌≡◌, ◌≤◌, ◌<◌, ◌^◌, ◌∷◌, ℕ, List, Ok, Err, drop, length, IfOk, IfErr};
ghost use Rattle.hc_lex.specs.declared.character.Class.TheVariants.{Letter};
ghost use Rattle.hc_lex.specs.declared.fault.LexFault.TheVariants.{Bad};
ghost use Rattle.hc_lex.specs.declared.fault.LexKind.{LexKind};
ghost use Rattle.hc_lex.specs.declared.token.Token.{Token};
ghost use Rattle.hc_lex.specs.Blanks.{BeginsNoBlank};
ghost use Rattle.hc_lex.specs.Characters.{class_of};
ghost use Rattle.hc_lex.specs.Flaws.{IsFlaw};
ghost use Rattle.hc_lex.specs.Pieces.{Skips};
ghost use Rattle.hc_lex.specs.Places.{TokensAscend, TokensAtCharacters};
ghost use Rattle.hc_lex.specs.Quotes.{IsQuote};
ghost use Rattle.hc_lex.specs.Reading.{AreBlanks, HasFault, HasFaultAfter, HasTokens, IsFaultOf, IsNextToken, IsUnlessNoMemory};
ghost use Rattle.hc_lex.specs.Tokens.{IsToken};

use crate::blanks::skip_blank;
use crate::character::{Class, class_of, skip_byte};
use crate::fault::{Flaw, LexFault, LexKind};
use crate::quotes::skip_quoted;
use crate::signs::read_sign;
use crate::token::{Token, TokenKind};
use crate::words::{read_number, read_word, skip_blob};
use sqlite_items::Items;
use std::alloc::Global;

/// The tokens of a text, in order, or its fault of least place.
pub fn tokens(alloc: Global, text: &str) -> Result<Items<Token>, LexFault>
    requires { length text.now < 2 ^ 32 }
    ensures tokens { IfOk result (λ tokens. HasTokens text.now tokens) }
    ensures places { IfOk result (λ tokens. TokensAscend 0 (length text.now) tokens) }
    ensures boundaries { IfOk result (λ tokens. TokensAtCharacters text.now tokens) }
    ensures fault { IfErr result (IsFaultOf text.now) }

    // What has tokens is answered so, and so is what has a fault, unless memory runs out.
    ensures only_tokens { (tokens : List Token) → HasTokens text.now tokens → IsUnlessNoMemory result (Ok tokens) }
    ensures only_fault { (at : ℕ) (kind : LexKind) → HasFault text.now at kind → IsUnlessNoMemory result (Err (Bad at kind)) }
{
    match read_all(alloc, text) {
        Ok(found) => Ok(Items::from_vec(found)),
        Err(fault) => Err(fault),
    }
}

fn read_all(alloc: Global, text: &str) -> Result<Vec<Token>, LexFault>
    requires { length text.now < 2 ^ 32 }
    ensures tokens { IfOk result (λ tokens. HasTokens text.now tokens.items) }
    ensures fault { IfErr result (IsFaultOf text.now) }
{
    let mut found = Vec::new(alloc);
    let mut at = 0;
    loop {
        match next_token(text, at) {
            Ok(Some(token)) => {
                found.push(token)?;
                at = token.to;
            }
            Ok(None) => return Ok(found),
            Err(fault) => return Err(fault),
        }
    }
}

/// The first token that begins at a place of a text or after it, where only spaces and comments lie between; or
/// nothing where no token follows; or the fault that is there. A text can be read so without a list of its tokens:
/// after a token the next one is sought from its end on.
pub fn next_token(text: &str, from: u32) -> Result<Option<Token>, LexFault>
    requires length { length text.now < 2 ^ 32 }
    requires within { from ≤ length text.now }
    ensures token { IfOk result (IsNextToken text.now from) }
    ensures fault { IfErr result (HasFaultAfter text.now from) }
{
    let rest = skip_blanks(text, from as usize);
    let at = text.len() - rest.len();
    let Some((first, tail)) = rest.split_first() else {
        return Ok(None);
    };
    match read_token(rest, *first, tail) {
        Ok((kind, after)) => Ok(Some(Token {
            kind,
            from: at as u32,
            to: (text.len() - after.len()) as u32,
        })),
        Err(flaw) => Err(LexFault::Bad {
            at: (at + flaw.offset) as u32,
            kind: flaw.kind,
        }),
    }
}

// What follows the spaces and comments after a place.
fn skip_blanks(text: &str, from: usize) -> &[u8]
    requires { from ≤ length text.now }
    ensures blanks { AreBlanks (drop from text.now) result.now }
    ensures all { BeginsNoBlank result.now }
    ensures within { length result.now ≤ length text.now }
{
    let (_, mut rest) = text.as_bytes().split_at(from);
    while let Some(after) = skip_blank(rest) {
        rest = after;
    }
    rest
}

// The token in front, where no space and no comment begins there.
fn read_token<'a>(bytes: &'a [u8], first: u8, tail: &'a [u8]) -> Result<(TokenKind, &'a [u8]), Flaw>
    requires whole { bytes.now ≡ first ∷ tail.now }
    requires no_blank { BeginsNoBlank bytes.now }
    ensures ok { IfOk result (λ read. Skips (IsToken read.0) bytes.now read.1.now) }
    ensures err { IfErr result (λ flaw. IsFlaw flaw.kind flaw.offset bytes.now) }
    ensures within { IfErr result (λ flaw. flaw.offset ≤ length bytes.now) }
{
    match class_of(first) {
        Class::Letter => read_word_or_blob(bytes, first, tail),
        Class::Digit => read_number(bytes),
        Class::Quote => read_quoted(first, tail),
        Class::Sign => match read_sign(first, tail) {
            Some(read) => Ok(read),
            None => Err(Flaw::at_front(LexKind::Char)),
        },
        Class::Space | Class::Dollar | Class::Other => Err(Flaw::at_front(LexKind::Char)),
    }
}

// The text or the quoted name of which this is the opening quote.
fn read_quoted(quote: u8, tail: &[u8]) -> Result<(TokenKind, &[u8]), Flaw>
    requires { IsQuote quote }
    ensures ok { IfOk result (λ read. Skips (IsToken read.0) (quote ∷ tail.now) read.1.now) }
    ensures err { IfErr result (λ flaw. IsFlaw flaw.kind flaw.offset (quote ∷ tail.now)) }
    ensures at_front { IfErr result (λ flaw. flaw.offset ≡ 0) }
{
    match skip_quoted(quote, tail) {
        Some(rest) if quote == b'"' => Ok((TokenKind::QuotedName, rest)),
        Some(rest) => Ok((TokenKind::Text, rest)),
        None => Err(Flaw::at_front(LexKind::OpenText)),
    }
}

// What begins with a letter: a blob where it is an `x` and a quote follows.
fn read_word_or_blob<'a>(
    bytes: &'a [u8],
    first: u8,
    tail: &'a [u8],
) -> Result<(TokenKind, &'a [u8]), Flaw>
    requires whole { bytes.now ≡ first ∷ tail.now }
    requires letter { class_of first ≡ Letter }
    ensures ok { IfOk result (λ read. Skips (IsToken read.0) bytes.now read.1.now) }
    ensures err { IfErr result (λ flaw. IsFlaw flaw.kind flaw.offset bytes.now) }
    ensures at_front { IfErr result (λ flaw. flaw.offset ≡ 0) }
{
    if first == b'x' || first == b'X' {
        if let Some(digits) = skip_byte(b'\'', tail) {
            return match skip_blob(digits) {
                Some(rest) => Ok((TokenKind::Blob, rest)),
                None => Err(Flaw::at_front(LexKind::BadBlob)),
            };
        }
    }
    Ok(read_word(bytes))
}
