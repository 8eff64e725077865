// What one token means: names and literals.
ghost use Rattle.std.specs.Prelude.{◌≡◌, true, IfOk};
ghost use Rattle.hc_grammar.specs.Terminals.{also, name_of, unquoted, blob_of, literal_of, number_of, integer_of, after_minus, value_of, Direction};
ghost use Rattle.hc_grammar.specs.Kinds.{is};
ghost use Rattle.hc_parse.specs.Seen.{lexeme_seen};

use crate::kinds::is_kind;
use crate::quoted::{blob_of, unquoted};
use crate::source::Piece;
use hc_lex::{Keyword, TokenKind};
use hc_value::{NoMemory, Str, Value};
use std::alloc::Global;

/// The name that a token is.
pub fn name_of(alloc: Global, piece: &Piece<'_>) -> Result<Option<Str>, NoMemory>
    ensures { IfOk result (λ name. name ≡ name_of (lexeme_seen piece.now)) }
{
    if is_kind(piece.kind, TokenKind::Name) {
        return Ok(Some(Str::from_text(alloc, piece.text)?));
    }
    if is_kind(piece.kind, TokenKind::QuotedName) {
        return unquoted(alloc, b'"', piece.text);
    }
    Ok(None)
}

/// The number of an integer, and 0 else.
pub fn number_of(kind: TokenKind) -> u64
    ensures { result ≡ number_of kind }
{
    match kind {
        TokenKind::Integer(n) => n,
        _ => 0,
    }
}

/// The integer that a token is, where it is a literal.
pub fn integer_of(piece: &Piece<'_>) -> Option<i64>
    ensures { result ≡ integer_of (lexeme_seen piece.now) }
{
    let number = number_of(piece.kind);
    if is_kind(piece.kind, TokenKind::Integer(0)) {
        Some(number as i64)
    } else {
        None
    }
}

/// The literal that a token is.
pub fn literal_of(alloc: Global, piece: &Piece<'_>) -> Result<Option<Value>, NoMemory>
    ensures { IfOk result (λ value. value ≡ literal_of (lexeme_seen piece.now)) }
{
    if is_kind(piece.kind, TokenKind::Keyword(Keyword::Null)) {
        return Ok(Some(Value::Null));
    }
    if is_kind(piece.kind, TokenKind::Text) {
        return text_value(alloc, piece.text);
    }
    if is_kind(piece.kind, TokenKind::Blob) {
        return blob_value(alloc, piece);
    }
    Ok(match integer_of(piece) {
        Some(n) => Some(Value::Int(n)),
        None => None,
    })
}

fn text_value(alloc: Global, text: &str) -> Result<Option<Value>, NoMemory>
    ensures { IfOk result (λ value. value ≡ also Value.Text (unquoted 39 text.now)) }
{
    Ok(match unquoted(alloc, b'\'', text)? {
        Some(inner) => Some(Value::Text(inner)),
        None => None,
    })
}

fn blob_value(alloc: Global, piece: &Piece<'_>) -> Result<Option<Value>, NoMemory>
    requires { is TokenKind.Blob (lexeme_seen piece.now) ≡ true }
    ensures { IfOk result (λ value. value ≡ also Value.Blob (blob_of piece.now.text.now)) }
{
    // A copy, of which it is known that its digits are hexadecimal.
    let own = *piece;
    Ok(match blob_of(alloc, own.text.as_bytes())? {
        Some(inner) => Some(Value::Blob(inner)),
        None => None,
    })
}

/// The integer that a token is after a minus.
pub fn after_minus(piece: &Piece<'_>) -> Option<i64>
    ensures { result ≡ after_minus (lexeme_seen piece.now) }
{
    if is_kind(piece.kind, TokenKind::Integer(0)) {
        return Some(-(number_of(piece.kind) as i64));
    }
    if is_kind(piece.kind, TokenKind::Integer(1 << 63)) {
        return Some(i64::MIN);
    }
    None
}

/// Whether the order is turned round, as the letters of a name say: ASC or DESC.
pub fn direction_of(piece: &Piece<'_>) -> Option<bool>
    ensures { result ≡ value_of Direction (lexeme_seen piece.now) }
{
    if !is_kind(piece.kind, TokenKind::Name) {
        return None;
    }
    if b"DESC".eq_ignore_ascii_case(piece.text.as_bytes()) {
        return Some(true);
    }
    if b"ASC".eq_ignore_ascii_case(piece.text.as_bytes()) {
        return Some(false);
    }
    None
}
