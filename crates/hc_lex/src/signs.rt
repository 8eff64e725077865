// Signs of one and of two characters.
ghost use Rattle.std.specs.Prelude.{◌≡◌, ◌∷◌, IfSome, IfNone};
ghost use Rattle.hc_lex.specs.declared.character.Class.TheVariants.{Sign};
ghost use Rattle.hc_lex.specs.Blanks.{BeginsNoBlank};
ghost use Rattle.hc_lex.specs.Characters.{class_of};
ghost use Rattle.hc_lex.specs.Flaws.{BeginsStray};
ghost use Rattle.hc_lex.specs.Pieces.{Skips};
ghost use Rattle.hc_lex.specs.Tokens.{IsToken};

use crate::character::skip_byte;
use crate::token::TokenKind;

/// The longest sign that begins with this character, and what follows it.
pub fn read_sign(first: u8, tail: &[u8]) -> Option<(TokenKind, &[u8])>
    requires sign { class_of first ≡ Sign }
    requires no_blank { BeginsNoBlank (first ∷ tail.now) }
    ensures some { IfSome result (λ read. Skips (IsToken read.0) (first ∷ tail.now) read.1.now) }
    ensures none { IfNone result (BeginsStray (first ∷ tail.now)) }
{
    match first {
        b'(' => Some((TokenKind::LeftParen, tail)),
        b')' => Some((TokenKind::RightParen, tail)),
        b',' => Some((TokenKind::Comma, tail)),
        b'.' => Some((TokenKind::Dot, tail)),
        b'+' => Some((TokenKind::Plus, tail)),
        b'-' => Some((TokenKind::Minus, tail)),
        b'*' => Some((TokenKind::Star, tail)),
        b'/' => Some((TokenKind::Slash, tail)),
        b'%' => Some((TokenKind::Percent, tail)),
        b';' => Some((TokenKind::Semicolon, tail)),
        b'=' => Some(read_equal(tail)),
        b'<' => Some(read_less(tail)),
        b'>' => Some(read_greater(tail)),
        b'!' => read_not(tail),
        _ => read_bar(tail),
    }
}

// After `=`.
fn read_equal(tail: &[u8]) -> (TokenKind, &[u8])
    ensures { Skips (IsToken result.0) (61 ∷ tail.now) result.1.now }
{
    match skip_byte(b'=', tail) {
        Some(rest) => (TokenKind::DoubleEqual, rest),
        None => (TokenKind::Equal, tail),
    }
}

// After `<`.
fn read_less(tail: &[u8]) -> (TokenKind, &[u8])
    ensures { Skips (IsToken result.0) (60 ∷ tail.now) result.1.now }
{
    if let Some(rest) = skip_byte(b'=', tail) {
        return (TokenKind::LessEqual, rest);
    }
    match skip_byte(b'>', tail) {
        Some(rest) => (TokenKind::LessGreater, rest),
        None => (TokenKind::Less, tail),
    }
}

// After `>`.
fn read_greater(tail: &[u8]) -> (TokenKind, &[u8])
    ensures { Skips (IsToken result.0) (62 ∷ tail.now) result.1.now }
{
    match skip_byte(b'=', tail) {
        Some(rest) => (TokenKind::GreaterEqual, rest),
        None => (TokenKind::Greater, tail),
    }
}

// After `!`.
fn read_not(tail: &[u8]) -> Option<(TokenKind, &[u8])>
    ensures some { IfSome result (λ read. Skips (IsToken read.0) (33 ∷ tail.now) read.1.now) }
    ensures none { IfNone result (BeginsStray (33 ∷ tail.now)) }
{
    match skip_byte(b'=', tail) {
        Some(rest) => Some((TokenKind::NotEqual, rest)),
        None => None,
    }
}

// After `|`.
fn read_bar(tail: &[u8]) -> Option<(TokenKind, &[u8])>
    ensures some { IfSome result (λ read. Skips (IsToken read.0) (124 ∷ tail.now) read.1.now) }
    ensures none { IfNone result (BeginsStray (124 ∷ tail.now)) }
{
    match skip_byte(b'|', tail) {
        Some(rest) => Some((TokenKind::DoubleBar, rest)),
        None => None,
    }
}
