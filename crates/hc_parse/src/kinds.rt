ghost use Rattle.std.specs.Prelude.{◌≡◌, ◌<◌, ◌==◌, ◌^◌, nat_lt, if◌then◌else◌};
ghost use Rattle.hc_grammar.specs.Kinds.{keyword_number, kind_number};
// Kinds of tokens.
use hc_lex::{Keyword, TokenKind};

// The number of a kind, which tells it from each other one.
#[inline(always)]
fn number_of(kind: TokenKind) -> u8
    ensures { result ≡ kind_number kind }
{
    match kind {
        TokenKind::Name => 0,
        TokenKind::QuotedName => 1,
        TokenKind::Integer(n) => number_of_integer(n),
        TokenKind::Text => 3,
        TokenKind::Blob => 4,
        TokenKind::LeftParen => 5,
        TokenKind::RightParen => 6,
        TokenKind::Comma => 7,
        TokenKind::Dot => 8,
        TokenKind::Plus => 9,
        TokenKind::Minus => 10,
        TokenKind::Star => 11,
        TokenKind::Slash => 12,
        TokenKind::Percent => 13,
        TokenKind::Equal => 14,
        TokenKind::DoubleEqual => 15,
        TokenKind::Less => 16,
        TokenKind::LessEqual => 17,
        TokenKind::Greater => 18,
        TokenKind::GreaterEqual => 19,
        TokenKind::LessGreater => 20,
        TokenKind::NotEqual => 21,
        TokenKind::DoubleBar => 22,
        TokenKind::Semicolon => 23,
        TokenKind::Keyword(word) => 24 + word_number(word),
    }
}

#[inline(always)]
fn number_of_integer(n: u64) -> u8
    ensures { result ≡ (if nat_lt n (2 ^ 63) then 2 else (if n == 2 ^ 63 then 76 else 77)) }
{
    if n < 1 << 63 {
        2
    } else if n == 1 << 63 {
        76
    } else {
        77
    }
}

#[inline(always)]
fn word_number(word: Keyword) -> u8
    ensures number { result ≡ keyword_number word }
    ensures small { result < 52 }
{
    word as u8
}

/// Whether two kinds are one. All integers below 9223372036854775808 are of one kind, whatever their number.
#[inline(always)]
pub fn is_kind(found: TokenKind, wanted: TokenKind) -> bool
    ensures { result ≡ (kind_number found == kind_number wanted) }
{
    number_of(found) == number_of(wanted)
}
