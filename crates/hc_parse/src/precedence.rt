// The precedences of operators, from the loosest on.
ghost use Rattle.std.specs.Prelude.{◌≡◌, ◌<◌};
ghost use Rattle.hc_grammar.specs.Climbing.{is_between, next_precedence};
ghost use Rattle.hc_parse.specs.Seen.{left};
ghost use Rattle.hc_parse.specs.Tails.{next_sign, precedence_of, sign_of};

use crate::cursor::{Cursor, peek};
use crate::source::Source;
use hc_ast::BinaryOp;
use hc_lex::{Keyword, TokenKind};

/// OR.
pub const DISJUNCTION: u8 = 1;

/// NOT before an operand.
pub const NEGATION: u8 = 3;

/// What binds next looser than NOT before an operand: AND.
pub const CONJUNCTION: u8 = 2;

/// `=`, IS, IN, LIKE and BETWEEN.
pub const EQUALITY: u8 = 4;

/// What the operands of BETWEEN, and those after LIKE and IS, are made of.
pub const ORDER: u8 = 5;

/// `||`.
pub const CONCATENATION: u8 = 8;

/// The precedence of the operator that begins with a token of this kind, and 0 where none does.
#[inline(always)]
pub fn precedence_of(kind: TokenKind) -> u8
    ensures is { result ≡ precedence_of kind }
    ensures small { result < 9 }
{
    match kind {
        TokenKind::Keyword(word) => precedence_of_word(word),
        TokenKind::Equal | TokenKind::DoubleEqual | TokenKind::LessGreater | TokenKind::NotEqual =>
            EQUALITY,
        TokenKind::Less | TokenKind::LessEqual | TokenKind::Greater | TokenKind::GreaterEqual =>
            ORDER,
        TokenKind::Plus | TokenKind::Minus => 6,
        TokenKind::Star | TokenKind::Slash | TokenKind::Percent => 7,
        TokenKind::DoubleBar => CONCATENATION,
        _ => 0,
    }
}

#[inline(always)]
fn precedence_of_word(word: Keyword) -> u8
    ensures is { result ≡ precedence_of (TokenKind.Keyword word) }
    ensures small { result < 9 }
{
    match word {
        Keyword::Or => DISJUNCTION,
        Keyword::And => CONJUNCTION,
        Keyword::Is | Keyword::Not | Keyword::In | Keyword::Like | Keyword::Between => EQUALITY,
        _ => 0,
    }
}

/// The operator that is one token of this kind.
#[inline(always)]
pub fn sign_of(kind: TokenKind) -> Option<BinaryOp>
    ensures { result ≡ sign_of kind }
{
    match kind {
        TokenKind::Keyword(word) => sign_of_word(word),
        TokenKind::Equal | TokenKind::DoubleEqual => Some(BinaryOp::Eq),
        TokenKind::LessGreater | TokenKind::NotEqual => Some(BinaryOp::Ne),
        TokenKind::Less => Some(BinaryOp::Lt),
        TokenKind::LessEqual => Some(BinaryOp::Le),
        TokenKind::Greater => Some(BinaryOp::Gt),
        TokenKind::GreaterEqual => Some(BinaryOp::Ge),
        TokenKind::Plus => Some(BinaryOp::Add),
        TokenKind::Minus => Some(BinaryOp::Sub),
        TokenKind::Star => Some(BinaryOp::Mul),
        TokenKind::Slash => Some(BinaryOp::Div),
        TokenKind::Percent => Some(BinaryOp::Rem),
        TokenKind::DoubleBar => Some(BinaryOp::Concat),
        _ => None,
    }
}

#[inline(always)]
fn sign_of_word(word: Keyword) -> Option<BinaryOp>
    ensures { result ≡ sign_of (TokenKind.Keyword word) }
{
    match word {
        Keyword::Or => Some(BinaryOp::Or),
        Keyword::And => Some(BinaryOp::And),
        _ => None,
    }
}

/// The precedence of the operator that is next, and 0 where there is none.
#[inline(always)]
#[tactic(auto, using(crate::proofs::Precedences::next_is))]
pub fn next_precedence(source: &Source<'_>, cursor: &Cursor) -> u8
    ensures is { result ≡ next_precedence (left source.now cursor.now) }
    ensures small { result < 9 }
{
    match peek(source, cursor) {
        Some(kind) => precedence_of(kind),
        None => 0,
    }
}

/// The operator of one token that is next.
#[inline(always)]
#[tactic(auto, using(crate::proofs::Precedences::sign_is))]
pub fn next_sign(source: &Source<'_>, cursor: &Cursor) -> Option<BinaryOp>
    ensures { result ≡ next_sign (left source.now cursor.now) }
{
    match peek(source, cursor) {
        Some(kind) => sign_of(kind),
        None => None,
    }
}

/// Whether a precedence is none of those that are looser than the one and tighter than the other.
#[inline(always)]
pub fn is_between(least: u8, precedence: u8, most: u8) -> bool
    ensures { result ≡ is_between least precedence most }
{
    least <= precedence && precedence <= most
}
