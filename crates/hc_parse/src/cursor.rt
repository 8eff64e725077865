// How far the tokens of a text are read.
ghost use Rattle.std.specs.Prelude.{◌≡◌, ◌∷◌, [], ◌<◌, ◌-◌, Bool, true, length, drop, Some, None, OnOk, OnErr};
ghost use Rattle.std.specs.Option.{option_map_or};
ghost use Rattle.hc_grammar.specs.Kinds.{is, among, head_is};
ghost use Rattle.hc_parse.specs.Coded.{Accepts, Advances, Charges, Expects, Opens, Tells};
ghost use Rattle.hc_parse.specs.Seen.{left, next_kind, budget_of, head_of, lexeme_seen};
ghost use Rattle.hc_grammar.specs.Terminals.{also};

use crate::kinds::is_kind;
use crate::source::{Piece, Source};
use crate::stop::Stop;
use hc_lex::{Keyword, TokenKind};

/// How many tokens are read, and how many operators and tables may still come.
#[derive(Clone, Copy, Debug)]
pub struct Cursor {
    pub at: usize,
    pub operators: u32,
    pub tables: u32,
}

/// The next token.
#[inline(always)]
pub fn next_piece<'a>(source: &Source<'a>, cursor: &Cursor) -> Option<Piece<'a>>
    ensures { also lexeme_seen result ≡ head_of (left source.now cursor.now) }
{
    match source.tokens.get(cursor.at) {
        Some(token) => Some(Piece {
            kind: token.kind,
            text: &source.text[token.from as usize..token.to as usize],
        }),
        None => None,
    }
}

/// The kind of the next token.
#[inline(always)]
pub fn peek(source: &Source<'_>, cursor: &Cursor) -> Option<TokenKind>
    ensures { result ≡ next_kind (left source.now cursor.now) }
{
    match source.tokens.get(cursor.at) {
        Some(token) => Some(token.kind),
        None => None,
    }
}

/// Whether the next token is of this kind.
#[inline(always)]
#[tactic(auto, using(crate::proofs::Left::among_one))]
pub fn begins(source: &Source<'_>, cursor: &Cursor, kind: TokenKind) -> bool
    ensures { Tells source.now kind cursor.now result }
{
    match source.tokens.get(cursor.at) {
        Some(token) => is_kind(token.kind, kind),
        None => false,
    }
}

/// Whether the next token is this keyword.
#[inline(always)]
pub fn begins_word(source: &Source<'_>, cursor: &Cursor, word: Keyword) -> bool
    ensures { Tells source.now (TokenKind.Keyword word) cursor.now result }
{
    begins(source, cursor, TokenKind::Keyword(word))
}

/// Whether the next token is a name.
#[inline(always)]
#[tactic(auto, using(crate::proofs::Left::among_more, crate::proofs::Left::among_one))]
pub fn begins_name(source: &Source<'_>, cursor: &Cursor) -> bool
    ensures { result ≡ head_is (among (TokenKind.Name ∷ TokenKind.QuotedName ∷ [])) (left source.now cursor.now) }
{
    begins(source, cursor, TokenKind::Name) || begins(source, cursor, TokenKind::QuotedName)
}

/// Passes the next token.
#[inline(always)]
#[tactic(auto, using(crate::proofs::Left::after_one))]
pub fn advance(source: &Source<'_>, cursor: &mut Cursor)
    ensures { Advances source.now cursor.old cursor.new }
{
    if cursor.at < source.tokens.len() {
        cursor.at += 1;
    }
}

/// Passes the next token where it is of this kind, and tells whether it is.
#[inline(always)]
pub fn accept(source: &Source<'_>, cursor: &mut Cursor, kind: TokenKind) -> bool
    ensures { Accepts source.now kind cursor.old cursor.new result }
{
    let is_there = begins(source, cursor, kind);
    if is_there {
        advance(source, cursor);
    }
    is_there
}

/// Passes the next token where it is this keyword, and tells whether it is.
#[inline(always)]
pub fn accept_word(source: &Source<'_>, cursor: &mut Cursor, word: Keyword) -> bool
    ensures { Accepts source.now (TokenKind.Keyword word) cursor.old cursor.new result }
{
    accept(source, cursor, TokenKind::Keyword(word))
}

/// Passes a token of this kind.
#[inline(always)]
pub fn expect(source: &Source<'_>, cursor: &mut Cursor, kind: TokenKind) -> Result<(), Stop>
    ensures { Expects source.now kind cursor.old cursor.new result }
{
    if accept(source, cursor, kind) {
        Ok(())
    } else {
        Err(Stop::Unexpected)
    }
}

/// Passes a keyword.
#[inline(always)]
pub fn expect_word(source: &Source<'_>, cursor: &mut Cursor, word: Keyword) -> Result<(), Stop>
    ensures { Expects source.now (TokenKind.Keyword word) cursor.old cursor.new result }
{
    expect(source, cursor, TokenKind::Keyword(word))
}

/// Passes a token that opens a level, where so many may still be opened.
#[inline(always)]
pub fn open(
    source: &Source<'_>,
    cursor: &mut Cursor,
    levels: u32,
    kind: TokenKind,
) -> Result<(), Stop>
    ensures { Opens source.now kind levels cursor.old cursor.new result }
{
    if !begins(source, cursor, kind) {
        return Err(Stop::Unexpected);
    }
    if levels == 0 {
        return Err(Stop::TooDeep);
    }
    advance(source, cursor);
    Ok(())
}

/// Takes the operator that is next from those that may still come.
#[inline(always)]
pub fn charge(cursor: &mut Cursor) -> Result<(), Stop>
    ensures { Charges cursor.old cursor.new result }
{
    if cursor.operators == 0 {
        return Err(Stop::TooDeep);
    }
    cursor.operators -= 1;
    Ok(())
}
