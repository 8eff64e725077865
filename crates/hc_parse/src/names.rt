// Names, aliases, literals and numbers.
ghost use Rattle.std.specs.Prelude.{◌≡◌};
ghost use Rattle.hc_ast.specs.declared.expression.Expr.TheVariants as expr;
ghost use Rattle.hc_grammar.specs.Grammar.{Made, One};
ghost use Rattle.hc_grammar.specs.Marks.{Plain};
ghost use Rattle.hc_grammar.specs.Phrases.{maybe, name};
ghost use Rattle.hc_grammar.specs.Queries.{alias, direction, integer};
ghost use Rattle.hc_grammar.specs.Terminals.{Direction, Integer, Literal, Negative};
ghost use Rattle.hc_parse.specs.Coded.{Gives, from};

use crate::cursor::{
    Cursor, accept, accept_word, advance, begins, begins_name, begins_word, next_piece,
};
use crate::lexeme::{after_minus, direction_of, integer_of, literal_of, name_of};
use crate::source::Source;
use crate::stop::Stop;
use hc_ast::Expr;
use hc_lex::{Keyword, TokenKind};
use hc_value::Str;
use sqlite_items::Boxed;
use std::alloc::Global;

/// A name.
#[inline(never)]
pub fn read_name(alloc: Global, source: &Source<'_>, cursor: &mut Cursor) -> Result<Str, Stop>
    ensures { Gives source.now result cursor.new (from source.now name cursor.old) }
{
    let Some(piece) = next_piece(source, cursor) else {
        return Err(Stop::Unexpected);
    };
    let Some(found) = name_of(alloc, &piece)? else {
        return Err(Stop::Unexpected);
    };
    advance(source, cursor);
    Ok(found)
}

/// An alias, with AS or without, or none.
pub fn read_alias(
    alloc: Global,
    source: &Source<'_>,
    cursor: &mut Cursor,
) -> Result<Option<Boxed<Str>>, Stop>
    ensures { Gives source.now result cursor.new (from source.now (maybe alias) cursor.old) }
{
    if !accept_word(source, cursor, Keyword::As) && !begins_name(source, cursor) {
        return Ok(None);
    }
    let name = read_name(alloc, source, cursor)?;
    Ok(Some(Boxed::new(alloc, name)?))
}

/// A literal of one token.
#[inline(never)]
pub fn read_literal(alloc: Global, source: &Source<'_>, cursor: &mut Cursor) -> Result<Expr, Stop>
    ensures { Gives source.now result cursor.new (from source.now (Made expr.Value (One Plain Literal)) cursor.old) }
{
    let Some(piece) = next_piece(source, cursor) else {
        return Err(Stop::Unexpected);
    };
    let Some(value) = literal_of(alloc, &piece)? else {
        return Err(Stop::Unexpected);
    };
    advance(source, cursor);
    Ok(Expr::Value(value))
}

/// An integer, and one after a minus.
pub fn read_integer(source: &Source<'_>, cursor: &mut Cursor) -> Result<i64, Stop>
    ensures { Gives source.now result cursor.new (from source.now integer cursor.old) }
{
    if accept(source, cursor, TokenKind::Minus) {
        read_negative(source, cursor)
    } else {
        read_positive(source, cursor)
    }
}

fn read_positive(source: &Source<'_>, cursor: &mut Cursor) -> Result<i64, Stop>
    ensures { Gives source.now result cursor.new (from source.now (One Plain Integer) cursor.old) }
{
    let Some(piece) = next_piece(source, cursor) else {
        return Err(Stop::Unexpected);
    };
    let Some(number) = integer_of(&piece) else {
        return Err(Stop::Unexpected);
    };
    advance(source, cursor);
    Ok(number)
}

fn read_negative(source: &Source<'_>, cursor: &mut Cursor) -> Result<i64, Stop>
    ensures { Gives source.now result cursor.new (from source.now (One Plain Negative) cursor.old) }
{
    let Some(piece) = next_piece(source, cursor) else {
        return Err(Stop::Unexpected);
    };
    let Some(number) = after_minus(&piece) else {
        return Err(Stop::Unexpected);
    };
    advance(source, cursor);
    Ok(number)
}

/// ASC, DESC or nothing: whether the order is turned round.
#[tactic(auto, using(crate::proofs::Left::among_one))]
pub fn read_direction(source: &Source<'_>, cursor: &mut Cursor) -> Result<bool, Stop>
    ensures { Gives source.now result cursor.new (from source.now direction cursor.old) }
{
    if !begins(source, cursor, TokenKind::Name) {
        return Ok(false);
    }
    read_order(source, cursor)
}

fn read_order(source: &Source<'_>, cursor: &mut Cursor) -> Result<bool, Stop>
    ensures { Gives source.now result cursor.new (from source.now (One Plain Direction) cursor.old) }
{
    let Some(piece) = next_piece(source, cursor) else {
        return Err(Stop::Unexpected);
    };
    let Some(desc) = direction_of(&piece) else {
        return Err(Stop::Unexpected);
    };
    advance(source, cursor);
    Ok(desc)
}
