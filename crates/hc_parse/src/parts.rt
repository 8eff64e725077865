// Names and expressions in lists, and those in parentheses.
ghost use Rattle.std.specs.Prelude.{◌∷◌, []};
ghost use Rattle.hc_grammar.specs.Expressions.{expression};
ghost use Rattle.hc_grammar.specs.Phrases.{name, names};
ghost use Rattle.hc_grammar.specs.Queries.{clause};
ghost use Rattle.hc_grammar.specs.Statements.{row};
ghost use Rattle.hc_parse.specs.Coded.{Gives, from};

use crate::cursor::{Cursor, accept_word, expect};
use crate::expressions::read_expression;
use crate::list::{Part, read_list};
use crate::names::read_name;
use crate::source::Source;
use crate::stop::Stop;
use hc_ast::{Expr, ExprRow};
use hc_lex::{Keyword, TokenKind};
use hc_value::Str;
use sqlite_items::Items;
use std::alloc::Global;

impl Part for Str {
    ghost grammar = { name };

    fn read(alloc: Global, source: &Source<'_>, cursor: &mut Cursor) -> Result<Str, Stop> {
        read_name(alloc, source, cursor)
    }
}

impl Part for Expr {
    ghost grammar = { expression };

    fn read(alloc: Global, source: &Source<'_>, cursor: &mut Cursor) -> Result<Expr, Stop> {
        read_expression(alloc, source, cursor)
    }
}

impl Part for ExprRow {
    ghost grammar = { row };

    fn read(alloc: Global, source: &Source<'_>, cursor: &mut Cursor) -> Result<ExprRow, Stop> {
        expect(source, cursor, TokenKind::LeftParen)?;
        let values = read_list(alloc, source, cursor)?;
        expect(source, cursor, TokenKind::RightParen)?;
        Ok(ExprRow { values })
    }
}

/// Names in parentheses.
pub fn read_names(
    alloc: Global,
    source: &Source<'_>,
    cursor: &mut Cursor,
) -> Result<Items<Str>, Stop>
    ensures { Gives source.now result cursor.new (from source.now (names) cursor.old) }
{
    expect(source, cursor, TokenKind::LeftParen)?;
    let names = read_list(alloc, source, cursor)?;
    expect(source, cursor, TokenKind::RightParen)?;
    Ok(names)
}

/// A keyword and an expression, or nothing.
pub fn read_clause(
    alloc: Global,
    source: &Source<'_>,
    cursor: &mut Cursor,
    word: Keyword,
) -> Result<Option<Expr>, Stop>
    ensures { Gives source.now result cursor.new (from source.now (clause (word ∷ [])) cursor.old) }
{
    if !accept_word(source, cursor, word) {
        return Ok(None);
    }
    let condition = read_expression(alloc, source, cursor)?;
    Ok(Some(condition))
}
