// Statements that change rows.
ghost use Rattle.hc_grammar.specs.Phrases.{maybe, names};
ghost use Rattle.hc_grammar.specs.Statements.{delete, insert, update};
ghost use Rattle.hc_parse.specs.Coded.{Gives, from};

use crate::cursor::{Cursor, begins, expect, expect_word};
use crate::expressions::read_expression;
use crate::list::{Part, read_list};
use crate::names::read_name;
use crate::parts::{read_clause, read_names};
use crate::source::Source;
use crate::stop::Stop;
use hc_ast::{Assign, Stmt};
use hc_lex::{Keyword, TokenKind};
use hc_value::Str;
use sqlite_items::Items;
use std::alloc::Global;

/// INSERT: a table, its columns where they are written, and rows.
pub fn read_insert(alloc: Global, source: &Source<'_>, cursor: &mut Cursor) -> Result<Stmt, Stop>
    ensures { Gives source.now result cursor.new (from source.now (insert) cursor.old) }
{
    expect_word(source, cursor, Keyword::Insert)?;
    expect_word(source, cursor, Keyword::Into)?;
    let table = read_name(alloc, source, cursor)?;
    let columns = read_columns(alloc, source, cursor)?;
    expect_word(source, cursor, Keyword::Values)?;
    let rows = read_list(alloc, source, cursor)?;
    Ok(Stmt::Insert {
        table,
        columns,
        rows,
    })
}

// Names in parentheses, where they are written.
fn read_columns(
    alloc: Global,
    source: &Source<'_>,
    cursor: &mut Cursor,
) -> Result<Option<Items<Str>>, Stop>
    ensures { Gives source.now result cursor.new (from source.now (maybe names) cursor.old) }
{
    if !begins(source, cursor, TokenKind::LeftParen) {
        return Ok(None);
    }
    let names = read_names(alloc, source, cursor)?;
    Ok(Some(names))
}

/// UPDATE.
pub fn read_update(alloc: Global, source: &Source<'_>, cursor: &mut Cursor) -> Result<Stmt, Stop>
    ensures { Gives source.now result cursor.new (from source.now (update) cursor.old) }
{
    expect_word(source, cursor, Keyword::Update)?;
    let table = read_name(alloc, source, cursor)?;
    expect_word(source, cursor, Keyword::Set)?;
    let sets = read_list(alloc, source, cursor)?;
    let filter = read_clause(alloc, source, cursor, Keyword::Where)?;
    Ok(Stmt::Update {
        table,
        sets,
        filter,
    })
}

impl Part for Assign {
    ghost use Rattle.hc_grammar.specs.Statements.{assign};

    ghost grammar = { assign };

    fn read(alloc: Global, source: &Source<'_>, cursor: &mut Cursor) -> Result<Assign, Stop> {
        let column = read_name(alloc, source, cursor)?;
        expect(source, cursor, TokenKind::Equal)?;
        let value = read_expression(alloc, source, cursor)?;
        Ok(Assign { column, value })
    }
}

/// DELETE.
pub fn read_delete(alloc: Global, source: &Source<'_>, cursor: &mut Cursor) -> Result<Stmt, Stop>
    ensures { Gives source.now result cursor.new (from source.now (delete) cursor.old) }
{
    expect_word(source, cursor, Keyword::Delete)?;
    expect_word(source, cursor, Keyword::From)?;
    let table = read_name(alloc, source, cursor)?;
    let filter = read_clause(alloc, source, cursor, Keyword::Where)?;
    Ok(Stmt::Delete { table, filter })
}
