// Statements that make or drop tables and indexes.
ghost use Rattle.hc_grammar.specs.Statements.{create, create_index, create_table, drop_statement, if_exists, if_not_exists};
ghost use Rattle.hc_parse.specs.Coded.{Gives, from};

use crate::columns::read_parts;
use crate::cursor::{Cursor, accept_word, begins_word, expect, expect_word};
use crate::names::read_name;
use crate::parts::read_names;
use crate::source::Source;
use crate::stop::Stop;
use hc_ast::Stmt;
use hc_lex::{Keyword, TokenKind};
use std::alloc::Global;

/// CREATE.
pub fn read_create(alloc: Global, source: &Source<'_>, cursor: &mut Cursor) -> Result<Stmt, Stop>
    ensures { Gives source.now result cursor.new (from source.now (create) cursor.old) }
{
    expect_word(source, cursor, Keyword::Create)?;
    if begins_word(source, cursor, Keyword::Table) {
        return read_create_table(alloc, source, cursor);
    }
    if accept_word(source, cursor, Keyword::Unique) {
        return read_create_index(alloc, source, cursor, true);
    }
    read_create_index(alloc, source, cursor, false)
}

fn read_create_table(alloc: Global, source: &Source<'_>, cursor: &mut Cursor) -> Result<Stmt, Stop>
    ensures { Gives source.now result cursor.new (from source.now (create_table) cursor.old) }
{
    expect_word(source, cursor, Keyword::Table)?;
    let maybe = read_if_not_exists(source, cursor)?;
    let name = read_name(alloc, source, cursor)?;
    expect(source, cursor, TokenKind::LeftParen)?;
    let (columns, rules) = read_parts(alloc, source, cursor)?;
    expect(source, cursor, TokenKind::RightParen)?;
    expect_word(source, cursor, Keyword::Strict)?;
    Ok(Stmt::CreateTable {
        maybe,
        name,
        columns,
        rules,
    })
}

// INDEX and what follows it.
fn read_create_index(
    alloc: Global,
    source: &Source<'_>,
    cursor: &mut Cursor,
    unique: bool,
) -> Result<Stmt, Stop>
    ensures { Gives source.now result cursor.new (from source.now (create_index unique) cursor.old) }
{
    expect_word(source, cursor, Keyword::Index)?;
    let maybe = read_if_not_exists(source, cursor)?;
    let name = read_name(alloc, source, cursor)?;
    expect_word(source, cursor, Keyword::On)?;
    let table = read_name(alloc, source, cursor)?;
    let columns = read_names(alloc, source, cursor)?;
    Ok(Stmt::CreateIndex {
        unique,
        maybe,
        name,
        table,
        columns,
    })
}

// IF NOT EXISTS or nothing: whether it is there.
fn read_if_not_exists(source: &Source<'_>, cursor: &mut Cursor) -> Result<bool, Stop>
    ensures { Gives source.now result cursor.new (from source.now (if_not_exists) cursor.old) }
{
    if !accept_word(source, cursor, Keyword::If) {
        return Ok(false);
    }
    expect_word(source, cursor, Keyword::Not)?;
    expect_word(source, cursor, Keyword::Exists)?;
    Ok(true)
}

/// DROP.
pub fn read_drop(alloc: Global, source: &Source<'_>, cursor: &mut Cursor) -> Result<Stmt, Stop>
    ensures { Gives source.now result cursor.new (from source.now (drop_statement) cursor.old) }
{
    expect_word(source, cursor, Keyword::Drop)?;
    if accept_word(source, cursor, Keyword::Table) {
        let maybe = read_if_exists(source, cursor)?;
        let name = read_name(alloc, source, cursor)?;
        return Ok(Stmt::DropTable { maybe, name });
    }
    expect_word(source, cursor, Keyword::Index)?;
    let maybe = read_if_exists(source, cursor)?;
    let name = read_name(alloc, source, cursor)?;
    Ok(Stmt::DropIndex { maybe, name })
}

// IF EXISTS or nothing: whether it is there.
fn read_if_exists(source: &Source<'_>, cursor: &mut Cursor) -> Result<bool, Stop>
    ensures { Gives source.now result cursor.new (from source.now (if_exists) cursor.old) }
{
    if !accept_word(source, cursor, Keyword::If) {
        return Ok(false);
    }
    expect_word(source, cursor, Keyword::Exists)?;
    Ok(true)
}
