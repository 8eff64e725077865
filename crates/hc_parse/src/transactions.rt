// Statements on transactions and savepoints.
ghost use Rattle.hc_grammar.specs.Statements.{begin, commit, release, rollback, savepoint, savepoint_name};
ghost use Rattle.hc_parse.specs.Coded.{Gives, from};

use crate::cursor::{Cursor, accept_word, expect_word};
use crate::names::read_name;
use crate::source::Source;
use crate::stop::Stop;
use hc_ast::Stmt;
use hc_lex::Keyword;
use hc_value::Str;
use std::alloc::Global;

/// BEGIN with its words.
pub fn read_begin(source: &Source<'_>, cursor: &mut Cursor) -> Result<Stmt, Stop>
    ensures { Gives source.now result cursor.new (from source.now begin cursor.old) }
{
    expect_word(source, cursor, Keyword::Begin)?;
    if !accept_word(source, cursor, Keyword::Deferred) {
        let _ = accept_word(source, cursor, Keyword::Concurrent);
    }
    let _ = accept_word(source, cursor, Keyword::Transaction);
    Ok(Stmt::Begin)
}

/// COMMIT, or END.
pub fn read_commit(source: &Source<'_>, cursor: &mut Cursor) -> Result<Stmt, Stop>
    ensures { Gives source.now result cursor.new (from source.now commit cursor.old) }
{
    if !accept_word(source, cursor, Keyword::Commit) {
        expect_word(source, cursor, Keyword::End)?;
    }
    let _ = accept_word(source, cursor, Keyword::Transaction);
    Ok(Stmt::Commit)
}

/// ROLLBACK, or ROLLBACK TO a savepoint.
pub fn read_rollback(alloc: Global, source: &Source<'_>, cursor: &mut Cursor) -> Result<Stmt, Stop>
    ensures { Gives source.now result cursor.new (from source.now rollback cursor.old) }
{
    expect_word(source, cursor, Keyword::Rollback)?;
    let _ = accept_word(source, cursor, Keyword::Transaction);
    if !accept_word(source, cursor, Keyword::To) {
        return Ok(Stmt::Rollback);
    }
    let name = read_savepoint_name(alloc, source, cursor)?;
    Ok(Stmt::RollbackTo(name))
}

/// SAVEPOINT.
pub fn read_savepoint(alloc: Global, source: &Source<'_>, cursor: &mut Cursor) -> Result<Stmt, Stop>
    ensures { Gives source.now result cursor.new (from source.now savepoint cursor.old) }
{
    expect_word(source, cursor, Keyword::Savepoint)?;
    let name = read_name(alloc, source, cursor)?;
    Ok(Stmt::Savepoint(name))
}

/// RELEASE.
pub fn read_release(alloc: Global, source: &Source<'_>, cursor: &mut Cursor) -> Result<Stmt, Stop>
    ensures { Gives source.now result cursor.new (from source.now release cursor.old) }
{
    expect_word(source, cursor, Keyword::Release)?;
    let name = read_savepoint_name(alloc, source, cursor)?;
    Ok(Stmt::Release(name))
}

// A savepoint's name, before which SAVEPOINT may come.
fn read_savepoint_name(alloc: Global, source: &Source<'_>, cursor: &mut Cursor) -> Result<Str, Stop>
    ensures { Gives source.now result cursor.new (from source.now savepoint_name cursor.old) }
{
    let _ = accept_word(source, cursor, Keyword::Savepoint);
    read_name(alloc, source, cursor)
}
