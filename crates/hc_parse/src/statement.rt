// Statements, by their first word.
ghost use Rattle.hc_grammar.specs.Grammar.{Choice};
ghost use Rattle.hc_grammar.specs.Statements.{begin, commit, release, rollback, savepoint, statement};
ghost use Rattle.hc_parse.specs.Coded.{Gives, from};

use crate::changes::{read_delete, read_insert, read_update};
use crate::cursor::{Cursor, begins_word};
use crate::query::read_select;
use crate::schema::{read_create, read_drop};
use crate::source::Source;
use crate::stop::Stop;
use crate::transactions::{read_begin, read_commit, read_release, read_rollback, read_savepoint};
use hc_ast::Stmt;
use hc_lex::Keyword;
use std::alloc::Global;

/// A statement.
pub fn read_statement(alloc: Global, source: &Source<'_>, cursor: &mut Cursor) -> Result<Stmt, Stop>
    ensures { Gives source.now result cursor.new (from source.now statement cursor.old) }
{
    if begins_word(source, cursor, Keyword::Select) {
        return read_select(alloc, source, cursor);
    }
    if begins_word(source, cursor, Keyword::Insert) {
        return read_insert(alloc, source, cursor);
    }
    if begins_word(source, cursor, Keyword::Update) {
        return read_update(alloc, source, cursor);
    }
    if begins_word(source, cursor, Keyword::Delete) {
        return read_delete(alloc, source, cursor);
    }
    if begins_word(source, cursor, Keyword::Create) {
        return read_create(alloc, source, cursor);
    }
    if begins_word(source, cursor, Keyword::Drop) {
        return read_drop(alloc, source, cursor);
    }
    read_transaction(alloc, source, cursor)
}

// A statement on transactions or savepoints.
fn read_transaction(alloc: Global, source: &Source<'_>, cursor: &mut Cursor) -> Result<Stmt, Stop>
    ensures { Gives source.now result cursor.new (from source.now (Choice begin (Choice commit (Choice rollback (Choice savepoint release)))) cursor.old) }
{
    if begins_word(source, cursor, Keyword::Begin) {
        return read_begin(source, cursor);
    }
    if begins_word(source, cursor, Keyword::Commit) || begins_word(source, cursor, Keyword::End) {
        return read_commit(source, cursor);
    }
    if begins_word(source, cursor, Keyword::Rollback) {
        return read_rollback(alloc, source, cursor);
    }
    if begins_word(source, cursor, Keyword::Savepoint) {
        return read_savepoint(alloc, source, cursor);
    }
    read_release(alloc, source, cursor)
}
