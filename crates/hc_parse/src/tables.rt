// The tables of FROM.
ghost use Rattle.std.specs.Prelude.{◌≡◌, [], None, false, if◌then◌else◌};
ghost use Rattle.hc_grammar.specs.Grammar.{Choice, Made, Nothing, One};
ghost use Rattle.hc_grammar.specs.First.{first};
ghost use Rattle.hc_grammar.specs.Kinds.{among, head_is};
ghost use Rattle.hc_grammar.specs.Marks.{Table};
ghost use Rattle.hc_grammar.specs.Queries.{join, joined, source as table_source, tables};
ghost use Rattle.hc_grammar.specs.Terminals.{Name};
ghost use Rattle.hc_parse.specs.Coded.{ChargesTable, Gives, from};
ghost use Rattle.hc_parse.specs.Seen.{left};

use crate::cursor::{
    Cursor, accept, accept_word, advance, begins, begins_word, expect_word, next_piece,
};
use crate::lexeme::name_of;
use crate::list::{finished, first_of};
use crate::names::read_alias;
use crate::parts::read_clause;
use crate::source::Source;
use crate::stop::Stop;
use hc_ast::FromTable;
use hc_lex::{Keyword, TokenKind};
use hc_value::Str;
use sqlite_items::Items;
use std::alloc::Global;

/// FROM with its tables, or nothing where it isn't needed.
pub fn read_from(
    alloc: Global,
    source: &Source<'_>,
    cursor: &mut Cursor,
    is_needed: bool,
) -> Result<Items<FromTable>, Stop>
    ensures { Gives source.now result cursor.new (if is_needed then from source.now tables cursor.old else from source.now (Choice tables (Nothing [])) cursor.old) }
{
    if begins_word(source, cursor, Keyword::From) || is_needed {
        return read_tables(alloc, source, cursor);
    }
    Ok(Items::new(alloc))
}

fn read_tables(
    alloc: Global,
    source: &Source<'_>,
    cursor: &mut Cursor,
) -> Result<Items<FromTable>, Stop>
    ensures { Gives source.now result cursor.new (from source.now tables cursor.old) }
{
    expect_word(source, cursor, Keyword::From)?;
    let name = read_table_name(alloc, source, cursor)?;
    let alias = read_alias(alloc, source, cursor)?;
    let first = FromTable {
        name,
        alias,
        joined: false,
        on: None,
    };
    let mut tables = first_of(alloc, first, !begins_joint(source, cursor))?;
    // What joins a table to those before it is a token at least.
    'tables: for _ in cursor.at..source.tokens.len() {
        if !begins_joint(source, cursor) {
            break;
        }
        tables.push(read_next(alloc, source, cursor)?)?;
    }
    Ok(finished(tables))
}

// Whether what joins a table to those before it is next.
#[tactic(auto, using(crate::proofs::Left::among_more, crate::proofs::Left::among_one))]
fn begins_joint(source: &Source<'_>, cursor: &Cursor) -> bool
    ensures { result ≡ head_is (among (first joined)) (left source.now cursor.now) }
{
    begins(source, cursor, TokenKind::Comma)
        || begins_word(source, cursor, Keyword::Inner)
        || begins_word(source, cursor, Keyword::Cross)
        || begins_word(source, cursor, Keyword::Join)
}

// A table after another one, with what joins it to them.
fn read_next(alloc: Global, source: &Source<'_>, cursor: &mut Cursor) -> Result<FromTable, Stop>
    ensures { Gives source.now result cursor.new (from source.now joined cursor.old) }
{
    if accept(source, cursor, TokenKind::Comma) {
        return read_table(alloc, source, cursor);
    }
    read_join(source, cursor)?;
    let name = read_table_name(alloc, source, cursor)?;
    let alias = read_alias(alloc, source, cursor)?;
    let on = read_clause(alloc, source, cursor, Keyword::On)?;
    Ok(FromTable {
        name,
        alias,
        joined: true,
        on,
    })
}

// JOIN, with INNER or CROSS before it or without.
fn read_join(source: &Source<'_>, cursor: &mut Cursor) -> Result<bool, Stop>
    ensures { Gives source.now result cursor.new (from source.now join cursor.old) }
{
    if !accept_word(source, cursor, Keyword::Inner) {
        let _ = accept_word(source, cursor, Keyword::Cross);
    }
    expect_word(source, cursor, Keyword::Join)?;
    Ok(true)
}

// A table that no JOIN comes before.
fn read_table(alloc: Global, source: &Source<'_>, cursor: &mut Cursor) -> Result<FromTable, Stop>
    ensures { Gives source.now result cursor.new (from source.now (Made (λ table. table None) (table_source false)) cursor.old) }
{
    let name = read_table_name(alloc, source, cursor)?;
    let alias = read_alias(alloc, source, cursor)?;
    Ok(FromTable {
        name,
        alias,
        joined: false,
        on: None,
    })
}

// The name of a table, which is taken from those that may still come.
fn read_table_name(alloc: Global, source: &Source<'_>, cursor: &mut Cursor) -> Result<Str, Stop>
    ensures { Gives source.now result cursor.new (from source.now (One Table Name) cursor.old) }
{
    let Some(piece) = next_piece(source, cursor) else {
        return Err(Stop::Unexpected);
    };
    let Some(name) = name_of(alloc, &piece)? else {
        return Err(Stop::Unexpected);
    };
    charge_table(cursor)?;
    advance(source, cursor);
    Ok(name)
}

fn charge_table(cursor: &mut Cursor) -> Result<(), Stop>
    ensures { ChargesTable cursor.old cursor.new result }
{
    if cursor.tables == 0 {
        return Err(Stop::Unexpected);
    }
    cursor.tables -= 1;
    Ok(())
}
