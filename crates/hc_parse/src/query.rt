// Queries.
ghost use Rattle.std.specs.Prelude.{◌∷◌, []};
ghost use Rattle.hc_ast.specs.declared.statement.Stmt.TheVariants as stmt;
ghost use Rattle.hc_grammar.specs.Grammar.{Made};
ghost use Rattle.hc_grammar.specs.Phrases.{after_words, flag, maybe};
ghost use Rattle.hc_grammar.specs.Queries.{grouping, integer, limiting, ordering, query, rows};
ghost use Rattle.hc_parse.specs.Coded.{Gives, from};

use crate::cursor::{Cursor, accept_word, expect_word};
use crate::expressions::read_expression;
use crate::items::any_wants_from;
use crate::list::{Part, read_list};
use crate::names::{read_direction, read_integer};
use crate::parts::read_clause;
use crate::source::Source;
use crate::stop::Stop;
use crate::tables::read_from;
use hc_ast::{Expr, FromTable, Item, Select, Stmt, Term};
use hc_lex::Keyword;
use sqlite_items::Items;
use std::alloc::Global;

/// SELECT.
pub fn read_select(alloc: Global, source: &Source<'_>, cursor: &mut Cursor) -> Result<Stmt, Stop>
    ensures { Gives source.now result cursor.new (from source.now (after_words (Keyword.Select ∷ []) (Made stmt.Select query)) cursor.old) }
{
    expect_word(source, cursor, Keyword::Select)?;
    let query = read_query(alloc, source, cursor)?;
    Ok(Stmt::Select(query))
}

// What follows SELECT.
fn read_query(alloc: Global, source: &Source<'_>, cursor: &mut Cursor) -> Result<Select, Stop>
    ensures { Gives source.now result cursor.new (from source.now (query) cursor.old) }
{
    let distinct = read_distinct(source, cursor);
    let (items, tables) = read_rows(alloc, source, cursor)?;
    let filter = read_clause(alloc, source, cursor, Keyword::Where)?;
    let (groups, having) = read_grouping(alloc, source, cursor)?;
    let order = read_ordering(alloc, source, cursor)?;
    let (limit, offset) = read_limiting(source, cursor)?;
    Ok(Select {
        distinct,
        items,
        tables,
        filter,
        groups,
        having,
        order,
        limit,
        offset,
    })
}

// DISTINCT or nothing: whether it is there.
fn read_distinct(source: &Source<'_>, cursor: &mut Cursor) -> bool
    ensures { Gives source.now (Ok result) cursor.new (from source.now (flag (Keyword.Distinct ∷ [])) cursor.old) }
{
    accept_word(source, cursor, Keyword::Distinct)
}

// What is asked for, and the tables of FROM.
type Rows = (Items<Item>, Items<FromTable>);

fn read_rows(alloc: Global, source: &Source<'_>, cursor: &mut Cursor) -> Result<Rows, Stop>
    ensures { Gives source.now result cursor.new (from source.now rows cursor.old) }
{
    let items = read_list(alloc, source, cursor)?;
    let is_needed = any_wants_from(items.as_slice());
    let tables = read_from(alloc, source, cursor, is_needed)?;
    Ok((items, tables))
}

// GROUP BY's expressions, and HAVING's condition.
type Groups = (Items<Expr>, Option<Expr>);

// The numbers of LIMIT and OFFSET.
type Bounds = (Option<i64>, Option<i64>);

// GROUP BY with its expressions, and HAVING where it follows.
fn read_grouping(alloc: Global, source: &Source<'_>, cursor: &mut Cursor) -> Result<Groups, Stop>
    ensures { Gives source.now result cursor.new (from source.now (grouping) cursor.old) }
{
    if !accept_word(source, cursor, Keyword::Group) {
        return Ok((Items::new(alloc), None));
    }
    expect_word(source, cursor, Keyword::By)?;
    let groups = read_list(alloc, source, cursor)?;
    let having = read_clause(alloc, source, cursor, Keyword::Having)?;
    Ok((groups, having))
}

fn read_ordering(
    alloc: Global,
    source: &Source<'_>,
    cursor: &mut Cursor,
) -> Result<Items<Term>, Stop>
    ensures { Gives source.now result cursor.new (from source.now (ordering) cursor.old) }
{
    if !accept_word(source, cursor, Keyword::Order) {
        return Ok(Items::new(alloc));
    }
    expect_word(source, cursor, Keyword::By)?;
    read_list(alloc, source, cursor)
}

// LIMIT with its number, and OFFSET where it follows.
fn read_limiting(source: &Source<'_>, cursor: &mut Cursor) -> Result<Bounds, Stop>
    ensures { Gives source.now result cursor.new (from source.now (limiting) cursor.old) }
{
    if !accept_word(source, cursor, Keyword::Limit) {
        return Ok((None, None));
    }
    let limit = Some(read_integer(source, cursor)?);
    let offset = read_offset(source, cursor)?;
    Ok((limit, offset))
}

fn read_offset(source: &Source<'_>, cursor: &mut Cursor) -> Result<Option<i64>, Stop>
    ensures { Gives source.now result cursor.new (from source.now (maybe (after_words (Keyword.Offset ∷ []) integer)) cursor.old) }
{
    if !accept_word(source, cursor, Keyword::Offset) {
        return Ok(None);
    }
    Ok(Some(read_integer(source, cursor)?))
}

impl Part for Term {
    ghost use Rattle.hc_grammar.specs.Queries.{term};

    ghost grammar = { term };

    fn read(alloc: Global, source: &Source<'_>, cursor: &mut Cursor) -> Result<Term, Stop> {
        let value = read_expression(alloc, source, cursor)?;
        let desc = read_direction(source, cursor)?;
        Ok(Term { value, desc })
    }
}
