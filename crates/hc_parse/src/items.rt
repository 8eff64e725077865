// What a query asks for.
ghost use Rattle.std.specs.Prelude.{◌≡◌};
ghost use Rattle.std.specs.List.{list_any};
ghost use Rattle.hc_grammar.specs.Grammar.{Asked, Within};
ghost use Rattle.hc_grammar.specs.Queries.{all_of, wants_from};
ghost use Rattle.hc_grammar.specs.Places.{begins_all_of};
ghost use Rattle.hc_parse.specs.Seen.{left};
ghost use Rattle.hc_parse.specs.Coded.{Gives, from};

use crate::cursor::{Cursor, accept, advance, begins, begins_name, expect};
use crate::expressions::{OPERATORS, read_expression};
use crate::list::Part;
use crate::names::{read_alias, read_name};
use crate::source::Source;
use crate::stop::Stop;
use hc_ast::Item;
use hc_lex::TokenKind;
use std::alloc::Global;

impl Part for Item {
    ghost grammar = { Within Asked };

    fn read(alloc: Global, source: &Source<'_>, cursor: &mut Cursor) -> Result<Item, Stop> {
        if begins_all_of(source, cursor) {
            return read_all_of(alloc, source, cursor);
        }
        if accept(source, cursor, TokenKind::Star) {
            return Ok(Item::All);
        }
        let value = read_expression(alloc, source, cursor)?;
        let alias = read_alias(alloc, source, cursor)?;
        Ok(Item::One { value, alias })
    }
}

// Whether `name.*` is next.
#[tactic(auto, using(crate::proofs::Left::all_of_is))]
fn begins_all_of(source: &Source<'_>, cursor: &Cursor) -> bool
    ensures { result ≡ begins_all_of (left source.now cursor.now) }
{
    if !begins_name(source, cursor) {
        return false;
    }
    let mut ahead = *cursor;
    advance(source, &mut ahead);
    accept(source, &mut ahead, TokenKind::Dot) && begins(source, &ahead, TokenKind::Star)
}

fn read_all_of(alloc: Global, source: &Source<'_>, cursor: &mut Cursor) -> Result<Item, Stop>
    ensures { Gives source.now result cursor.new (from source.now all_of cursor.old) }
{
    cursor.operators = OPERATORS;
    let table = read_name(alloc, source, cursor)?;
    expect(source, cursor, TokenKind::Dot)?;
    expect(source, cursor, TokenKind::Star)?;
    Ok(Item::AllOf(table))
}

/// Whether one of them wants FROM, as `*` does.
pub fn any_wants_from(items: &[Item]) -> bool
    ensures { result ≡ list_any wants_from items.now }
{
    items.iter().any(|item| wants_from(item))
}

fn wants_from(item: &Item) -> bool
    ensures { result ≡ wants_from item.now }
{
    match item {
        Item::All => true,
        Item::AllOf(_) => true,
        Item::One { .. } => false,
    }
}
