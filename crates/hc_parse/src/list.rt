// Lists with commas.
ghost use Rattle.std.specs.Prelude.{◌≡◌, ◌∷◌, [], IfOk};
ghost use Rattle.hc_grammar.specs.Grammar.{Grammar};
ghost use Rattle.hc_grammar.specs.Phrases.{listed};
ghost use Rattle.hc_parse.specs.Coded.{Gives, from};

use crate::cursor::{Cursor, accept, begins};
use crate::source::Source;
use crate::stop::Stop;
use hc_ast::NoMemory;
use hc_lex::TokenKind;
use sqlite_items::Items;
use std::alloc::Global;

/// Something of which a list with commas may be made.
pub trait Part: Drop {
    ghost grammar: { Grammar Self };

    fn read(alloc: Global, source: &Source<'_>, cursor: &mut Cursor) -> Result<Self, Stop>
        ensures { Gives source.now result cursor.new (from source.now grammar cursor.old) };
}

/// A list of one, with room for one more where one follows.
pub fn first_of<T: Drop>(alloc: Global, first: T, is_last: bool) -> Result<Vec<T>, NoMemory>
    ensures { IfOk result (λ list. list.items ≡ first ∷ []) }
{
    let mut list = Vec::with_capacity(alloc, if is_last { 1 } else { 2 })?;
    list.push(first)?;
    Ok(list)
}

/// The whole list, which keeps no room for many more.
pub fn finished<T: Drop>(list: Vec<T>) -> Items<T>
    ensures { result ≡ list.items }
{
    let mut list = list;
    if list.len() > 4 {
        list.shrink_to_fit();
    }
    Items::from_vec(list)
}

/// One or more, with commas between them.
pub fn read_list<P: Part>(
    alloc: Global,
    source: &Source<'_>,
    cursor: &mut Cursor,
) -> Result<Items<P>, Stop>
    ensures { Gives source.now result cursor.new (from source.now (listed P.grammar) cursor.old) }
{
    let first = P::read(alloc, source, cursor)?;
    let mut list = first_of(alloc, first, !begins(source, cursor, TokenKind::Comma))?;
    // Each comma is a token.
    'items: for _ in cursor.at..source.tokens.len() {
        if !accept(source, cursor, TokenKind::Comma) {
            break;
        }
        list.push(P::read(alloc, source, cursor)?)?;
    }
    Ok(finished(list))
}
