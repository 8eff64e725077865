// The columns of a new table, and the rules after them.
ghost use Rattle.std.specs.Prelude.{◌≡◌, ◌∷◌, [], true, false};
ghost use Rattle.hc_grammar.specs.Grammar.{Chain, Choice, Nothing};
ghost use Rattle.hc_grammar.specs.Phrases.{after_words, pushed};
ghost use Rattle.hc_grammar.specs.Statements.{column, column_rule, column_type, key_rule, parts, with_part};
ghost use Rattle.hc_grammar.specs.First.{first};
ghost use Rattle.hc_grammar.specs.Kinds.{among, head_is};
ghost use Rattle.hc_grammar.specs.Runs.{made};
ghost use Rattle.hc_parse.specs.Coded.{Gives, from, part_after};
ghost use Rattle.hc_parse.specs.Seen.{left, budget_of};

use crate::cursor::{Cursor, accept, accept_word, begins, begins_name, begins_word, expect_word};
use crate::list::{finished, first_of};
use crate::names::read_name;
use crate::parts::read_names;
use crate::source::Source;
use crate::stop::Stop;
use hc_ast::{ColumnDef, ColumnRule, KeyRule};
use hc_lex::{Keyword, TokenKind};
use hc_value::Class;
use sqlite_items::Items;
use std::alloc::Global;

/// What a new table has: its columns, and the rules after them.
pub type Parts = (Items<ColumnDef>, Items<KeyRule>);

/// The columns of a table, and then its rules.
pub fn read_parts(alloc: Global, source: &Source<'_>, cursor: &mut Cursor) -> Result<Parts, Stop>
    ensures { Gives source.now result cursor.new (from source.now parts cursor.old) }
{
    let first = read_column(alloc, source, cursor)?;
    let columns = first_of(alloc, first, !begins(source, cursor, TokenKind::Comma))?;
    let mut parts = (Items::from_vec(columns), Items::new(alloc));
    // Each comma is a token.
    'parts: for _ in cursor.at..source.tokens.len() {
        if !accept(source, cursor, TokenKind::Comma) {
            break;
        }
        parts = read_part(alloc, source, cursor, parts)?;
    }
    Ok(parts)
}

// A column or a rule more. All columns come before all rules.
fn read_part(
    alloc: Global,
    source: &Source<'_>,
    cursor: &mut Cursor,
    parts: Parts,
) -> Result<Parts, Stop>
    ensures { Gives source.now result cursor.new (made (with_part parts) (part_after parts (budget_of cursor.old) (left source.now cursor.old))) }
{
    let (mut columns, mut rules) = parts;
    if rules.is_empty() && begins_name(source, cursor) {
        columns.push(read_column(alloc, source, cursor)?)?;
    } else {
        rules.push(read_key_rule(alloc, source, cursor)?)?;
    }
    Ok((columns, rules))
}

fn read_column(alloc: Global, source: &Source<'_>, cursor: &mut Cursor) -> Result<ColumnDef, Stop>
    ensures { Gives source.now result cursor.new (from source.now (column) cursor.old) }
{
    let name = read_name(alloc, source, cursor)?;
    let class = read_class(source, cursor)?;
    let rules = read_rules(alloc, source, cursor)?;
    Ok(ColumnDef { name, class, rules })
}

// A column's type.
fn read_class(source: &Source<'_>, cursor: &mut Cursor) -> Result<Class, Stop>
    ensures { Gives source.now result cursor.new (from source.now (column_type) cursor.old) }
{
    if accept_word(source, cursor, Keyword::Integer) {
        return Ok(Class::Int);
    }
    if accept_word(source, cursor, Keyword::Text) {
        return Ok(Class::Text);
    }
    expect_word(source, cursor, Keyword::Blob)?;
    Ok(Class::Blob)
}

fn read_rules(
    alloc: Global,
    source: &Source<'_>,
    cursor: &mut Cursor,
) -> Result<Items<ColumnRule>, Stop>
    ensures { Gives source.now result cursor.new (from source.now (Chain (Nothing []) column_rule pushed) cursor.old) }
{
    let mut rules = Vec::new(alloc);
    // Each rule is a token at least.
    'rules: for _ in cursor.at..source.tokens.len() {
        if !begins_rule(source, cursor) {
            break;
        }
        rules.push(read_rule(source, cursor)?)?;
    }
    Ok(finished(rules))
}

// Whether a column's rule is next.
#[tactic(auto, using(crate::proofs::Left::among_more, crate::proofs::Left::among_one))]
fn begins_rule(source: &Source<'_>, cursor: &Cursor) -> bool
    ensures { result ≡ head_is (among (first column_rule)) (left source.now cursor.now) }
{
    begins_word(source, cursor, Keyword::Primary)
        || begins_word(source, cursor, Keyword::Not)
        || begins_word(source, cursor, Keyword::Unique)
}

fn read_rule(source: &Source<'_>, cursor: &mut Cursor) -> Result<ColumnRule, Stop>
    ensures { Gives source.now result cursor.new (from source.now (column_rule) cursor.old) }
{
    if accept_word(source, cursor, Keyword::Primary) {
        expect_word(source, cursor, Keyword::Key)?;
        return Ok(ColumnRule::PrimaryKey);
    }
    if accept_word(source, cursor, Keyword::Not) {
        expect_word(source, cursor, Keyword::Null)?;
        return Ok(ColumnRule::NotNull);
    }
    expect_word(source, cursor, Keyword::Unique)?;
    Ok(ColumnRule::Unique)
}

// A rule of the table, with the columns that it names.
fn read_key_rule(alloc: Global, source: &Source<'_>, cursor: &mut Cursor) -> Result<KeyRule, Stop>
    ensures { Gives source.now result cursor.new (from source.now (key_rule) cursor.old) }
{
    let primary = read_key_words(source, cursor)?;
    let columns = read_names(alloc, source, cursor)?;
    Ok(KeyRule { primary, columns })
}

// PRIMARY KEY or UNIQUE: whether it is the first.
fn read_key_words(source: &Source<'_>, cursor: &mut Cursor) -> Result<bool, Stop>
    ensures { Gives source.now result cursor.new (from source.now (Choice (after_words (Keyword.Primary ∷ Keyword.Key ∷ []) (Nothing true)) (after_words (Keyword.Unique ∷ []) (Nothing false))) cursor.old) }
{
    if accept_word(source, cursor, Keyword::Primary) {
        expect_word(source, cursor, Keyword::Key)?;
        return Ok(true);
    }
    expect_word(source, cursor, Keyword::Unique)?;
    Ok(false)
}
