// Queries in canonical text.
ghost use Rattle.std.specs.Prelude.{◌≡◌, ◌∷◌, [], ◌++◌, OnOk, string_bytes, map, codes};
ghost use Rattle.hc_ast.specs.Words.{spaced, words_if};
ghost use Rattle.hc_ast.specs.Canonical.{alias_words, by_words, clause_words, from_words, item_words, joined_words, limit_words, order_words, rows_words, select_words, source_words, term_words};

use crate::expression_text::push_expression;
use crate::phrase::{Phrase, push_each, push_list};
use crate::words::{push_integer, push_name, push_word};
use crate::{Expr, FromTable, Item, NoMemory, Select, Term};
use hc_value::Str;
use sqlite_items::Boxed;

fn push_alias(out: &mut String, alias: &Option<Boxed<Str>>) -> Result<(), NoMemory>
    ensures { OnOk result (string_bytes out.new ≡ string_bytes out.old ++ spaced (alias_words alias.now)) }
{
    match alias {
        None => Ok(()),
        Some(alias) => {
            push_word(out, "AS")?;
            push_name(out, alias.get())
        }
    }
}

// A keyword and an expression, where there is one.
pub fn push_clause(out: &mut String, keyword: &str, value: &Option<Expr>) -> Result<(), NoMemory>
    ensures { OnOk result (string_bytes out.new ≡ string_bytes out.old ++ spaced (clause_words keyword.now value.now)) }
{
    match value {
        None => Ok(()),
        Some(value) => {
            push_word(out, keyword)?;
            push_expression(out, value)
        }
    }
}

fn push_limit(out: &mut String, keyword: &str, number: Option<i64>) -> Result<(), NoMemory>
    ensures { OnOk result (string_bytes out.new ≡ string_bytes out.old ++ spaced (limit_words keyword.now number)) }
{
    match number {
        None => Ok(()),
        Some(n) => {
            push_word(out, keyword)?;
            push_integer(out, n)
        }
    }
}

// `GROUP BY` or `ORDER BY`, where there is a list.
fn push_by<P: Phrase>(out: &mut String, keyword: &str, parts: &[P]) -> Result<(), NoMemory>
    ensures { OnOk result (string_bytes out.new
        ≡ string_bytes out.old ++ spaced (by_words keyword.now (map P.words parts.now))) }
{
    if parts.is_empty() {
        return Ok(());
    }
    push_word(out, keyword)?;
    push_word(out, "BY")?;
    push_list(out, parts)
}

impl Phrase for Item {
    ghost words = { item_words };

    fn push(&self, out: &mut String) -> Result<(), NoMemory> {
        match self {
            Item::All => push_word(out, "*"),
            Item::AllOf(table) => {
                push_name(out, table)?;
                push_word(out, ".")?;
                push_word(out, "*")
            }
            Item::One { value, alias } => {
                push_expression(out, value)?;
                push_alias(out, alias)
            }
        }
    }
}

impl Phrase for Term {
    ghost words = { term_words };

    fn push(&self, out: &mut String) -> Result<(), NoMemory> {
        push_expression(out, &self.value)?;
        if self.desc {
            push_word(out, "DESC")
        } else {
            push_word(out, "ASC")
        }
    }
}

fn push_source(out: &mut String, table: &FromTable) -> Result<(), NoMemory>
    ensures { OnOk result (string_bytes out.new ≡ string_bytes out.old ++ spaced (source_words table.now)) }
{
    push_name(out, &table.name)?;
    push_alias(out, &table.alias)
}

// A table after another one.
impl Phrase for FromTable {
    ghost words = { joined_words };

    fn push(&self, out: &mut String) -> Result<(), NoMemory> {
        if self.joined {
            push_word(out, "JOIN")?;
        } else {
            push_word(out, ",")?;
        }
        push_source(out, self)?;
        push_clause(out, "ON", &self.on)
    }
}

fn push_from(out: &mut String, tables: &[FromTable]) -> Result<(), NoMemory>
    ensures { OnOk result (string_bytes out.new ≡ string_bytes out.old ++ spaced (from_words tables.now)) }
{
    let Some((first, others)) = tables.split_first() else {
        return Ok(());
    };
    push_word(out, "FROM")?;
    push_source(out, first)?;
    push_each(out, others)
}

fn push_distinct(out: &mut String, distinct: bool) -> Result<(), NoMemory>
    ensures { OnOk result (string_bytes out.new
        ≡ string_bytes out.old ++ spaced (words_if distinct (codes "DISTINCT" ∷ []))) }
{
    if distinct {
        push_word(out, "DISTINCT")
    } else {
        Ok(())
    }
}

fn push_rows(out: &mut String, query: &Select) -> Result<(), NoMemory>
    ensures { OnOk result (string_bytes out.new ≡ string_bytes out.old ++ spaced (rows_words query.now)) }
{
    push_distinct(out, query.distinct)?;
    push_list(out, query.items.as_slice())?;
    push_from(out, query.tables.as_slice())?;
    push_clause(out, "WHERE", &query.filter)
}

fn push_order(out: &mut String, query: &Select) -> Result<(), NoMemory>
    ensures { OnOk result (string_bytes out.new ≡ string_bytes out.old ++ spaced (order_words query.now)) }
{
    push_by(out, "GROUP", query.groups.as_slice())?;
    push_clause(out, "HAVING", &query.having)?;
    push_by(out, "ORDER", query.order.as_slice())?;
    push_limit(out, "LIMIT", query.limit)?;
    push_limit(out, "OFFSET", query.offset)
}

pub fn push_select(out: &mut String, query: &Select) -> Result<(), NoMemory>
    ensures { OnOk result (string_bytes out.new ≡ string_bytes out.old ++ spaced (select_words query.now)) }
{
    push_rows(out, query)?;
    push_order(out, query)
}
