// Statements in canonical text.
ghost use Rattle.std.specs.Prelude.{◌≡◌, ◌∷◌, [], ◌++◌, IfOk, OnOk, string_bytes, map, codes};
ghost use Rattle.std.specs.List.{flat_map};
ghost use Rattle.hc_ast.specs.Words.{spaced, words_if, enclosed, listed, name_list, name_word};
ghost use Rattle.hc_ast.specs.Canonical.{assign_words, canonical, column_rule_words, column_words, columns_words, first_word, if_exists, if_not_exists, key_rule_words, other_words, row_words, type_word};

use crate::expression_text::push_expression;
use crate::phrase::{Phrase, push_each, push_list, push_others};
use crate::query_text::{push_clause, push_select};
use crate::words::{push_name, push_word};
use crate::{Assign, ColumnDef, ColumnRule, ExprRow, KeyRule, NoMemory, Stmt};
use hc_value::{Class, Str};
use sqlite_items::Items;
use std::alloc::Global;

/// The canonical text of a statement: keywords in upper case, each name in `"`, each expression with an
/// operator in parentheses, and one space between two words. Words that may be left out are left out, but
/// `AS` and `ASC`.
pub fn print(alloc: Global, stmt: &Stmt) -> Result<Str, NoMemory>
    ensures { IfOk result (λ text. text ≡ canonical stmt.now) }
{
    let mut out = String::from_str(alloc, first_of(stmt))?;
    push_rest(&mut out, stmt)?;
    Ok(Str::from_string(out))
}

fn first_of(stmt: &Stmt) -> &'static str
    ensures { result.now ≡ first_word stmt.now }
{
    match stmt {
        Stmt::Select(_) => "SELECT",
        Stmt::Insert { .. } => "INSERT",
        Stmt::Update { .. } => "UPDATE",
        Stmt::Delete { .. } => "DELETE",
        Stmt::CreateTable { .. } | Stmt::CreateIndex { .. } => "CREATE",
        Stmt::DropTable { .. } | Stmt::DropIndex { .. } => "DROP",
        Stmt::Begin => "BEGIN",
        Stmt::Commit => "COMMIT",
        Stmt::Rollback | Stmt::RollbackTo(_) => "ROLLBACK",
        Stmt::Savepoint(_) => "SAVEPOINT",
        Stmt::Release(_) => "RELEASE",
    }
}

fn push_rest(out: &mut String, stmt: &Stmt) -> Result<(), NoMemory>
    ensures { OnOk result (string_bytes out.new ≡ string_bytes out.old ++ spaced (other_words stmt.now)) }
{
    match stmt {
        Stmt::Select(query) => push_select(out, query),
        Stmt::Insert {
            table,
            columns,
            rows,
        } => {
            push_after(out, "INTO", table)?;
            push_columns(out, columns)?;
            push_word(out, "VALUES")?;
            push_list(out, rows.as_slice())
        }
        Stmt::Update {
            table,
            sets,
            filter,
        } => {
            push_name(out, table)?;
            push_word(out, "SET")?;
            push_list(out, sets.as_slice())?;
            push_clause(out, "WHERE", filter)
        }
        Stmt::Delete { table, filter } => {
            push_after(out, "FROM", table)?;
            push_clause(out, "WHERE", filter)
        }
        Stmt::CreateTable {
            maybe,
            name,
            columns,
            rules,
        } => {
            push_word(out, "TABLE")?;
            push_if_not_exists(out, *maybe)?;
            push_name(out, name)?;
            push_definitions(out, columns.as_slice(), rules.as_slice())?;
            push_word(out, "STRICT")
        }
        Stmt::CreateIndex {
            unique,
            maybe,
            name,
            table,
            columns,
        } => {
            push_unique(out, *unique)?;
            push_word(out, "INDEX")?;
            push_if_not_exists(out, *maybe)?;
            push_name(out, name)?;
            push_after(out, "ON", table)?;
            push_names(out, columns.as_slice())
        }
        Stmt::DropTable { maybe, name } => {
            push_word(out, "TABLE")?;
            push_if_exists(out, *maybe)?;
            push_name(out, name)
        }
        Stmt::DropIndex { maybe, name } => {
            push_word(out, "INDEX")?;
            push_if_exists(out, *maybe)?;
            push_name(out, name)
        }
        Stmt::Begin | Stmt::Commit | Stmt::Rollback => Ok(()),
        Stmt::RollbackTo(name) => push_after(out, "TO", name),
        Stmt::Savepoint(name) | Stmt::Release(name) => push_name(out, name),
    }
}

// A keyword and a name.
fn push_after(out: &mut String, keyword: &str, name: &Str) -> Result<(), NoMemory>
    ensures { OnOk result (string_bytes out.new
        ≡ string_bytes out.old ++ spaced (keyword.now ∷ name_word name.now ∷ [])) }
{
    push_word(out, keyword)?;
    push_name(out, name)
}

fn push_names(out: &mut String, names: &[Str]) -> Result<(), NoMemory>
    ensures { OnOk result (string_bytes out.new ≡ string_bytes out.old ++ spaced (name_list names.now)) }
{
    push_word(out, "(")?;
    push_list(out, names)?;
    push_word(out, ")")
}

fn push_columns(out: &mut String, columns: &Option<Items<Str>>) -> Result<(), NoMemory>
    ensures { OnOk result (string_bytes out.new ≡ string_bytes out.old ++ spaced (columns_words columns.now)) }
{
    match columns {
        None => Ok(()),
        Some(names) => push_names(out, names.as_slice()),
    }
}

fn push_if_not_exists(out: &mut String, maybe: bool) -> Result<(), NoMemory>
    ensures { OnOk result (string_bytes out.new ≡ string_bytes out.old ++ spaced (if_not_exists maybe)) }
{
    if !maybe {
        return Ok(());
    }
    push_word(out, "IF")?;
    push_word(out, "NOT")?;
    push_word(out, "EXISTS")
}

fn push_if_exists(out: &mut String, maybe: bool) -> Result<(), NoMemory>
    ensures { OnOk result (string_bytes out.new ≡ string_bytes out.old ++ spaced (if_exists maybe)) }
{
    if !maybe {
        return Ok(());
    }
    push_word(out, "IF")?;
    push_word(out, "EXISTS")
}

fn push_unique(out: &mut String, unique: bool) -> Result<(), NoMemory>
    ensures { OnOk result (string_bytes out.new
        ≡ string_bytes out.old ++ spaced (words_if unique (codes "UNIQUE" ∷ []))) }
{
    if unique {
        push_word(out, "UNIQUE")
    } else {
        Ok(())
    }
}

// A new table's columns and rules.
fn push_definitions(
    out: &mut String,
    columns: &[ColumnDef],
    rules: &[KeyRule],
) -> Result<(), NoMemory>
    ensures { OnOk result (string_bytes out.new ≡ string_bytes out.old
        ++ spaced (enclosed (listed (map column_words columns.now)
        ++ flat_map (λ rule. codes "," ∷ key_rule_words rule) rules.now))) }
{
    push_word(out, "(")?;
    push_list(out, columns)?;
    push_others(out, rules)?;
    push_word(out, ")")
}

impl Phrase for ExprRow {
    ghost words = { row_words };

    fn push(&self, out: &mut String) -> Result<(), NoMemory> {
        push_word(out, "(")?;
        push_list(out, self.values.as_slice())?;
        push_word(out, ")")
    }
}

impl Phrase for Assign {
    ghost words = { assign_words };

    fn push(&self, out: &mut String) -> Result<(), NoMemory> {
        push_name(out, &self.column)?;
        push_word(out, "=")?;
        push_expression(out, &self.value)
    }
}

impl Phrase for ColumnDef {
    ghost words = { column_words };

    fn push(&self, out: &mut String) -> Result<(), NoMemory> {
        push_name(out, &self.name)?;
        push_word(out, type_of(self.class))?;
        push_each(out, self.rules.as_slice())
    }
}

fn type_of(class: Class) -> &'static str
    ensures { result.now ≡ type_word class }
{
    match class {
        Class::Int => "INTEGER",
        Class::Text => "TEXT",
        Class::Blob => "BLOB",
        Class::Null => "NULL",
    }
}

impl Phrase for ColumnRule {
    ghost words = { column_rule_words };

    fn push(&self, out: &mut String) -> Result<(), NoMemory> {
        match self {
            ColumnRule::PrimaryKey => push_primary_key(out),
            ColumnRule::NotNull => {
                push_word(out, "NOT")?;
                push_word(out, "NULL")
            }
            ColumnRule::Unique => push_word(out, "UNIQUE"),
        }
    }
}

fn push_primary_key(out: &mut String) -> Result<(), NoMemory>
    ensures { OnOk result (string_bytes out.new
        ≡ string_bytes out.old ++ spaced (codes "PRIMARY" ∷ codes "KEY" ∷ [])) }
{
    push_word(out, "PRIMARY")?;
    push_word(out, "KEY")
}

impl Phrase for KeyRule {
    ghost words = { key_rule_words };

    fn push(&self, out: &mut String) -> Result<(), NoMemory> {
        if self.primary {
            push_primary_key(out)?;
        } else {
            push_word(out, "UNIQUE")?;
        }
        push_names(out, self.columns.as_slice())
    }
}
