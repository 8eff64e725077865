// Statements with their bound forms and faults.
use crate::cases::{CHANGES, CONDITIONS, FAULTS, OPERATORS, WRITES};
use crate::query_cases::{NAMES, ORDERS, QUERY_CONDITIONS};
use crate::shown::push_statement;
use hc_ast::Stmt;
use hc_bind::bind_ungrouped;
use hc_lex::tokens;
use hc_parse::parse;
use hc_schema::{Column, Table};
use hc_value::{Class, NoMemory, Str};
use sqlite_items::Items;
use std::alloc::Global;
use std::process::Abort;
use std::test::Fail;

fn table(
    alloc: Global,
    name: &str,
    alias: Option<u32>,
    columns: &[(&'static str, Class)],
) -> Result<Table, NoMemory> {
    let mut list = Items::new(alloc);
    for (column, class) in columns {
        list.push(Column {
            name: Str::from_text(alloc, column)?,
            class: *class,
            not_null: false,
        })?;
    }
    Ok(Table {
        name: Str::from_text(alloc, name)?,
        tree: 1,
        columns: list,
        alias,
        indexes: Items::new(alloc),
    })
}

fn tables(alloc: Global) -> Result<[Table; 3], NoMemory> {
    Ok([
        table(
            alloc,
            "t",
            Some(0),
            &[
                ("id", Class::Int),
                ("v", Class::Int),
                ("s", Class::Text),
                ("b", Class::Blob),
            ],
        )?,
        table(
            alloc,
            "u",
            Some(0),
            &[("id", Class::Int), ("v", Class::Int), ("w", Class::Text)],
        )?,
        table(
            alloc,
            "k",
            None,
            &[("a", Class::Text), ("order", Class::Int)],
        )?,
    ])
}

fn shown(alloc: Global, s: &Stmt) -> Result<String, Fail> {
    let tables = tables(alloc)?;
    let mut out = String::new(alloc);
    match bind_ungrouped(alloc, s, &tables) {
        Ok(Some(b)) => push_statement(&mut out, &b)?,
        Ok(None) => out.push_str("a query with groups")?,
        Err(fault) => write!(out, "{fault}")?,
    }
    Ok(out)
}

// What binding says of a text.
fn bound(alloc: Global, text: &str) -> Result<String, Fail> {
    if text.len() >= 1 << 32 {
        return Ok(String::from_str(alloc, "long")?);
    }
    let found = tokens(alloc, text)?;
    match parse(alloc, text, found.as_slice()) {
        Ok(s) => shown(alloc, &s),
        Err(_) => Ok(String::from_str(alloc, "not parsed")?),
    }
}

fn all_bind(rt: &impl Abort, alloc: Global, cases: &[(&str, &str)]) -> Result<(), Fail> {
    for case in cases {
        let found = bound(alloc, case.0)?;
        assert_eq!(rt; found.as_str(), case.1, "{}", case.0);
    }
    Ok(())
}

#[test]
fn conditions_are_bound_part_by_part(rt: HostRuntime) -> Result<(), Fail> {
    all_bind(&rt, rt.alloc(), &CONDITIONS)
}

#[test]
fn changes_name_columns(rt: HostRuntime) -> Result<(), Fail> {
    all_bind(&rt, rt.alloc(), &CHANGES)
}

#[test]
fn operators_are_bound_with_their_operands(rt: HostRuntime) -> Result<(), Fail> {
    all_bind(&rt, rt.alloc(), &OPERATORS)
}

#[test]
fn the_first_fault_is_told(rt: HostRuntime) -> Result<(), Fail> {
    all_bind(&rt, rt.alloc(), &FAULTS)
}

#[test]
fn values_go_to_their_columns(rt: HostRuntime) -> Result<(), Fail> {
    all_bind(&rt, rt.alloc(), &WRITES)
}

#[test]
fn a_query_names_columns_of_its_tables(rt: HostRuntime) -> Result<(), Fail> {
    all_bind(&rt, rt.alloc(), &NAMES)
}

#[test]
fn a_query_has_the_conjuncts_of_all_its_conditions(rt: HostRuntime) -> Result<(), Fail> {
    all_bind(&rt, rt.alloc(), &QUERY_CONDITIONS)
}

#[test]
fn a_query_is_ordered_by_items_or_expressions(rt: HostRuntime) -> Result<(), Fail> {
    all_bind(&rt, rt.alloc(), &ORDERS)
}
