// A statement over tables.
ghost use Rattle.hc_schema.specs.Binding.Faults.{Judged};
ghost use Rattle.hc_schema.specs.Binding.Statements.{Binding, binding_of};
ghost use Rattle.hc_bind.specs.Answers.{AnswersUngrouped, AnswersQuery, Found, TellsBy};

use crate::BindFault;
use crate::aggregate::is_grouped;
use crate::change::{delete, insert, update};
use crate::query::query;
use hc_ast::{Select, Stmt};
use hc_schema::{BoundStmt, Table};
use std::alloc::Global;

/// The bound form of a statement over tables, or its first fault in the order of text; `None` of a query with groups.
///
/// Of a name in `tables` the first counts. Each operand comes before its operator, and the arguments of a call before the
/// call: an unknown function, then mixed classes, then an aggregate where none may be, then the number of arguments. A
/// statement that is no INSERT, UPDATE, DELETE or query is bound as it is.
pub fn bind_ungrouped<'a>(
    alloc: Global,
    stmt: &'a Stmt,
    tables: &'a [Table],
) -> Result<Option<BoundStmt<'a>>, BindFault>
    ensures { AnswersUngrouped tables.now stmt.now result }
{
    match stmt {
        Stmt::Select(q) => select(alloc, q, tables),
        Stmt::Insert {
            table,
            columns,
            rows,
        } => found(insert(alloc, tables, table.as_str(), columns, rows.as_slice())),
        Stmt::Update {
            table,
            sets,
            filter,
        } => found(update(alloc, tables, table.as_str(), sets.as_slice(), filter)),
        Stmt::Delete { table, filter } => found(delete(alloc, tables, table.as_str(), filter)),
        other => Ok(Some(BoundStmt::Other(other))),
    }
}

fn found<'a>(bound: Result<BoundStmt<'a>, BindFault>) -> Result<Option<BoundStmt<'a>>, BindFault>
    ensures { (j : Judged Binding) → TellsBy binding_of j bound.entry → Found j result }
{
    match bound {
        Ok(bound) => Ok(Some(bound)),
        Err(fault) => Err(fault),
    }
}

// A query without groups.
fn select<'a>(
    alloc: Global,
    q: &'a Select,
    tables: &'a [Table],
) -> Result<Option<BoundStmt<'a>>, BindFault>
    ensures { AnswersQuery tables.now q.now result }
{
    if is_grouped(q) {
        return Ok(None);
    }
    match query(alloc, q, tables) {
        Ok(q) => Ok(Some(BoundStmt::Select(q))),
        Err(fault) => Err(fault),
    }
}
