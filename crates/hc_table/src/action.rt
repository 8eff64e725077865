// The three forms of statements that the table has.
ghost use Rattle.std.specs.Prelude.{◌≡◌, if◌then◌else◌, None};
ghost use Rattle.hc_ast.specs.declared.expression.Expr.{out-Expr};
ghost use Rattle.hc_table.specs.Fitting.{fitting};
ghost use Rattle.hc_table.specs.Statements as table;

use hc_ast::{Assign, BinaryOp, Expr, ExprRow, FromTable, Item, Select, Stmt};
use hc_value::{Str, Value};
use sqlite_items::Items;

/// A statement of one of the three forms, with its numbers.
#[derive(Clone, Copy, Debug, PartialEq, Eq)]
pub enum Action {
    /// `INSERT INTO t VALUES (id, v)`
    Inserts(i64, i64),
    /// `SELECT v FROM t WHERE id = N`
    Selects(i64),
    /// `UPDATE t SET v = N WHERE id = N`: the id comes first.
    Updates(i64, i64),
}

/// The form that a statement has, where it has one of the three, with integers of 64 bits.
pub fn action_of(statement: &Stmt) -> Option<Action>
    ensures { result ≡ table.action_of statement.now }
{
    match statement {
        Stmt::Insert {
            table,
            columns,
            rows,
        } => insert_of(table, columns, rows.as_slice()),
        Stmt::Select(query) => select_of(query),
        Stmt::Update {
            table,
            sets,
            filter,
        } => update_of(table, sets.as_slice(), filter),
        Stmt::Delete { .. }
        | Stmt::CreateTable { .. }
        | Stmt::CreateIndex { .. }
        | Stmt::DropTable { .. }
        | Stmt::DropIndex { .. }
        | Stmt::Begin
        | Stmt::Commit
        | Stmt::Rollback
        | Stmt::RollbackTo(_)
        | Stmt::Savepoint(_)
        | Stmt::Release(_) => None,
    }
}

// An integer of 64 bits, or a minus before one where the result has 64 bits too.
fn number_of(e: &Expr) -> Option<i64>
    ensures { result ≡ fitting (table.number_of e.now) }
{
    match e {
        Expr::Value(Value::Int(n)) => Some(*n),
        Expr::Minus(operand) => minus_of(operand.get()),
        _ => None,
    }
}

fn minus_of(operand: &Expr) -> Option<i64>
    ensures { result ≡ fitting (table.number_below_minus (out-Expr operand.now)) }
{
    match operand {
        Expr::Value(Value::Int(n)) => n.checked_neg(),
        _ => None,
    }
}

fn is_table(name: &Str) -> bool
    ensures { result ≡ table.is_table name.now }
{
    "t".eq_ignore_ascii_case(name.as_str())
}

// Whether it is a column without its table's name.
fn is_column(name: &str, e: &Expr) -> bool
    ensures { result ≡ table.is_column name.now (out-Expr e.now) }
{
    match e {
        Expr::Name {
            table: None,
            column,
        } => name.eq_ignore_ascii_case(column.as_str()),
        _ => false,
    }
}

fn insert_of(name: &Str, columns: &Option<Items<Str>>, rows: &[ExprRow]) -> Option<Action>
    ensures { result ≡ table.if_integers (if table.is_table name.now then table.insert_of columns.now rows.now else None) }
{
    if !is_table(name) || columns.is_some() {
        return None;
    }
    match rows {
        [row] => insertion_of(row.values.as_slice()),
        _ => None,
    }
}

fn insertion_of(values: &[Expr]) -> Option<Action>
    ensures { result ≡ table.if_integers (table.insertion_of values.now) }
{
    match values {
        [id, v] => Some(Action::Inserts(number_of(id)?, number_of(v)?)),
        _ => None,
    }
}

fn select_of(query: &Select) -> Option<Action>
    ensures { result ≡ table.if_integers (table.select_of query.now) }
{
    if !is_v(query.items.as_slice()) || !is_from(query.tables.as_slice()) || !is_short(query) {
        return None;
    }
    Some(Action::Selects(id_of_filter(&query.filter)?))
}

// Whether the one item is `v`.
fn is_v(items: &[Item]) -> bool
    ensures { result ≡ table.is_v items.now }
{
    match items {
        [Item::One { value, alias: None }] => is_column("v", value),
        _ => false,
    }
}

fn is_from(tables: &[FromTable]) -> bool
    ensures { result ≡ table.is_from tables.now }
{
    match tables {
        [from] => {
            is_table(&from.name) && from.alias.is_none() && !from.joined && from.on.is_none()
        }
        _ => false,
    }
}

// Whether no more than the item, the table and the condition is written.
fn is_short(query: &Select) -> bool
    ensures { result ≡ table.is_short query.now }
{
    !query.distinct
        && query.groups.as_slice().is_empty()
        && query.having.is_none()
        && query.order.as_slice().is_empty()
        && query.limit.is_none()
        && query.offset.is_none()
}

// The number of `id = N`.
fn id_of_filter(filter: &Option<Expr>) -> Option<i64>
    ensures { result ≡ fitting (table.id_of_filter filter.now) }
{
    match filter {
        Some(e) => id_in(e),
        None => None,
    }
}

fn id_in(e: &Expr) -> Option<i64>
    ensures { result ≡ fitting (table.id_in (out-Expr e.now)) }
{
    match e {
        Expr::Binary {
            op: BinaryOp::Eq,
            left,
            right,
        } if is_column("id", left.get()) => number_of(right.get()),
        _ => None,
    }
}

fn update_of(name: &Str, sets: &[Assign], filter: &Option<Expr>) -> Option<Action>
    ensures { result ≡ table.if_integers (if table.is_table name.now then table.update_of (table.id_of_filter filter.now) (table.value_of_sets sets.now) else None) }
{
    if !is_table(name) {
        return None;
    }
    Some(Action::Updates(id_of_filter(filter)?, value_of_sets(sets)?))
}

// The number of `v = N`.
fn value_of_sets(sets: &[Assign]) -> Option<i64>
    ensures { result ≡ fitting (table.value_of_sets sets.now) }
{
    match sets {
        [set] if "v".eq_ignore_ascii_case(set.column.as_str()) => number_of(&set.value),
        _ => None,
    }
}
