// Trees, made from their parts. Each helper takes its parts as they were made or refused, so that a test keeps no
// tree across a `?`, which would prove the tree's drop there.
use hc_ast::{
    Assign, BinaryOp, ColumnDef, ColumnRule, Expr, ExprRow, FromTable, Item, KeyRule, NoMemory,
    Select, Stmt, Term,
};
use hc_value::{Blob, Class, Str, Value};
use sqlite_items::{Boxed, Items};
use std::alloc::Global;

// What was made, or word that memory ran out.
pub type Made<T> = Result<T, NoMemory>;

fn both<A: Drop, B: Drop>(first: Made<A>, second: Made<B>) -> Made<(A, B)> {
    let first = first?;
    let second = second?;
    Ok((first, second))
}

fn some<T: Drop>(part: Made<T>) -> Made<Option<T>> {
    Ok(Some(part?))
}

pub fn one<T: Drop>(alloc: Global, item: Made<T>) -> Made<Items<T>> {
    let item = item?;
    let mut items = Items::new(alloc);
    items.push(item)?;
    Ok(items)
}

pub fn two<T: Drop>(alloc: Global, first: Made<T>, second: Made<T>) -> Made<Items<T>> {
    let (mut items, second) = both(one(alloc, first), second)?;
    items.push(second)?;
    Ok(items)
}

pub fn name(alloc: Global, text: &str) -> Made<Str> {
    Str::from_text(alloc, text)
}

pub fn names(alloc: Global, first: &str, second: &str) -> Made<Items<Str>> {
    two(alloc, name(alloc, first), name(alloc, second))
}

pub fn number(n: i64) -> Made<Expr> {
    Ok(Expr::Value(Value::Int(n)))
}

pub fn null() -> Made<Expr> {
    Ok(Expr::Value(Value::Null))
}

pub fn text(alloc: Global, text: &str) -> Made<Expr> {
    Ok(Expr::Value(Value::Text(Str::from_text(alloc, text)?)))
}

pub fn blob(alloc: Global, bytes: &[u8]) -> Made<Expr> {
    Ok(Expr::Value(Value::Blob(Blob::from_slice(alloc, bytes)?)))
}

pub fn column(alloc: Global, text: &str) -> Made<Expr> {
    let column = name(alloc, text)?;
    Ok(Expr::Name {
        table: None,
        column,
    })
}

pub fn column_of(alloc: Global, table: &str, column: &str) -> Made<Expr> {
    let (table, column) = both(some(in_box(alloc, name(alloc, table))), name(alloc, column))?;
    Ok(Expr::Name { table, column })
}

fn in_box<T: Drop>(alloc: Global, part: Made<T>) -> Made<Boxed<T>> {
    Boxed::new(alloc, part?)
}

fn boxed(alloc: Global, operand: Made<Expr>) -> Made<Boxed<Expr>> {
    Boxed::new(alloc, operand?)
}

fn operands(
    alloc: Global,
    left: Made<Expr>,
    right: Made<Expr>,
) -> Made<(Boxed<Expr>, Boxed<Expr>)> {
    both(boxed(alloc, left), boxed(alloc, right))
}

pub fn not(alloc: Global, operand: Made<Expr>) -> Made<Expr> {
    Ok(Expr::Not(boxed(alloc, operand)?))
}

pub fn minus(alloc: Global, operand: Made<Expr>) -> Made<Expr> {
    Ok(Expr::Minus(boxed(alloc, operand)?))
}

pub fn plus(alloc: Global, operand: Made<Expr>) -> Made<Expr> {
    Ok(Expr::Plus(boxed(alloc, operand)?))
}

pub fn binary(alloc: Global, op: BinaryOp, left: Made<Expr>, right: Made<Expr>) -> Made<Expr> {
    let (left, right) = operands(alloc, left, right)?;
    Ok(Expr::Binary { op, left, right })
}

pub fn one_of(alloc: Global, not: bool, left: Made<Expr>, list: Made<Items<Expr>>) -> Made<Expr> {
    let (left, list) = both(boxed(alloc, left), list)?;
    Ok(Expr::OneOf { not, left, list })
}

pub fn like(alloc: Global, not: bool, left: Made<Expr>, pattern: Made<Expr>) -> Made<Expr> {
    let (left, pattern) = operands(alloc, left, pattern)?;
    Ok(Expr::Like { not, left, pattern })
}

pub fn between(
    alloc: Global,
    not: bool,
    left: Made<Expr>,
    low: Made<Expr>,
    high: Made<Expr>,
) -> Made<Expr> {
    let (left, (low, high)) = both(boxed(alloc, left), operands(alloc, low, high))?;
    Ok(Expr::Between {
        not,
        left,
        low,
        high,
    })
}

pub fn call(alloc: Global, name: Made<Str>, args: Made<Items<Expr>>) -> Made<Expr> {
    let (name, args) = both(in_box(alloc, name), args)?;
    Ok(Expr::Call { name, args })
}

pub fn call_all(name: Made<Str>) -> Made<Expr> {
    Ok(Expr::CallAll { name: name? })
}

pub fn item(value: Made<Expr>) -> Made<Item> {
    Ok(Item::One {
        value: value?,
        alias: None,
    })
}

pub fn item_as(alloc: Global, value: Made<Expr>, alias: Made<Str>) -> Made<Item> {
    let (value, alias) = both(value, some(in_box(alloc, alias)))?;
    Ok(Item::One { value, alias })
}

pub fn all_of(table: Made<Str>) -> Made<Item> {
    Ok(Item::AllOf(table?))
}

// A query with nothing but its items.
pub fn query(alloc: Global, items: Made<Items<Item>>) -> Made<Select> {
    Ok(Select {
        distinct: false,
        items: items?,
        tables: Items::new(alloc),
        filter: None,
        groups: Items::new(alloc),
        having: None,
        order: Items::new(alloc),
        limit: None,
        offset: None,
    })
}

pub fn distinct(query: Made<Select>) -> Made<Select> {
    let query = query?;
    Ok(Select {
        distinct: true,
        ..query
    })
}

pub fn from(query: Made<Select>, tables: Made<Items<FromTable>>) -> Made<Select> {
    let (query, tables) = both(query, tables)?;
    Ok(Select { tables, ..query })
}

pub fn filtered(query: Made<Select>, filter: Made<Expr>) -> Made<Select> {
    let (query, filter) = both(query, some(filter))?;
    Ok(Select { filter, ..query })
}

pub fn grouped(query: Made<Select>, groups: Made<Items<Expr>>) -> Made<Select> {
    let (query, groups) = both(query, groups)?;
    Ok(Select { groups, ..query })
}

pub fn having(query: Made<Select>, having: Made<Expr>) -> Made<Select> {
    let (query, having) = both(query, some(having))?;
    Ok(Select { having, ..query })
}

pub fn ordered(query: Made<Select>, order: Made<Items<Term>>) -> Made<Select> {
    let (query, order) = both(query, order)?;
    Ok(Select { order, ..query })
}

pub fn limited(query: Made<Select>, limit: Option<i64>, offset: Option<i64>) -> Made<Select> {
    let query = query?;
    Ok(Select {
        limit,
        offset,
        ..query
    })
}

pub fn term(value: Made<Expr>, desc: bool) -> Made<Term> {
    Ok(Term {
        value: value?,
        desc,
    })
}

// A table after a comma, or the first.
pub fn table(name: Made<Str>) -> Made<FromTable> {
    Ok(FromTable {
        name: name?,
        alias: None,
        joined: false,
        on: None,
    })
}

pub fn table_as(alloc: Global, name: Made<Str>, alias: Made<Str>) -> Made<FromTable> {
    let (table, alias) = both(table(name), some(in_box(alloc, alias)))?;
    Ok(FromTable { alias, ..table })
}

pub fn joined(table: Made<FromTable>) -> Made<FromTable> {
    let table = table?;
    Ok(FromTable {
        joined: true,
        ..table
    })
}

pub fn on(table: Made<FromTable>, on: Made<Expr>) -> Made<FromTable> {
    let (table, on) = both(table, some(on))?;
    Ok(FromTable { on, ..table })
}

pub fn selects(query: Made<Select>) -> Made<Stmt> {
    Ok(Stmt::Select(query?))
}

// The query of one expression.
pub fn asks(alloc: Global, value: Made<Expr>) -> Made<Stmt> {
    selects(query(alloc, one(alloc, item(value))))
}

pub fn row(values: Made<Items<Expr>>) -> Made<ExprRow> {
    Ok(ExprRow { values: values? })
}

pub fn insert(table: Made<Str>, rows: Made<Items<ExprRow>>) -> Made<Stmt> {
    let (table, rows) = both(table, rows)?;
    Ok(Stmt::Insert {
        table,
        columns: None,
        rows,
    })
}

pub fn insert_columns(
    table: Made<Str>,
    columns: Made<Items<Str>>,
    rows: Made<Items<ExprRow>>,
) -> Made<Stmt> {
    let (table, (columns, rows)) = both(table, both(some(columns), rows))?;
    Ok(Stmt::Insert {
        table,
        columns,
        rows,
    })
}

pub fn assign(column: Made<Str>, value: Made<Expr>) -> Made<Assign> {
    let (column, value) = both(column, value)?;
    Ok(Assign { column, value })
}

pub fn update(table: Made<Str>, sets: Made<Items<Assign>>) -> Made<Stmt> {
    let (table, sets) = both(table, sets)?;
    Ok(Stmt::Update {
        table,
        sets,
        filter: None,
    })
}

pub fn update_where(table: Made<Str>, sets: Made<Items<Assign>>, filter: Made<Expr>) -> Made<Stmt> {
    let (table, (sets, filter)) = both(table, both(sets, some(filter)))?;
    Ok(Stmt::Update {
        table,
        sets,
        filter,
    })
}

pub fn delete(table: Made<Str>) -> Made<Stmt> {
    Ok(Stmt::Delete {
        table: table?,
        filter: None,
    })
}

pub fn delete_where(table: Made<Str>, filter: Made<Expr>) -> Made<Stmt> {
    let (table, filter) = both(table, some(filter))?;
    Ok(Stmt::Delete { table, filter })
}

pub fn definition(
    name: Made<Str>,
    class: Class,
    rules: Made<Items<ColumnRule>>,
) -> Made<ColumnDef> {
    let (name, rules) = both(name, rules)?;
    Ok(ColumnDef { name, class, rules })
}

pub fn key_rule(primary: bool, columns: Made<Items<Str>>) -> Made<KeyRule> {
    Ok(KeyRule {
        primary,
        columns: columns?,
    })
}

pub fn create_table(
    maybe: bool,
    name: Made<Str>,
    columns: Made<Items<ColumnDef>>,
    rules: Made<Items<KeyRule>>,
) -> Made<Stmt> {
    let (name, (columns, rules)) = both(name, both(columns, rules))?;
    Ok(Stmt::CreateTable {
        maybe,
        name,
        columns,
        rules,
    })
}

pub fn create_index(
    unique: bool,
    maybe: bool,
    name: Made<Str>,
    table: Made<Str>,
    columns: Made<Items<Str>>,
) -> Made<Stmt> {
    let (name, (table, columns)) = both(name, both(table, columns))?;
    Ok(Stmt::CreateIndex {
        unique,
        maybe,
        name,
        table,
        columns,
    })
}

pub fn drop_table(maybe: bool, name: Made<Str>) -> Made<Stmt> {
    Ok(Stmt::DropTable { maybe, name: name? })
}

pub fn drop_index(maybe: bool, name: Made<Str>) -> Made<Stmt> {
    Ok(Stmt::DropIndex { maybe, name: name? })
}

pub fn rollback_to(name: Made<Str>) -> Made<Stmt> {
    Ok(Stmt::RollbackTo(name?))
}

pub fn savepoint(name: Made<Str>) -> Made<Stmt> {
    Ok(Stmt::Savepoint(name?))
}

pub fn release(name: Made<Str>) -> Made<Stmt> {
    Ok(Stmt::Release(name?))
}
