// Bound statements as text.
use hc_ast::{BinaryOp, Bound};
use hc_schema::{BoundRow, BoundSelect, BoundSet, BoundStmt, SortKey, Table};
use hc_value::Value;
use std::alloc::AllocError;

pub fn push_statement(out: &mut String, s: &BoundStmt<'_>) -> Result<(), AllocError> {
    match s {
        BoundStmt::Select(q) => push_query(out, q),
        BoundStmt::Insert {
            table,
            columns,
            rows,
        } => push_insert(
            out,
            table.name.as_str(),
            columns.as_slice(),
            rows.as_slice(),
        ),
        BoundStmt::Update {
            table,
            sets,
            conjuncts,
        } => {
            write!(out, "update {}: ", table.name.as_str())?;
            push_sets(out, sets.as_slice())?;
            push_part(out, " | where ", conjuncts.as_slice())
        }
        BoundStmt::Delete { table, conjuncts } => {
            write!(out, "delete {}", table.name.as_str())?;
            push_part(out, " | where ", conjuncts.as_slice())
        }
        BoundStmt::Other(_) => out.push_str("other"),
    }
}

fn push_query(out: &mut String, q: &BoundSelect<'_>) -> Result<(), AllocError> {
    out.push_str("select ")?;
    push_list(out, q.items.as_slice())?;
    push_tables(out, q.tables.as_slice())?;
    if q.distinct {
        out.push_str(" | distinct")?;
    }
    push_part(out, " | where ", q.conjuncts.as_slice())?;
    push_order(out, q.order.as_slice())?;
    push_number(out, " | limit ", q.limit)?;
    push_number(out, " | offset ", q.offset)
}

fn push_order(out: &mut String, order: &[SortKey]) -> Result<(), AllocError> {
    let mut first = true;
    for key in order {
        push_head(out, first, " | order ")?;
        first = false;
        push_bound(out, &key.value)?;
        push_direction(out, key.desc)?;
    }
    Ok(())
}

fn push_number(out: &mut String, head: &str, n: Option<i64>) -> Result<(), AllocError> {
    if let Some(n) = n {
        write!(out, "{head}{n}")?;
    }
    Ok(())
}

fn push_insert(
    out: &mut String,
    table: &str,
    columns: &[u32],
    rows: &[BoundRow],
) -> Result<(), AllocError> {
    write!(out, "insert {table} (")?;
    let mut first = true;
    for k in columns {
        push_head(out, first, "")?;
        first = false;
        write!(out, "{k}")?;
    }
    out.push_str("):")?;
    for row in rows {
        out.push_str(" [")?;
        push_list(out, row.values.as_slice())?;
        out.push_str("]")?;
    }
    Ok(())
}

fn push_sets(out: &mut String, sets: &[BoundSet]) -> Result<(), AllocError> {
    let mut first = true;
    for set in sets {
        push_head(out, first, "")?;
        first = false;
        write!(out, "{} = ", set.column)?;
        push_bound(out, &set.value)?;
    }
    Ok(())
}

// What comes before a part of a list.
fn push_head(out: &mut String, is_first: bool, head: &str) -> Result<(), AllocError> {
    if is_first {
        out.push_str(head)
    } else {
        out.push_str(", ")
    }
}

fn push_direction(out: &mut String, desc: bool) -> Result<(), AllocError> {
    if desc { out.push_str(" desc") } else { Ok(()) }
}

fn push_tables(out: &mut String, tables: &[&Table]) -> Result<(), AllocError> {
    let mut first = true;
    for table in tables {
        push_head(out, first, " from ")?;
        first = false;
        out.push_str(table.name.as_str())?;
    }
    Ok(())
}

fn push_part(out: &mut String, head: &str, list: &[Bound]) -> Result<(), AllocError> {
    if list.is_empty() {
        return Ok(());
    }
    out.push_str(head)?;
    push_list(out, list)
}

#[cycle(shown)]
fn push_list(out: &mut String, list: &[Bound]) -> Result<(), AllocError> {
    let mut first = true;
    for e in list {
        push_head(out, first, "")?;
        first = false;
        push_bound(out, e)?;
    }
    Ok(())
}

fn push_value(out: &mut String, v: &Value) -> Result<(), AllocError> {
    match v {
        Value::Null => out.push_str("NULL")?,
        Value::Int(n) => write!(out, "{n}")?,
        Value::Text(text) => write!(out, "'{}'", text.as_str())?,
        Value::Blob(bytes) => {
            out.push_str("X'")?;
            for b in bytes.as_slice() {
                write!(out, "{b:02X}")?;
            }
            out.push_str("'")?;
        }
    }
    Ok(())
}

fn sign(op: BinaryOp) -> &'static str {
    match op {
        BinaryOp::Or => "OR",
        BinaryOp::And => "AND",
        BinaryOp::Eq => "=",
        BinaryOp::Ne => "<>",
        BinaryOp::Is => "IS",
        BinaryOp::IsNot => "IS NOT",
        BinaryOp::Lt => "<",
        BinaryOp::Le => "<=",
        BinaryOp::Gt => ">",
        BinaryOp::Ge => ">=",
        BinaryOp::Add => "+",
        BinaryOp::Sub => "-",
        BinaryOp::Mul => "*",
        BinaryOp::Div => "/",
        BinaryOp::Rem => "%",
        BinaryOp::Concat => "||",
    }
}

#[cycle(shown)]
fn push_unary(out: &mut String, before: &str, of: &Bound, after: &str) -> Result<(), AllocError> {
    out.push_str(before)?;
    push_bound(out, of)?;
    out.push_str(after)
}

fn not_before(not: bool) -> &'static str {
    if not { " NOT" } else { "" }
}

#[cycle(shown)]
fn push_bound(out: &mut String, e: &Bound) -> Result<(), AllocError> {
    match e {
        Bound::Value(v) => push_value(out, v),
        Bound::Column(place) => {
            write!(out, "c{place}")?;
            Ok(())
        }
        Bound::Not(of) => push_unary(out, "(NOT ", of.get(), ")"),
        Bound::Minus(of) => push_unary(out, "(- ", of.get(), ")"),
        Bound::Plus(of) => push_unary(out, "(+ ", of.get(), ")"),
        Bound::Length(of) => push_unary(out, "length(", of.get(), ")"),
        Bound::Abs(of) => push_unary(out, "abs(", of.get(), ")"),
        Bound::Binary { op, left, right } => {
            push_unary(out, "(", left.get(), " ")?;
            out.push_str(sign(*op))?;
            push_unary(out, " ", right.get(), ")")
        }
        Bound::Like { not, left, pattern } => {
            push_unary(out, "(", left.get(), not_before(*not))?;
            push_unary(out, " LIKE ", pattern.get(), ")")
        }
        Bound::Between {
            not,
            left,
            low,
            high,
        } => {
            push_unary(out, "(", left.get(), not_before(*not))?;
            push_unary(out, " BETWEEN ", low.get(), " AND ")?;
            push_unary(out, "", high.get(), ")")
        }
        Bound::OneOf { not, left, list } => {
            push_unary(out, "(", left.get(), not_before(*not))?;
            out.push_str(" IN (")?;
            push_list(out, list.as_slice())?;
            out.push_str("))")
        }
        Bound::Coalesce(list) => {
            out.push_str("coalesce(")?;
            push_list(out, list.as_slice())?;
            out.push_str(")")
        }
    }
}
