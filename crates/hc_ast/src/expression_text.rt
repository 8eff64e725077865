// Expressions in canonical text.
ghost use Rattle.std.specs.Prelude.{◌≡◌, ◌∷◌, [], ◌++◌, OnOk, string_bytes, map, codes};
ghost use Rattle.hc_ast.specs.Words.{spaced, listed, enclosed, words_if};
ghost use Rattle.hc_ast.specs.Expressions.{expression_words, operator_words, qualifier_words};

use crate::words::{push_name, push_value, push_word};
use crate::{BinaryOp, Expr, NoMemory};
use hc_value::Str;
use sqlite_items::Boxed;

fn push_operator(out: &mut String, op: BinaryOp) -> Result<(), NoMemory>
    ensures { OnOk result (string_bytes out.new ≡ string_bytes out.old ++ spaced (operator_words op)) }
{
    match op {
        BinaryOp::Or => push_word(out, "OR"),
        BinaryOp::And => push_word(out, "AND"),
        BinaryOp::Eq => push_word(out, "="),
        BinaryOp::Ne => push_word(out, "<>"),
        BinaryOp::Is => push_word(out, "IS"),
        BinaryOp::IsNot => push_is_not(out),
        BinaryOp::Lt => push_word(out, "<"),
        BinaryOp::Le => push_word(out, "<="),
        BinaryOp::Gt => push_word(out, ">"),
        BinaryOp::Ge => push_word(out, ">="),
        BinaryOp::Add => push_word(out, "+"),
        BinaryOp::Sub => push_word(out, "-"),
        BinaryOp::Mul => push_word(out, "*"),
        BinaryOp::Div => push_word(out, "/"),
        BinaryOp::Rem => push_word(out, "%"),
        BinaryOp::Concat => push_word(out, "||"),
    }
}

fn push_is_not(out: &mut String) -> Result<(), NoMemory>
    ensures { OnOk result (string_bytes out.new ≡ string_bytes out.old ++ spaced (codes "IS" ∷ codes "NOT" ∷ [])) }
{
    push_word(out, "IS")?;
    push_word(out, "NOT")
}

// What a call of all rows has in place of arguments.
fn push_star(out: &mut String) -> Result<(), NoMemory>
    ensures { OnOk result (string_bytes out.new ≡ string_bytes out.old ++ spaced (enclosed (codes "*" ∷ []))) }
{
    push_word(out, "(")?;
    push_word(out, "*")?;
    push_word(out, ")")
}

// The table's name before a column's.
fn push_qualifier(out: &mut String, table: &Option<Boxed<Str>>) -> Result<(), NoMemory>
    ensures { OnOk result (string_bytes out.new ≡ string_bytes out.old ++ spaced (qualifier_words table.now)) }
{
    match table {
        None => Ok(()),
        Some(table) => {
            push_name(out, table.get())?;
            push_word(out, ".")
        }
    }
}

fn push_not(out: &mut String, not: bool) -> Result<(), NoMemory>
    ensures { OnOk result (string_bytes out.new ≡ string_bytes out.old ++ spaced (words_if not (codes "NOT" ∷ []))) }
{
    if not { push_word(out, "NOT") } else { Ok(()) }
}

#[cycle(expression)]
pub fn push_expression(out: &mut String, value: &Expr) -> Result<(), NoMemory>
    ensures { OnOk result (string_bytes out.new ≡ string_bytes out.old ++ spaced (expression_words value.now)) }
{
    match value {
        Expr::Value(value) => push_value(out, value),
        Expr::Name { table, column } => {
            push_qualifier(out, table)?;
            push_name(out, column)
        }
        Expr::Not(operand) => push_unary(out, "NOT", operand.get()),
        Expr::Minus(operand) => push_unary(out, "-", operand.get()),
        Expr::Plus(operand) => push_unary(out, "+", operand.get()),
        Expr::Binary { op, left, right } => {
            push_word(out, "(")?;
            push_expression(out, left.get())?;
            push_operator(out, *op)?;
            push_expression(out, right.get())?;
            push_word(out, ")")
        }
        Expr::OneOf { not, left, list } => {
            push_word(out, "(")?;
            push_expression(out, left.get())?;
            push_not(out, *not)?;
            push_word(out, "IN")?;
            push_enclosed(out, list.as_slice())?;
            push_word(out, ")")
        }
        Expr::Like { not, left, pattern } => {
            push_word(out, "(")?;
            push_expression(out, left.get())?;
            push_not(out, *not)?;
            push_after(out, "LIKE", pattern.get())?;
            push_word(out, ")")
        }
        Expr::Between {
            not,
            left,
            low,
            high,
        } => {
            push_word(out, "(")?;
            push_expression(out, left.get())?;
            push_not(out, *not)?;
            push_after(out, "BETWEEN", low.get())?;
            push_after(out, "AND", high.get())?;
            push_word(out, ")")
        }
        Expr::Call { name, args } => {
            push_name(out, name.get())?;
            push_enclosed(out, args.as_slice())
        }
        Expr::CallAll { name } => {
            push_name(out, name)?;
            push_star(out)
        }
    }
}

// An operand after its operator.
#[cycle(expression)]
fn push_after(out: &mut String, operator: &str, operand: &Expr) -> Result<(), NoMemory>
    ensures { OnOk result (string_bytes out.new
        ≡ string_bytes out.old ++ spaced (operator.now ∷ expression_words operand.now)) }
{
    push_word(out, operator)?;
    push_expression(out, operand)
}

#[cycle(expression)]
fn push_unary(out: &mut String, operator: &str, operand: &Expr) -> Result<(), NoMemory>
    ensures { OnOk result (string_bytes out.new
        ≡ string_bytes out.old ++ spaced (enclosed (operator.now ∷ expression_words operand.now))) }
{
    push_word(out, "(")?;
    push_after(out, operator, operand)?;
    push_word(out, ")")
}

// A list in parentheses.
#[cycle(expression)]
fn push_enclosed(out: &mut String, values: &[Expr]) -> Result<(), NoMemory>
    ensures { OnOk result (string_bytes out.new
        ≡ string_bytes out.old ++ spaced (enclosed (listed (map expression_words values.now)))) }
{
    push_word(out, "(")?;
    push_values(out, values)?;
    push_word(out, ")")
}

#[cycle(expression)]
fn push_values(out: &mut String, values: &[Expr]) -> Result<(), NoMemory>
    ensures { OnOk result (string_bytes out.new
        ≡ string_bytes out.old ++ spaced (listed (map expression_words values.now))) }
{
    let Some((first, others)) = values.split_first() else {
        return Ok(());
    };
    push_expression(out, first)?;
    for other in others {
        push_after(out, ",", other)?;
    }
    Ok(())
}
