// The value of an expression, part by part. Every part is evaluated, since an overflow in any is one of the whole.
ghost use Rattle.std.specs.Prelude.{◌≡◌, Some, None};
ghost use Rattle.std.specs.Option.{option_and_then};
ghost use Rattle.hc_expr.specs.Operands.{held, Gives, GivesTruth};
ghost use Rattle.hc_expr.specs.Values.{value_of, values_of, operated, is_among, first_value};
ghost use Rattle.hc_expr.specs.Logic.{value_of_truth};

use crate::EvalFault;
use crate::arithmetic::{
    difference, magnitude, negative, product, quotient, remainder, sum, whole,
};
use crate::comparison::{are_equal, is_between, order};
use crate::like::is_like;
use crate::logic::{conjunction, disjunction, negated_if, negation, truth, value_of_truth};
use crate::operand::{Operand, column, made};
use crate::texts::{extent, joined, likeness};
use hc_ast::{BinaryOp, Bound};
use hc_value::{Value, cmp};
use std::alloc::Global;

/// The value of an expression on a row.
///
/// Texts and blobs that are only compared, measured or matched are not copied. `Overflow` comes exactly where a result
/// in the expression does not fit 64 bits.
pub fn eval(alloc: Global, row: &[Value], e: &Bound) -> Result<Value, EvalFault>
    ensures { Gives (λ v. v) result (value_of row.now e.now) }
{
    match operand(alloc, row, e) {
        Ok(v) => v.into_value(alloc),
        Err(fault) => Err(fault),
    }
}

#[cycle(operand)]
fn operand<'a>(alloc: Global, row: &'a [Value], e: &'a Bound) -> Result<Operand<'a>, EvalFault>
    ensures { Gives held result (value_of row.now e.now) }
{
    match e {
        Bound::Value(v) => Ok(Operand::Lent(v)),
        Bound::Column(place) => Ok(column(row, *place)),
        Bound::Not(of) => {
            let v = operand(alloc, row, of.get())?;
            told(negation(truth(v.get())))
        }
        Bound::Minus(of) => {
            let v = operand(alloc, row, of.get())?;
            made(negative(v.get()))
        }
        Bound::Plus(of) => {
            let v = operand(alloc, row, of.get())?;
            made(whole(v.get()))
        }
        Bound::Length(of) => {
            let v = operand(alloc, row, of.get())?;
            made(extent(v.get()))
        }
        Bound::Abs(of) => {
            let v = operand(alloc, row, of.get())?;
            made(magnitude(v.get()))
        }
        Bound::Binary { op, left, right } => {
            let v = operand(alloc, row, left.get())?;
            let w = operand(alloc, row, right.get())?;
            operated(alloc, *op, v.get(), w.get())
        }
        Bound::Like { not, left, pattern } => {
            let v = operand(alloc, row, left.get())?;
            let w = operand(alloc, row, pattern.get())?;
            told(negated_if(*not, likeness(v.get(), w.get())))
        }
        Bound::Between {
            not,
            left,
            low,
            high,
        } => {
            let v = operand(alloc, row, left.get())?;
            let low = operand(alloc, row, low.get())?;
            let high = operand(alloc, row, high.get())?;
            told(negated_if(*not, is_between(v.get(), low.get(), high.get())))
        }
        Bound::OneOf { not, left, list } => {
            let v = operand(alloc, row, left.get())?;
            let among = among(alloc, row, v.get(), list.as_slice())?;
            told(negated_if(*not, among))
        }
        Bound::Coalesce(list) => first(alloc, row, list.as_slice()),
    }
}

fn told<'a>(truth: Option<bool>) -> Result<Operand<'a>, EvalFault>
    ensures { Gives held result (Some (value_of_truth truth)) }
{
    Ok(Operand::Made(value_of_truth(truth)))
}

// Whether the value equals one of the list, all of which are evaluated.
#[cycle(operand)]
fn among(alloc: Global, row: &[Value], v: &Value, list: &[Bound]) -> Result<Option<bool>, EvalFault>
    ensures { GivesTruth result (option_and_then (λ vs. Some (is_among v.now vs)) (values_of row.now list.now)) }
{
    let mut found = Some(false);
    for e in list {
        match operand(alloc, row, e) {
            Ok(w) => found = disjunction(found, are_equal(v, w.get())),
            Err(fault) => return Err(fault),
        }
    }
    Ok(found)
}

// The first value of the list that is not NULL; all are evaluated.
#[cycle(operand)]
fn first<'a>(alloc: Global, row: &'a [Value], list: &'a [Bound]) -> Result<Operand<'a>, EvalFault>
    ensures { Gives held result (option_and_then (λ vs. Some (first_value vs)) (values_of row.now list.now)) }
{
    let mut found = Operand::Made(Value::Null);
    for e in list {
        match operand(alloc, row, e) {
            Ok(w) => found = found.or(w),
            Err(fault) => return Err(fault),
        }
    }
    Ok(found)
}

fn operated<'a>(alloc: Global, op: BinaryOp, v: &Value, w: &Value) -> Result<Operand<'a>, EvalFault>
    ensures { Gives held result (operated op v.now w.now) }
{
    match op {
        BinaryOp::Or => told(disjunction(truth(v), truth(w))),
        BinaryOp::And => told(conjunction(truth(v), truth(w))),
        BinaryOp::Add => made(sum(v, w)),
        BinaryOp::Sub => made(difference(v, w)),
        BinaryOp::Mul => made(product(v, w)),
        BinaryOp::Div => made(quotient(v, w)),
        BinaryOp::Rem => made(remainder(v, w)),
        BinaryOp::Concat => match joined(alloc, v, w) {
            Ok(text) => Ok(Operand::Made(text)),
            Err(_) => Err(EvalFault::NoMemory),
        },
        BinaryOp::Is => told(Some(cmp(v, w).is_eq())),
        BinaryOp::IsNot => told(Some(cmp(v, w).is_ne())),
        BinaryOp::Eq => told(order(v, w).map(|o| o.is_eq())),
        BinaryOp::Ne => told(order(v, w).map(|o| o.is_ne())),
        BinaryOp::Lt => told(order(v, w).map(|o| o.is_lt())),
        BinaryOp::Le => told(order(v, w).map(|o| o.is_le())),
        BinaryOp::Gt => told(order(v, w).map(|o| o.is_gt())),
        BinaryOp::Ge => told(order(v, w).map(|o| o.is_ge())),
    }
}
