// Expressions on rows, where each name is a column and no aggregate may be.
ghost use Rattle.std.specs.Prelude.{◌≡◌, ◌&&◌, map, Ok, Err, if◌then◌else◌};
ghost use Rattle.hc_value.specs.declared.storage.Class.TheVariants.{Int};
ghost use Rattle.hc_schema.specs.Binding.Faults.{Mixed as Is-mixed};
ghost use Rattle.hc_schema.specs.Binding.Faults.{each};
ghost use Rattle.hc_schema.specs.Binding.Classes.{fits};
ghost use Rattle.hc_schema.specs.Binding.Functions.{is_count, function_of};
ghost use Rattle.hc_schema.specs.Binding.Expressions.{reading_of, call_all_reading, on_rows, conjuncts_of};
ghost use Rattle.hc_bind.specs.Answers.{Tells, TellsBy, TellsMore};
ghost use Rattle.hc_bind.specs.Conjuncts.{Conjoins, ConjoinsAlone};
ghost use Rattle.hc_bind.specs.Scopes.{seen};

use crate::BindFault;
use crate::call::{no_function, row_function};
use crate::class::fits;
use crate::function::{function_of, is_count};
use crate::operator::{UnaryOp, between, binary, like, one_of, unary};
use crate::scope::Scope;
use hc_ast::{BinaryOp, Bound, Expr};
use hc_schema::Typed;
use hc_value::{Class, class, copy};
use std::alloc::Global;

/// An expression on rows.
#[cycle(on_rows)]
pub fn on_rows(alloc: Global, scope: &Scope<'_>, e: &Expr) -> Result<Typed, BindFault>
    ensures { Tells (reading_of (seen scope.now) e.now).on_rows result }
{
    match e {
        Expr::Value(v) => Ok(Typed {
            value: Bound::Value(copy(alloc, v)?),
            class: class(v),
        }),
        Expr::Name { table, column } => scope.resolved(alloc, table, column.as_str()),
        Expr::Not(of) => unary(alloc, UnaryOp::Not, on_rows(alloc, scope, of.get())),
        Expr::Minus(of) => unary(alloc, UnaryOp::Minus, on_rows(alloc, scope, of.get())),
        Expr::Plus(of) => unary(alloc, UnaryOp::Plus, on_rows(alloc, scope, of.get())),
        Expr::Binary { op, left, right } => {
            let l = on_rows(alloc, scope, left.get());
            let r = on_rows(alloc, scope, right.get());
            binary(alloc, *op, l, r)
        }
        Expr::OneOf { not, left, list } => {
            let among = each_on_rows(alloc, scope, list.as_slice());
            let value = on_rows(alloc, scope, left.get());
            one_of(alloc, *not, value, among)
        }
        Expr::Like { not, left, pattern } => {
            let text = on_rows(alloc, scope, left.get());
            let form = on_rows(alloc, scope, pattern.get());
            like(alloc, *not, text, form)
        }
        Expr::Between {
            not,
            left,
            low,
            high,
        } => {
            let middle = on_rows(alloc, scope, left.get());
            let least = on_rows(alloc, scope, low.get());
            let most = on_rows(alloc, scope, high.get());
            between(alloc, *not, middle, least, most)
        }
        Expr::Call { name, args } => {
            let ts = each_on_rows(alloc, scope, args.as_slice());
            row_function(alloc, name.get().as_str(), ts)
        }
        Expr::CallAll { name } => all_on_rows(alloc, name.as_str()),
    }
}

// `count(*)` may not be here, and no other function has `*`.
fn all_on_rows(alloc: Global, name: &str) -> Result<Typed, BindFault>
    ensures { Tells (call_all_reading (is_count (function_of name.now)) name.now).on_rows result }
{
    if is_count(function_of(name)) {
        Err(BindFault::Aggregate)
    } else {
        Err(no_function(alloc, name))
    }
}

/// Expressions on rows.
#[cycle(on_rows)]
pub fn each_on_rows(
    alloc: Global,
    scope: &Scope<'_>,
    list: &[Expr],
) -> Result<Vec<Typed>, BindFault>
    ensures { TellsBy (λ v. v.items) (each (map (λ e. (reading_of (seen scope.now) e).on_rows) list.now)) result }
{
    let mut found = Vec::with_capacity(alloc, list.len())?;
    for e in list {
        match on_rows(alloc, scope, e) {
            Ok(t) => found.push(t)?,
            Err(fault) => return Err(fault),
        }
    }
    Ok(found)
}

/// The conjuncts of a condition, which are added to `out`.
pub fn push_condition(
    alloc: Global,
    scope: &Scope<'_>,
    e: &Expr,
    out: &mut Vec<Bound>,
) -> Result<(), BindFault>
    ensures { TellsMore (conjuncts_of (seen scope.now) e.now) out.old.items out.new.items result }
{
    let class = push_conjuncts(alloc, scope, e, out)?;
    if fits(class, Class::Int) {
        Ok(())
    } else {
        Err(BindFault::Mixed)
    }
}

// The class of an expression; the operands of its ANDs are added to `out` in order.
#[cycle(conjuncts)]
fn push_conjuncts(
    alloc: Global,
    scope: &Scope<'_>,
    e: &Expr,
    out: &mut Vec<Bound>,
) -> Result<Class, BindFault>
    ensures { Conjoins (reading_of (seen scope.now) e.now) out.old.items out.new.items result }
{
    match e {
        Expr::Binary { op, left, right } => match *op {
            BinaryOp::And => {
                let l = push_conjuncts(alloc, scope, left.get(), out)?;
                let r = push_conjuncts(alloc, scope, right.get(), out)?;
                both_int(l, r)
            }
            _ => push_alone(alloc, scope, e, out),
        },
        Expr::Value(_)
        | Expr::Name { .. }
        | Expr::Not(_)
        | Expr::Minus(_)
        | Expr::Plus(_)
        | Expr::OneOf { .. }
        | Expr::Like { .. }
        | Expr::Between { .. }
        | Expr::Call { .. }
        | Expr::CallAll { .. } => push_alone(alloc, scope, e, out),
    }
}

// An expression that is no AND.
fn push_alone(
    alloc: Global,
    scope: &Scope<'_>,
    e: &Expr,
    out: &mut Vec<Bound>,
) -> Result<Class, BindFault>
    ensures { ConjoinsAlone (reading_of (seen scope.now) e.now).on_rows out.old.items out.new.items result }
{
    let t = on_rows(alloc, scope, e)?;
    out.push(t.value)?;
    Ok(t.class)
}

fn both_int(left: Class, right: Class) -> Result<Class, BindFault>
    ensures { Tells (if fits left Int && fits right Int then Ok Int else Err Is-mixed) result }
{
    if fits(left, Class::Int) && fits(right, Class::Int) {
        Ok(Class::Int)
    } else {
        Err(BindFault::Mixed)
    }
}
