// An expression without columns, bound: its functions are known by their names.
use hc_ast::{Bound, Expr};
use hc_value::{NoMemory, Value, copy};
use sqlite_items::{Boxed, Items};
use std::alloc::Global;

// `None` where the expression has a column or another function.
#[cycle(bound)]
pub fn bound(alloc: Global, e: &Expr) -> Result<Option<Bound>, NoMemory> {
    Ok(Some(match e {
        Expr::Value(v) => Bound::Value(copy(alloc, v)?),
        Expr::Not(of) => return one(alloc, Unary::Not, of.get()),
        Expr::Minus(of) => return one(alloc, Unary::Minus, of.get()),
        Expr::Plus(of) => return one(alloc, Unary::Plus, of.get()),
        Expr::Binary { op, left, right } => {
            let (Some(left), Some(right)) = (boxed(alloc, left.get())?, boxed(alloc, right.get())?)
            else {
                return Ok(None);
            };
            Bound::Binary {
                op: *op,
                left,
                right,
            }
        }
        Expr::Like { not, left, pattern } => {
            let (Some(left), Some(pattern)) = (
                boxed(alloc, left.get())?,
                boxed(alloc, pattern.get())?,
            ) else {
                return Ok(None);
            };
            Bound::Like {
                not: *not,
                left,
                pattern,
            }
        }
        Expr::OneOf { not, left, list } => {
            let (Some(left), Some(list)) = (boxed(alloc, left.get())?, all(alloc, list.as_slice())?)
            else {
                return Ok(None);
            };
            Bound::OneOf {
                not: *not,
                left,
                list,
            }
        }
        Expr::Between {
            not,
            left,
            low,
            high,
        } => {
            let (Some(left), Some(low), Some(high)) = (
                boxed(alloc, left.get())?,
                boxed(alloc, low.get())?,
                boxed(alloc, high.get())?,
            ) else {
                return Ok(None);
            };
            Bound::Between {
                not: *not,
                left,
                low,
                high,
            }
        }
        Expr::Call { name, args } => {
            return called(alloc, name.get().as_str(), args.as_slice());
        }
        _ => return Ok(None),
    }))
}

#[derive(Clone, Copy)]
enum Unary {
    Not,
    Minus,
    Plus,
    Length,
    Abs,
}

#[cycle(bound)]
fn one(alloc: Global, unary: Unary, of: &Expr) -> Result<Option<Bound>, NoMemory> {
    let Some(of) = boxed(alloc, of)? else {
        return Ok(None);
    };
    Ok(Some(match unary {
        Unary::Not => Bound::Not(of),
        Unary::Minus => Bound::Minus(of),
        Unary::Plus => Bound::Plus(of),
        Unary::Length => Bound::Length(of),
        Unary::Abs => Bound::Abs(of),
    }))
}

#[cycle(bound)]
fn called(alloc: Global, name: &str, args: &[Expr]) -> Result<Option<Bound>, NoMemory> {
    if name == "coalesce" {
        return Ok(match all(alloc, args)? {
            Some(list) => Some(Bound::Coalesce(list)),
            None => None,
        });
    }
    let Some(of) = args.first() else {
        return Ok(None);
    };
    match name {
        "length" => one(alloc, Unary::Length, of),
        "abs" => one(alloc, Unary::Abs, of),
        _ => Ok(None),
    }
}

#[cycle(bound)]
fn boxed(alloc: Global, e: &Expr) -> Result<Option<Boxed<Bound>>, NoMemory> {
    match bound(alloc, e)? {
        Some(e) => Ok(Some(Boxed::new(alloc, e)?)),
        None => Ok(None),
    }
}

#[cycle(bound)]
fn all(alloc: Global, list: &[Expr]) -> Result<Option<Items<Bound>>, NoMemory> {
    let mut found = Items::new(alloc);
    for e in list {
        match bound(alloc, e)? {
            Some(e) => found.push(e)?,
            None => return Ok(None),
        }
    }
    Ok(Some(found))
}
