// Copies of bound expressions.
ghost use Rattle.std.specs.Prelude.{◌≡◌, IfOk};

use hc_ast::Bound;
use hc_value::{NoMemory, copy};
use sqlite_items::{Boxed, Items};
use std::alloc::Global;

/// An expression of its own that is the same.
#[cycle(copied)]
pub fn copied(alloc: Global, e: &Bound) -> Result<Bound, NoMemory>
    ensures { IfOk result (λ b. b ≡ e.now) }
{
    Ok(match e {
        Bound::Value(v) => Bound::Value(copy(alloc, v)?),
        Bound::Column(place) => Bound::Column(*place),
        Bound::Not(of) => Bound::Not(boxed(alloc, of.get())?),
        Bound::Minus(of) => Bound::Minus(boxed(alloc, of.get())?),
        Bound::Plus(of) => Bound::Plus(boxed(alloc, of.get())?),
        Bound::Length(of) => Bound::Length(boxed(alloc, of.get())?),
        Bound::Abs(of) => Bound::Abs(boxed(alloc, of.get())?),
        Bound::Binary { op, left, right } => Bound::Binary {
            op: *op,
            left: boxed(alloc, left.get())?,
            right: boxed(alloc, right.get())?,
        },
        Bound::Like { not, left, pattern } => Bound::Like {
            not: *not,
            left: boxed(alloc, left.get())?,
            pattern: boxed(alloc, pattern.get())?,
        },
        Bound::Between {
            not,
            left,
            low,
            high,
        } => Bound::Between {
            not: *not,
            left: boxed(alloc, left.get())?,
            low: boxed(alloc, low.get())?,
            high: boxed(alloc, high.get())?,
        },
        Bound::OneOf { not, left, list } => Bound::OneOf {
            not: *not,
            left: boxed(alloc, left.get())?,
            list: all(alloc, list.as_slice())?,
        },
        Bound::Coalesce(list) => Bound::Coalesce(all(alloc, list.as_slice())?),
    })
}

#[cycle(copied)]
fn boxed(alloc: Global, e: &Bound) -> Result<Boxed<Bound>, NoMemory>
    ensures { IfOk result (λ b. b ≡ e.now) }
{
    Boxed::new(alloc, copied(alloc, e)?)
}

#[cycle(copied)]
fn all(alloc: Global, list: &[Bound]) -> Result<Items<Bound>, NoMemory>
    ensures { IfOk result (λ bs. bs ≡ list.now) }
{
    let mut found = Items::new(alloc);
    for e in list {
        found.push(copied(alloc, e)?)?;
    }
    Ok(found)
}
