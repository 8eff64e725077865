// What operators make of operands that are bound or have a fault: the first operand's fault comes first.
ghost use Rattle.std.specs.Prelude.{◌≡◌, List, IfOk};
ghost use Rattle.std.specs.Option.{option_and_then};
ghost use Rattle.hc_ast.specs.declared.bound.Bound.TheVariants as bound;
ghost use Rattle.hc_schema.specs.Binding.Classes.{common};
ghost use Rattle.hc_schema.specs.declared.typed.Typed.{Typed as A-typed};
ghost use Rattle.hc_schema.specs.Binding.Faults.{Judged, each};
ghost use Rattle.hc_schema.specs.Binding.Expressions.{made, values_of, unary, binary, one_of, like, between, condition};
ghost use Rattle.hc_bind.specs.Answers.{Tells, TellsBy};
ghost use Rattle.hc_bind.specs.Operators.{maker};

use crate::BindFault;
use crate::class::{common, compared, fits, of_both, one_class, operator_class, result_if};
use hc_ast::{BinaryOp, Bound};
use hc_schema::Typed;
use hc_value::{Class, NoMemory};
use sqlite_items::{Boxed, Items};
use std::alloc::Global;

/// An operator with one operand.
#[derive(Clone, Copy, Debug, PartialEq, Eq)]
pub enum UnaryOp {
    Not,
    Minus,
    Plus,
}

fn made(class: Option<Class>, value: Bound) -> Result<Typed, BindFault>
    ensures { Tells (made class value) result }
{
    match class {
        Some(class) => Ok(Typed { value, class }),
        None => Err(BindFault::Mixed),
    }
}

fn unary_value(alloc: Global, form: UnaryOp, of: Bound) -> Result<Bound, NoMemory>
    ensures { IfOk result (λ b. b ≡ maker form of) }
{
    let of = Boxed::new(alloc, of)?;
    Ok(match form {
        UnaryOp::Not => Bound::Not(of),
        UnaryOp::Minus => Bound::Minus(of),
        UnaryOp::Plus => Bound::Plus(of),
    })
}

/// An operator with one operand, which is an integer.
pub fn unary(alloc: Global, form: UnaryOp, of: Result<Typed, BindFault>) -> Result<Typed, BindFault>
    ensures { (j : Judged A-typed) → Tells j of → Tells (unary (maker form) j) result }
{
    let t = of?;
    let class = result_if(fits(t.class, Class::Int), Class::Int);
    made(class, unary_value(alloc, form, t.value)?)
}

fn binary_value(alloc: Global, op: BinaryOp, left: Bound, right: Bound) -> Result<Bound, NoMemory>
    ensures { IfOk result (λ b. b ≡ bound.Binary op left right) }
{
    let left = Boxed::new(alloc, left)?;
    let right = Boxed::new(alloc, right)?;
    Ok(Bound::Binary { op, left, right })
}

/// An operator between two.
pub fn binary(
    alloc: Global,
    op: BinaryOp,
    left: Result<Typed, BindFault>,
    right: Result<Typed, BindFault>,
) -> Result<Typed, BindFault>
    ensures { (j k : Judged A-typed) → Tells j left → Tells k right → Tells (binary op j k) result }
{
    let l = left?;
    let r = right?;
    let class = operator_class(op, l.class, r.class);
    made(class, binary_value(alloc, op, l.value, r.value)?)
}

fn like_value(alloc: Global, not: bool, left: Bound, pattern: Bound) -> Result<Bound, NoMemory>
    ensures { IfOk result (λ b. b ≡ bound.Like not left pattern) }
{
    let left = Boxed::new(alloc, left)?;
    let pattern = Boxed::new(alloc, pattern)?;
    Ok(Bound::Like { not, left, pattern })
}

/// LIKE, of two texts.
pub fn like(
    alloc: Global,
    not: bool,
    left: Result<Typed, BindFault>,
    pattern: Result<Typed, BindFault>,
) -> Result<Typed, BindFault>
    ensures { (j k : Judged A-typed) → Tells j left → Tells k pattern → Tells (like not j k) result }
{
    let l = left?;
    let p = pattern?;
    let class = of_both(Class::Text, l.class, p.class, Class::Int);
    made(class, like_value(alloc, not, l.value, p.value)?)
}

fn between_value(
    alloc: Global,
    not: bool,
    left: Bound,
    low: Bound,
    high: Bound,
) -> Result<Bound, NoMemory>
    ensures { IfOk result (λ b. b ≡ bound.Between not left low high) }
{
    let left = Boxed::new(alloc, left)?;
    let low = Boxed::new(alloc, low)?;
    let high = Boxed::new(alloc, high)?;
    Ok(Bound::Between {
        not,
        left,
        low,
        high,
    })
}

/// BETWEEN, of three of one class.
pub fn between(
    alloc: Global,
    not: bool,
    left: Result<Typed, BindFault>,
    low: Result<Typed, BindFault>,
    high: Result<Typed, BindFault>,
) -> Result<Typed, BindFault>
    ensures { (i j k : Judged A-typed) → Tells i left → Tells j low → Tells k high → Tells (between not i j k) result }
{
    let t = left?;
    let l = low?;
    let h = high?;
    let class = compared(common_of_three(t.class, l.class, h.class));
    made(class, between_value(alloc, not, t.value, l.value, h.value)?)
}

// The one class of three, if they have one.
fn common_of_three(first: Class, second: Class, third: Class) -> Option<Class>
    ensures { result ≡ option_and_then (λ class. common class third) (common first second) }
{
    match common(first, second) {
        Some(class) => common(class, third),
        None => None,
    }
}

fn one_of_value(alloc: Global, not: bool, left: Bound, list: Vec<Typed>) -> Result<Bound, NoMemory>
    ensures { IfOk result (λ b. b ≡ bound.OneOf not left (values_of list.items)) }
{
    let left = Boxed::new(alloc, left)?;
    let list = values(alloc, list)?;
    Ok(Bound::OneOf { not, left, list })
}

/// IN, of operands of one class.
pub fn one_of(
    alloc: Global,
    not: bool,
    left: Result<Typed, BindFault>,
    list: Result<Vec<Typed>, BindFault>,
) -> Result<Typed, BindFault>
    ensures { (j : Judged A-typed) (ks : List (Judged A-typed)) → Tells j left → TellsBy (λ v. v.items) (each ks) list → Tells (one_of not j ks) result }
{
    let l = left?;
    let list = list?;
    let class = compared(one_class(l.class, list.as_slice()));
    made(class, one_of_value(alloc, not, l.value, list)?)
}

/// The expressions alone.
pub fn values(alloc: Global, list: Vec<Typed>) -> Result<Items<Bound>, NoMemory>
    ensures { IfOk result (λ bs. bs ≡ values_of list.items) }
{
    let values: Vec<Bound> = list.into_iter().map(|t| t.value).collect(alloc)?;
    Ok(Items::from_vec(values))
}

/// A condition is an integer or NULL.
pub fn condition(e: Result<Typed, BindFault>) -> Result<Typed, BindFault>
    ensures { (j : Judged A-typed) → Tells j e → Tells (condition j) result }
{
    let t = e?;
    if fits(t.class, Class::Int) {
        Ok(t)
    } else {
        Err(BindFault::Mixed)
    }
}
