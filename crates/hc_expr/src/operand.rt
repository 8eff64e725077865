// A value on the way through an expression: one of the row's or of the expression's, or one that was made.
ghost use Rattle.std.specs.Prelude.{◌≡◌, Some, slice_index_or};
ghost use Rattle.hc_value.specs.declared.value.Value.TheVariants.{Null};
ghost use Rattle.hc_expr.specs.Arithmetic.{Outcome};
ghost use Rattle.hc_expr.specs.Values.{value_or};
ghost use Rattle.hc_expr.specs.Operands.{held, Gives};

use crate::EvalFault;
use hc_value::{Value, copy};
use std::alloc::Global;

#[derive(Drop)]
pub enum Operand<'a> {
    Lent(&'a Value),
    Made(Value),
}

impl<'a> Operand<'a> {
    pub fn get(&self) -> &Value
        ensures { result.now ≡ held self.now }
    {
        match self {
            Operand::Lent(v) => v,
            Operand::Made(v) => v,
        }
    }

    /// The value, or the other one in place of NULL.
    pub fn or(self, other: Operand<'a>) -> Operand<'a>
        ensures { held result ≡ value_or (held self.entry) (held other.entry) }
    {
        match self.get() {
            Value::Null => other,
            _ => self,
        }
    }

    /// The value as one of its own. One that was made is not copied.
    pub fn into_value(self, alloc: Global) -> Result<Value, EvalFault>
        ensures { Gives (λ v. v) result (Some (held self.entry)) }
    {
        match self {
            Operand::Lent(v) => match copy(alloc, v) {
                Ok(v) => Ok(v),
                Err(_) => Err(EvalFault::NoMemory),
            },
            Operand::Made(v) => Ok(v),
        }
    }
}

/// The row's value at a place; NULL where the row has none there.
pub fn column<'a>(row: &'a [Value], place: u32) -> Operand<'a>
    ensures { held result ≡ slice_index_or row.now place Null }
{
    match row.get(place as usize) {
        Some(v) => Operand::Lent(v),
        None => Operand::Made(Value::Null),
    }
}

/// What an operation gave.
pub fn made<'a>(found: Option<Value>) -> Result<Operand<'a>, EvalFault>
    ensures { Gives held result found }
{
    match found {
        Some(v) => Ok(Operand::Made(v)),
        None => Err(EvalFault::Overflow),
    }
}
