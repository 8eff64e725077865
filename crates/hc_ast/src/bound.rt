use crate::BinaryOp;
use hc_value::Value;
use sqlite_items::{Boxed, Items};

/// An expression whose names are places of a row and whose functions are known.
#[derive(Debug, Drop)]
pub enum Bound {
    /// A literal.
    Value(Value),
    /// The row's value at this place, counted from 0.
    Column(u32),
    /// `NOT`
    Not(Boxed<Bound>),
    /// A minus with one operand.
    Minus(Boxed<Bound>),
    /// A plus with one operand.
    Plus(Boxed<Bound>),
    /// An operator between two bound operands.
    Binary {
        op: BinaryOp,
        left: Boxed<Bound>,
        right: Boxed<Bound>,
    },
    /// `IN`, of bound expressions.
    OneOf {
        not: bool,
        left: Boxed<Bound>,
        list: Items<Bound>,
    },
    /// `LIKE`, with both sides bound.
    Like {
        not: bool,
        left: Boxed<Bound>,
        pattern: Boxed<Bound>,
    },
    /// `BETWEEN`, with all three operands bound.
    Between {
        not: bool,
        left: Boxed<Bound>,
        low: Boxed<Bound>,
        high: Boxed<Bound>,
    },
    /// `length`
    Length(Boxed<Bound>),
    /// `abs`
    Abs(Boxed<Bound>),
    /// `coalesce`
    Coalesce(Items<Bound>),
}
