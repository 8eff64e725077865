use crate::BinaryOp;
use hc_value::{Str, Value};
use sqlite_items::{Boxed, Items};

/// An expression as it is written. Its parentheses are gone, since the tree has the grouping.
#[derive(Debug, Drop)]
pub enum Expr {
    /// A literal. One below zero is the least integer alone: any other is a `Minus` of its number.
    Value(Value),
    /// A column, with a table's name where one is written before it.
    Name {
        table: Option<Boxed<Str>>,
        column: Str,
    },
    /// `NOT`
    Not(Boxed<Expr>),
    /// A minus with one operand.
    Minus(Boxed<Expr>),
    /// A plus with one operand.
    Plus(Boxed<Expr>),
    /// An operator between two operands.
    Binary {
        op: BinaryOp,
        left: Boxed<Expr>,
        right: Boxed<Expr>,
    },
    /// `IN`, with one expression in the list at least.
    OneOf {
        not: bool,
        left: Boxed<Expr>,
        list: Items<Expr>,
    },
    /// `LIKE`
    Like {
        not: bool,
        left: Boxed<Expr>,
        pattern: Boxed<Expr>,
    },
    /// `BETWEEN`
    Between {
        not: bool,
        left: Boxed<Expr>,
        low: Boxed<Expr>,
        high: Boxed<Expr>,
    },
    /// A function's call with one argument at least. It may have any name.
    Call {
        name: Boxed<Str>,
        args: Items<Expr>,
    },
    /// `name(*)`
    CallAll {
        name: Str,
    },
}
