// What follows a left operand: an operator and its other operands.
ghost use Rattle.std.specs.Prelude.{◌≡◌, IfOk, if◌then◌else◌};
ghost use Rattle.hc_grammar.specs.Expressions.{applied};
ghost use Rattle.hc_parse.specs.Tails.{tail_seen};

use hc_ast::{BinaryOp, Expr, NoMemory};
use sqlite_items::{Boxed, Items};
use std::alloc::Global;

/// An operator and the operands on its right.
#[derive(Debug, Drop)]
pub enum Tail {
    Binary(BinaryOp, Boxed<Expr>),
    OneOf(bool, Items<Expr>),
    Like(bool, Boxed<Expr>),
    Between(bool, Boxed<Expr>, Boxed<Expr>),
}

/// A left operand with what follows it.
#[inline(never)]
pub fn applied(alloc: Global, left: Boxed<Expr>, tail: Tail) -> Result<Boxed<Expr>, NoMemory>
    ensures { IfOk result (λ made. made ≡ applied left (tail_seen tail)) }
{
    Boxed::new(alloc, joined(left, tail))
}

/// The same without a box.
#[inline(always)]
pub fn joined(left: Boxed<Expr>, tail: Tail) -> Expr
    ensures { result ≡ applied left (tail_seen tail) }
{
    match tail {
        Tail::Binary(op, right) => Expr::Binary { op, left, right },
        Tail::OneOf(not, list) => Expr::OneOf { not, left, list },
        Tail::Like(not, pattern) => Expr::Like { not, left, pattern },
        Tail::Between(not, low, high) => Expr::Between {
            not,
            left,
            low,
            high,
        },
    }
}

/// IS NOT, or IS.
pub fn is_or_is_not(is_not: bool) -> BinaryOp
    ensures { result ≡ (if is_not then BinaryOp.IsNot else BinaryOp.Is) }
{
    if is_not {
        BinaryOp::IsNot
    } else {
        BinaryOp::Is
    }
}
