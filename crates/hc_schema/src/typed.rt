use crate::{Aggregate, AggregateKind};
use hc_ast::Bound;
use hc_value::Class;

/// A bound expression, with the class of the values other than NULL that it may have.
#[derive(Debug, Drop)]
pub struct Typed {
    pub value: Bound,
    pub class: Class,
}

/// A function that has a name.
#[derive(Clone, Copy, Debug, PartialEq, Eq)]
pub enum Function {
    Length,
    Abs,
    Coalesce,
    /// An aggregate over the rows of a group.
    Over(AggregateKind),
}

/// A function, and the class of a call of it.
#[derive(Clone, Copy, Debug)]
pub struct Called {
    pub function: Function,
    pub class: Class,
}

/// An aggregate, and the class of its value.
#[derive(Drop)]
pub struct Computed {
    pub aggregate: Aggregate,
    pub class: Class,
}
