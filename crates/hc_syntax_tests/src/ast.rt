//! Tests of the public functions of `hc_ast`.
// Expected texts are worked by hand from the rules.
mod expressions;
mod queries;
mod statements;
mod trees;

use hc_ast::{StatementKind, Stmt, print, statement_kind};
use hc_value::Str;
use std::alloc::Global;
use std::process::Abort;
use std::test::Fail;
use trees::Made;

// What is printed. Over a type that it does not know, a function's proof has a drop as one step.
trait Printed {
    fn printed(&self, alloc: Global) -> Made<Str>;

    fn kind(&self) -> StatementKind;
}

impl Printed for Stmt {
    fn printed(&self, alloc: Global) -> Made<Str> {
        print(alloc, self)
    }

    fn kind(&self) -> StatementKind {
        statement_kind(self)
    }
}

fn text_of<P: Printed + Drop>(alloc: Global, made: Made<P>) -> Made<Str> {
    made?.printed(alloc)
}

fn kind_of<P: Printed + Drop>(made: Made<P>) -> Made<StatementKind> {
    Ok(made?.kind())
}

fn is_printed<P: Printed + Drop>(
    rt: &impl Abort,
    alloc: Global,
    made: Made<P>,
    text: &str,
) -> Result<(), Fail> {
    let printed = text_of(alloc, made)?;
    assert_eq!(rt; printed.as_str(), text);
    Ok(())
}
