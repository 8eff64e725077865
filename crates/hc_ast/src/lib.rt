//! SQL statements as trees, and the text that each is printed as.
//!
//! A contract sees an `Items` as the list of its elements and a `Boxed` as what is in it, so a tree is
//! plain data there: two trees are equal where they are written alike.
#![tactic(auto)]

mod bound;
mod expression;
mod expression_text;
mod kind;
mod operator;
mod phrase;
mod query;
mod query_text;
mod statement;
mod statement_text;
mod table;
mod words;

pub use bound::Bound;
pub use expression::Expr;
pub use hc_text::NoMemory;
pub use kind::{StatementKind, statement_kind};
pub use operator::BinaryOp;
pub use query::{FromTable, Item, Select, Term};
pub use statement::{Assign, ExprRow, Stmt};
pub use statement_text::print;
pub use table::{ColumnDef, ColumnRule, KeyRule};
