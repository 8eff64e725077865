//! The one table `t(id, v)` as a language: which rows it has, which statements, what these answer, change and read, and
//! which keys and records stand for its rows.
//!
//! `specs/Rows.antt` has the rows and their cells, `specs/Statements.antt` the statements, and `specs/Language.antt` the
//! language. `laws` states that it is one, and what right runs of any language give of it.
#![tactic(auto)]

mod action;
mod answers;
mod fixed_table;
pub mod laws;
mod rows;

pub use action::{Action, action_of};
pub use answers::no_statement;
pub use fixed_table::FixedTable;
pub use rows::{row_key, row_record, value_in};
