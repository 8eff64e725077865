//! Tables and rows as cells: keys with their records, as a store keeps them.
//!
//! `specs/Tables.antt` says what a table is, `specs/Databases.antt` what a database is, and `specs/Cells.antt` which
//! cells stand for them. `cells_of` gives the catalog cells of a table and `table_of` the table of those in its
//! catalog range; `row_cells` gives the cells of a row. The ranges say where in the store they are.
#![tactic(auto)]

mod bound_statement;
mod catalog;
mod checks;
mod entry;
pub mod laws;
mod names;
mod path;
mod range;
mod reading;
mod row;
mod table;
mod tree;
mod typed;

pub use bound_statement::{
    Aggregate, AggregateKind, BoundRow, BoundSelect, BoundSet, BoundStmt, SortKey,
};
pub use catalog::{catalog_lens, cells_of, table_of};
pub use hc_core::Cell;
pub use hc_value::NoMemory;
pub use path::Path;
pub use range::{catalog_range, tree_range, value_range, whole_catalog};
pub use row::{Row, row_cells, row_lens, row_of};
pub use table::{Column, Index, IndexKind, Table};
pub use tree::next_tree;
pub use typed::{Called, Computed, Function, Typed};
