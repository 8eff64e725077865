//! The names of a statement resolved: `bind_ungrouped` gives a statement its bound form over tables, or its first fault in the
//! order of text. Queries with groups are left.
//!
//! The rules are definitions of `hc_schema`, in `specs/Binding`; the contract of `bind_ungrouped` cites them.
#![tactic(auto)]

mod aggregate;
mod call;
mod change;
mod class;
mod copying;
mod fault;
mod function;
mod names;
mod operator;
mod order;
mod places;
mod query;
mod row;
mod scope;
mod setting;
mod statement;
mod writing;

pub use fault::BindFault;
pub use statement::bind_ungrouped;
