//! Worked statements: what each answers, what it leaves, and what it reads, proved of the definitions of `hc_sql`.
//!
//! A statement with its text stands in `specs/`; `tests/meaning.sh` of the repository runs the texts in SQLite. No code of this
//! crate runs: the functions are empty, and their contracts are the laws.
#![tactic(auto)]

pub mod creates;
pub mod deletes;
pub mod drops;
pub mod indexed;
pub mod inserts;
pub mod keyed;
pub mod linked;
pub mod pairs;
pub mod selects;
pub mod updates;
