//! The reference model: a slow program beside the definitions, which computes what statements answer, the cut into
//! transactions, the history, the state after a number of commits and the serial run of a script, by
//! walks and copies on small inputs, and it decides whether transcripts are a right run of scripts, for
//! any number of connections. Its contracts are the definitions themselves.

mod answers;
mod commits;
mod comparison;
mod cutting;
mod execution;
mod judgement;
mod order;
mod replay;
mod rows;
mod serial;
mod shown;

pub use answers::{is_legal, others_are_read};
pub use commits::history;
pub use cutting::{cut, cut_all};
pub use execution::{run, run_all};
pub use judgement::{ascend, is_right_run};
pub use order::is_in_order;
pub use replay::state;
pub use serial::played;
pub use shown::Shown;
