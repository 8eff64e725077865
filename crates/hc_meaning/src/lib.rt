//! What a right run is: the definitions that the program's main contract cites.
//!
//! `specs/RightOutput.antt` says when printed bytes are a right output for an input. It rests on
//! the language that is read (`Input`), the database and what a statement does to it (`Database`,
//! `Run`), the cut of a connection's replies into transactions (`Transactions`) and the history of
//! the commits (`History`). These definitions know lists and a fold, and nothing of the program.
//!
//! Beside them is the reference model in `reference`, a slow program that computes the functions among
//! them and judges runs of any number of connections, so that the definitions can be tried on small
//! inputs. Only tests use it.
//! `laws` states what follows from the definitions alone, and `examples` what they say of given bytes.
#![tactic(auto)]

mod answer;
mod command;
pub mod examples;
pub mod languages;
pub mod laws;
mod limits;
pub mod reference;
mod statement;
mod transaction;

pub use answer::{Answer, Db, Outcome, Ran};
pub use command::Command;
pub use limits::{MAX_INPUT, MAX_STATEMENTS};
pub use statement::Statement;
pub use transaction::{Script, Transaction};
