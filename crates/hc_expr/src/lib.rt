//! The value of a bound expression on a row.
#![tactic(auto)]

mod arithmetic;
mod comparison;
mod evaluation;
mod fault;
pub mod laws;
mod like;
mod logic;
mod operand;
mod texts;

pub use evaluation::eval;
pub use fault::EvalFault;
