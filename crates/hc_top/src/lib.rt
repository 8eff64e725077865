//! The call that does the program's work, over any source and any sink.
//!
//! `top_step` reads a script, runs its statements one after another, writes the output
//! and answers a `Status`. Its contract is the main theorem: at `Done` a right output for the input
//! was written. The other modules are its parts: the command-line arguments, the reading of the input,
//! the statements of the script, the database that they run on, the text of their replies and the
//! writing of the output.
#![tactic(auto)]

mod engine;
mod execution;
mod reading;
mod script;
mod status;
mod top;
mod words;
mod writing;

pub use status::{InputKind, Status};
pub use top::top_step;
