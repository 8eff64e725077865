//! The text of one statement as a command of a script: what it does to a transaction, or its fault of lexing or parsing.
//!
//! `specs/Commands.antt` says which command a text is, by the grammar alone. `command_of` finds it. `laws` states that each text
//! is one command.
#![tactic(auto)]

mod command;
pub mod laws;

pub use command::command_of;
