//! The statements of SQL that the grammar has, read from their tokens by precedence climbing.
//!
//! `parse` answers the statement that the tokens of a text are, or their fault, or that it is out of memory (`NoMemory`):
//!
//! - `Syntax`: the place of the first token with which no statement goes on, or the text's length where the tokens end
//!   too early. A ninth table of FROM is one.
//! - `TooDeep`: the place of the token that opens the 101st level, or that begins the 1,001st operator with two sides
//!   of an expression that is part of no other.
//!
//! The grammar, what a fault is and the laws of both are in `hc_grammar`; here are the cursor and the code.
#![tactic(auto)]

mod changes;
mod columns;
mod cursor;
mod expressions;
mod fault;
mod items;
mod kinds;
mod lexeme;
mod list;
mod names;
mod parser;
mod parts;
mod precedence;
mod query;
mod quoted;
mod schema;
mod source;
mod statement;
mod stop;
mod tables;
mod tails;
mod transactions;

pub use fault::ParseFault;
pub use parser::parse;
