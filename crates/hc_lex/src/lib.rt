//! SQL text, cut into statements and read into tokens.
//!
//! `cut` gives the statements of a script as spans of its bytes. `tokens` gives the tokens of one
//! statement, or the fault of least place. `specs/` has the rules on characters that both follow.
#![tactic(auto)]

mod blanks;
mod character;
mod fault;
mod keyword;
pub mod laws;
mod part;
mod quotes;
mod scanner;
mod signs;
mod statements;
mod token;
mod words;

pub use fault::{LexFault, LexKind};
pub use hc_text::NoMemory;
pub use keyword::Keyword;
pub use scanner::{next_token, tokens};
pub use statements::{Span, cut};
pub use token::{Token, TokenKind};
