// The command that a text is.
ghost use Rattle.std.specs.Prelude.{◌≡◌, ◌<◌, ◌^◌, length, IfOk, IfErr, MatchOption};
ghost use Rattle.hc_lex.specs.Reading.{HasTokens};
ghost use Rattle.hc_reading.specs.Commands.{IsCommandOf, command_of_statement};

use hc_ast::Stmt;
use hc_lex::{LexFault, Token, tokens};
use hc_meaning::Command;
use hc_parse::{ParseFault, parse};
use hc_transcript::Refusal;
use hc_value::NoMemory;
use std::alloc::{AllocError, Global};

/// What the text of one statement, of less than 2^32 bytes, asks for. A text that is no statement is a command too: its fault
/// of least place.
///
/// # Errors
///
/// `NoMemory` where an allocation is refused.
pub fn command_of(alloc: Global, text: &str) -> Result<Command, NoMemory>
    requires { length text.now < 2 ^ 32 }
    ensures { IfOk result (IsCommandOf text.now) }
{
    match tokens(alloc, text) {
        Ok(found) => parsed(alloc, text, found.as_slice()),
        Err(LexFault::Bad { at, kind }) => Ok(Command::Fault(Refusal::Lex { kind, at })),
        Err(LexFault::NoMemory) => Err(AllocError),
    }
}

fn parsed(alloc: Global, text: &str, tokens: &[Token]) -> Result<Command, NoMemory>
    requires length { length text.now < 2 ^ 32 }
    requires tokens { HasTokens text.now tokens.now }
    ensures { IfOk result (IsCommandOf text.now) }
{
    match parse(alloc, text, tokens) {
        Ok(statement) => Ok(command_of_statement(statement)),
        Err(ParseFault::Syntax { at }) => Ok(Command::Fault(Refusal::Syntax { at })),
        Err(ParseFault::TooDeep { at }) => Ok(Command::Fault(Refusal::TooDeep { at })),
        Err(ParseFault::NoMemory) => Err(AllocError),
    }
}

fn command_of_statement(statement: Stmt) -> Command
    ensures { result ≡ command_of_statement statement }
{
    match statement {
        Stmt::Begin => Command::Begin,
        Stmt::Commit => Command::Commit,
        Stmt::Rollback => Command::Rollback,
        Stmt::RollbackTo(name) => Command::RollbackTo(name),
        Stmt::Savepoint(name) => Command::Savepoint(name),
        Stmt::Release(name) => Command::Release(name),
        other => Command::Run(other),
    }
}
