// The statement that the tokens of a text are.
ghost use Rattle.std.specs.Prelude.{◌≡◌, ◌<◌, ◌^◌, Ok, Err, IfOk, IfErr, drop, length};
ghost use Rattle.hc_ast.specs.declared.statement.Stmt.{Stmt as Statement};
ghost use Rattle.hc_grammar.specs.Faults.{IsStatementOf, place_of};
ghost use Rattle.hc_lex.specs.Reading.{HasTokens};
ghost use Rattle.hc_parse.specs.declared.fault.ParseFault.{ParseFault as Fault};
ghost use Rattle.hc_parse.specs.Coded.{AtEnd, fault_of};
ghost use Rattle.hc_parse.specs.Laws.{HasFault, IsAnswer, IsCauseOf, IsUnlessNoMemory};

use crate::cursor::Cursor;
use crate::expressions::OPERATORS;
use crate::fault::ParseFault;
use crate::source::Source;
use crate::statement::read_statement;
use crate::stop::Stop;
use hc_ast::Stmt;
use hc_lex::Token;
use hc_lex::laws::{tokens_lie_at_characters, tokens_lie_in_order};
use std::alloc::Global;

/// How many tables FROM may have.
const TABLES: u32 = 8;

/// The statement that the tokens of a text are, or the fault of least place. The tokens are those of `hc_lex`
/// for this text, which has less than 2^32 bytes. At most 100 levels may be open at once, an expression that is part
/// of no other may have 1,000 operators, and FROM 8 tables. `NoMemory` comes where an allocation is refused.
/// The statements are a part of those of SQLite's lang.html, with rules of our own (`docs/DECISIONS.md`).
pub fn parse(alloc: Global, text: &str, tokens: &[Token]) -> Result<Stmt, ParseFault>
    requires length { length text.now < 2 ^ 32 }
    requires tokens { HasTokens text.now tokens.now }
    ensures statement { IfOk result (λ statement. IsStatementOf text.now tokens.now statement) }
    ensures fault { IfErr result (IsCauseOf text.now tokens.now) }

    // What is a statement is answered so, and so is what has a fault, unless memory runs out.
    ensures only_statement { (statement : Statement) → IsStatementOf text.now tokens.now statement → IsUnlessNoMemory result (Ok statement) }
    ensures only_fault { (fault : Fault) → HasFault text.now tokens.now fault → IsUnlessNoMemory result (Err fault) }
{
    read(alloc, text, tokens)
}

fn read(alloc: Global, text: &str, tokens: &[Token]) -> Result<Stmt, ParseFault>
    requires length { length text.now < 2 ^ 32 }
    requires tokens { HasTokens text.now tokens.now }
    ensures { IsAnswer text.now tokens.now result }
{
    // Tokens lie in their text, between characters.
    tokens_lie_in_order();
    tokens_lie_at_characters();
    let source = Source { text, tokens };
    let mut cursor = Cursor {
        at: 0,
        operators: OPERATORS,
        tables: TABLES,
    };
    let found = read_statement(alloc, &source, &mut cursor);
    match at_end(found, &source, &cursor) {
        Ok(statement) => Ok(statement),
        Err(stop) => Err(fault_of(stop, place_of(&source, &cursor))),
    }
}

// Nothing may come after a value. The type is not known here, so that its drop is one step of the proof.
#[inline(always)]
fn at_end<T: Drop>(found: Result<T, Stop>, source: &Source<'_>, cursor: &Cursor) -> Result<T, Stop>
    ensures { AtEnd source.now cursor.now found result }
{
    match found {
        Ok(value) => {
            if cursor.at < source.tokens.len() {
                Err(Stop::Unexpected)
            } else {
                Ok(value)
            }
        }
        Err(stop) => Err(stop),
    }
}

// The fault that a stop is.
fn fault_of(stop: Stop, at: u32) -> ParseFault
    ensures { result ≡ fault_of stop at }
{
    match stop {
        Stop::Unexpected => ParseFault::Syntax { at },
        Stop::TooDeep => ParseFault::TooDeep { at },
        Stop::NoMemory => ParseFault::NoMemory,
    }
}

// The place of the next token, or the end of the text.
fn place_of(source: &Source<'_>, cursor: &Cursor) -> u32
    requires { length source.now.text.now < 2 ^ 32 }
    ensures { result ≡ place_of source.now.text.now (drop cursor.now.at source.now.tokens.now) }
{
    match source.tokens.get(cursor.at) {
        Some(token) => token.from,
        None => source.text.len() as u32,
    }
}
