//! Tests of the public functions of `hc_parse`. Expected texts and places are worked by hand from the rules.
mod expressions;
mod faults;
mod limits;
mod statements;

use hc_ast::{Stmt, print};
use hc_lex::tokens;
use hc_parse::{ParseFault, parse};
use std::alloc::Global;
use std::process::Abort;
use std::test::Fail;

// What is printed. Over a type that it does not know, a function's proof has a drop as one step.
trait Printed {
    fn printed(&self, alloc: Global) -> Result<String, Fail>;
}

impl Printed for Stmt {
    fn printed(&self, alloc: Global) -> Result<String, Fail> {
        let text = print(alloc, self)?;
        Ok(String::from_str(alloc, text.as_str())?)
    }
}

// The canonical text of the statement, or a short name of the fault with its place.
fn answer<P: Printed + Drop>(alloc: Global, found: Result<P, ParseFault>) -> Result<String, Fail> {
    match found {
        Ok(statement) => statement.printed(alloc),
        Err(fault) => told(alloc, fault),
    }
}

fn read(alloc: Global, text: &str) -> Result<String, Fail> {
    if text.len() >= 1 << 32 {
        return Ok(String::from_str(alloc, "long")?);
    }
    let found = tokens(alloc, text)?;
    answer(alloc, parse(alloc, text, found.as_slice()))
}

fn told(alloc: Global, fault: ParseFault) -> Result<String, Fail> {
    Ok(match fault {
        ParseFault::Syntax { at } => format!(in alloc; "syntax {at}")?,
        ParseFault::TooDeep { at } => format!(in alloc; "deep {at}")?,
        ParseFault::NoMemory => String::from_str(alloc, "memory")?,
    })
}

pub fn reads(rt: &impl Abort, alloc: Global, text: &str, wanted: &str) -> Result<(), Fail> {
    let found = read(alloc, text)?;
    assert_eq!(rt; found.as_str(), wanted, "{text}");
    Ok(())
}

// Each statement is read so, and the canonical text of a statement is read as itself.
pub fn all_read(rt: &impl Abort, alloc: Global, pairs: &[(&str, &str)]) -> Result<(), Fail> {
    for pair in pairs {
        reads(rt, alloc, pair.0, pair.1)?;
        reads(rt, alloc, pair.1, pair.1)?;
    }
    Ok(())
}

pub fn all_refused(rt: &impl Abort, alloc: Global, pairs: &[(&str, &str)]) -> Result<(), Fail> {
    for pair in pairs {
        reads(rt, alloc, pair.0, pair.1)?;
    }
    Ok(())
}
