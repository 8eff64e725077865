// Reads texts, and tells what was found by numbers.
use hc_ast::{NoMemory, Stmt, print};
use hc_lex::{LexFault, LexKind, Span, Token, cut, tokens};
use hc_parse::{ParseFault, parse};
use std::alloc::Global;

/// What is told of a tree. Over a type that it does not know, a function's proof has a drop as one step.
pub trait Told {
    fn told(&self, alloc: Global) -> Result<u64, NoMemory>;
}

impl Told for Stmt {
    fn told(&self, alloc: Global) -> Result<u64, NoMemory> {
        let text = print(alloc, self)?;
        Ok(checksum(7, text.as_bytes()))
    }
}

/// A checksum with more bytes: the one of Fowler, Noll and Vo with 64 bits.
pub fn checksum(before: u64, bytes: &[u8]) -> u64 {
    let mut sum = before;
    for b in bytes {
        sum = (sum ^ u64::from(*b)).wrapping_mul(0x0000_0100_0000_01b3);
    }
    sum
}

pub fn mixed(before: u64, number: u64) -> u64 {
    checksum(before, &number.to_be_bytes())
}

/// How many statements a script has, if memory is enough.
pub fn count_statements(alloc: Global, text: &str) -> Result<usize, NoMemory> {
    if text.len() >= 1 << 32 {
        return Ok(0);
    }
    let spans = cut(alloc, text)?;
    Ok(spans.as_slice().len())
}

/// How many tokens the statements of a script have.
pub fn count_tokens(alloc: Global, text: &str, spans: &[Span]) -> Result<usize, NoMemory> {
    let mut count: usize = 0;
    for span in spans {
        count = count.saturating_add(statement_tokens(alloc, part(text, span))?);
    }
    Ok(count)
}

fn statement_tokens(alloc: Global, text: &str) -> Result<usize, NoMemory> {
    if text.len() >= 1 << 32 {
        return Ok(0);
    }
    match tokens(alloc, text) {
        Ok(found) => Ok(found.as_slice().len()),
        Err(_) => Ok(0),
    }
}

/// The text of a statement.
pub fn part<'a>(text: &'a str, span: &Span) -> &'a str {
    text.get(span.from as usize..span.to as usize).unwrap_or("")
}

/// How many of the texts are statements.
pub fn count_trees(alloc: Global, text: &str, spans: &[Span]) -> Result<usize, NoMemory> {
    let mut count: usize = 0;
    for span in spans {
        if is_statement(alloc, part(text, span))? {
            count = count.saturating_add(1);
        }
    }
    Ok(count)
}

/// Cuts a script, reads the tokens and the tree of each statement, and drops them.
pub fn read_script(alloc: Global, text: &str) -> Result<usize, NoMemory> {
    if text.len() >= 1 << 32 {
        return Ok(0);
    }
    let spans = cut(alloc, text)?;
    count_trees(alloc, text, spans.as_slice())
}

/// Reads the tokens of each statement of a script, and drops them.
pub fn read_tokens(alloc: Global, text: &str) -> Result<usize, NoMemory> {
    if text.len() >= 1 << 32 {
        return Ok(0);
    }
    let spans = cut(alloc, text)?;
    count_tokens(alloc, text, spans.as_slice())
}

/// Whether a text is a statement.
pub fn is_statement(alloc: Global, text: &str) -> Result<bool, NoMemory> {
    if text.len() >= 1 << 32 {
        return Ok(false);
    }
    match tokens(alloc, text) {
        Ok(found) => is_tree(parse(alloc, text, found.as_slice())),
        Err(_) => Ok(false),
    }
}

fn is_tree<T: Drop>(found: Result<T, ParseFault>) -> Result<bool, NoMemory> {
    Ok(found.is_ok())
}

/// A number that tells what a text is read as.
pub fn answer(alloc: Global, text: &str) -> Result<u64, NoMemory> {
    if text.len() >= 1 << 32 {
        return Ok(0);
    }
    let spans = cut(alloc, text)?;
    let cuts = sum_of_spans(spans.as_slice());
    match tokens(alloc, text) {
        Ok(found) => {
            let tree = answer_of(alloc, parse(alloc, text, found.as_slice()))?;
            Ok(mixed(mixed(cuts, sum_of_tokens(found.as_slice())), tree))
        }
        Err(fault) => Ok(mixed(cuts, lexical(fault))),
    }
}

fn answer_of<T: Told + Drop>(alloc: Global, found: Result<T, ParseFault>) -> Result<u64, NoMemory> {
    match found {
        Ok(tree) => tree.told(alloc),
        Err(ParseFault::Syntax { at }) => Ok(mixed(1, u64::from(at))),
        Err(ParseFault::TooDeep { at }) => Ok(mixed(2, u64::from(at))),
        Err(ParseFault::NoMemory) => Ok(3),
    }
}

fn lexical(fault: LexFault) -> u64 {
    match fault {
        LexFault::Bad { at, kind } => {
            let kind = match kind {
                LexKind::Char => 4,
                LexKind::OpenText => 5,
                LexKind::BadBlob => 6,
                LexKind::TooLarge => 7,
            };
            mixed(kind, u64::from(at))
        }
        LexFault::NoMemory => 8,
    }
}

fn sum_of_spans(spans: &[Span]) -> u64 {
    let mut sum = 9;
    for span in spans {
        sum = mixed(mixed(sum, u64::from(span.from)), u64::from(span.to));
    }
    sum
}

fn sum_of_tokens(tokens: &[Token]) -> u64 {
    let mut sum = 10;
    for token in tokens {
        sum = mixed(mixed(sum, u64::from(token.from)), u64::from(token.to));
    }
    sum
}
