// Reads the bytes of a script: its statements, with blanks before, between and after them.
//
// What is read is in the language of `hc_meaning`'s `specs/Input.antt`, and nothing of the
// language is refused. Each reader below consumes a text at the front, answers what it means with
// the rest after it, and answers `None` where the bytes begin with no such text.
ghost use Rattle.std.specs.Prelude.{◌≡◌, ◌≢◌, ◌<◌, ◌≤◌, ◌↔◌, ℕ, ℤ, List, ◌++◌, length, codes, IfOk, IfSome, IfNone, IsErrOf, IsTrue, MatchOption, slice_index};
ghost use Rattle.std.specs.List.{AllByRecursion};
ghost use Rattle.hc_meaning.specs.declared.statement.Statement.{Statement};
ghost use Rattle.hc_meaning.specs.Front.{BeginsOutside, BeginsWith, BeginsWithBlank, BeginsWithNumber, IsDigit};
ghost use Rattle.hc_meaning.specs.Input.{BreaksForm, IsNumber, IsScript, IsStatement};
ghost use Rattle.hc_top.specs.declared.script.ScriptError.TheVariants.{NoMemory};

use hc_meaning::{MAX_INPUT, MAX_STATEMENTS, Statement};
use std::alloc::{AllocFailed, Global};

/// Why a script was not read.
#[derive(Clone, Copy, Debug, PartialEq, Eq)]
pub enum ScriptError {
    /// The bytes are not in the language, or over one of its limits.
    Unbuilt,
    /// An allocation was refused.
    NoMemory,
}

impl<T: Drop> From<AllocFailed<T>> for ScriptError {
    ghost from_gives = { λ _ e. e ≡ NoMemory };

    fn from(_failed: AllocFailed<T>) -> ScriptError {
        ScriptError::NoMemory
    }
}

/// The statements of a script, in order. `Unbuilt` says that the bytes are no input: not in the
/// language, or over a limit.
pub fn read_script(alloc: Global, input: &[u8]) -> Result<Vec<Statement>, ScriptError>
    ensures read { IfOk result (λ statements. IsScript input.now statements.items) }
    ensures within_bytes { IfOk result (λ _. length input.now ≤ MAX_INPUT) }
    ensures within_statements { IfOk result (λ statements. length statements.items ≤ MAX_STATEMENTS) }
    ensures unbuilt { IsErrOf result ScriptError.Unbuilt → BreaksForm input.now }
{
    if input.len() > MAX_INPUT {
        return Err(ScriptError::Unbuilt);
    }
    let mut statements = Vec::new(alloc);
    let mut rest = skip_blanks(input);
    while !rest.is_empty() {
        if statements.len() >= MAX_STATEMENTS {
            return Err(ScriptError::Unbuilt);
        }
        let Some((statement, following)) = read_statement(rest) else {
            return Err(ScriptError::Unbuilt);
        };
        statements.push(statement)?;
        rest = skip_blanks(following);
    }
    Ok(statements)
}

// What follows the blanks at the front.
fn skip_blanks(bytes: &[u8]) -> &[u8]
    ensures { BeginsWithBlank bytes.now result.now }
{
    for (i, b) in bytes.iter().enumerate() {
        if !matches!(*b, b' ' | b'\n') {
            return &bytes[i..];
        }
    }
    &[]
}

// The statement at the front, and what follows it.
fn read_statement(bytes: &[u8]) -> Option<(Statement, &[u8])>
    ensures some { IfSome result (λ read. BeginsWith IsStatement bytes.now read.0 read.1.now) }
    ensures none { IfNone result ((statement : Statement) (rest : List ℕ) → ¬ BeginsWith IsStatement bytes.now statement rest) }
{
    if let Some(tail) = skip_text(bytes, b"INSERT INTO t VALUES(") {
        return read_insert(tail);
    }
    let tail = skip_text(bytes, b"SELECT v FROM t WHERE id=")?;
    read_select(tail)
}

// The same of bytes that follow the head of an INSERT.
fn read_insert(bytes: &[u8]) -> Option<(Statement, &[u8])>
    ensures some { IfSome result (λ read.
        BeginsWith IsStatement (codes "INSERT INTO t VALUES(" ++ bytes.now) read.0 read.1.now) }
    ensures none { IfNone result ((statement : Statement) (rest : List ℕ) →
        ¬ BeginsWith IsStatement (codes "INSERT INTO t VALUES(" ++ bytes.now) statement rest) }
{
    let (id, after_id) = read_number(bytes)?;
    let (v, after_v) = read_number(skip_text(after_id, b",")?)?;
    let rest = skip_text(after_v, b");")?;
    Some((Statement::Insert { id, v }, rest))
}

// The same of bytes that follow the head of a SELECT.
fn read_select(bytes: &[u8]) -> Option<(Statement, &[u8])>
    ensures some { IfSome result (λ read.
        BeginsWith IsStatement (codes "SELECT v FROM t WHERE id=" ++ bytes.now) read.0 read.1.now) }
    ensures none { IfNone result ((statement : Statement) (rest : List ℕ) →
        ¬ BeginsWith IsStatement (codes "SELECT v FROM t WHERE id=" ++ bytes.now) statement rest) }
{
    let (id, after_id) = read_number(bytes)?;
    let rest = skip_text(after_id, b";")?;
    Some((Statement::Select { id }, rest))
}

// What follows this text, where the bytes begin with it.
fn skip_text<'a>(bytes: &'a [u8], text: &[u8]) -> Option<&'a [u8]>
    ensures { MatchOption result
        ((rest : List ℕ) → bytes.now ≢ text.now ++ rest)
        (λ rest. bytes.now ≡ text.now ++ rest.now) }
{
    bytes.strip_prefix(text)
}

// The number at the front with all of its digits, and what follows it.
fn read_number(bytes: &[u8]) -> Option<(i64, &[u8])>
    ensures some { IfSome result (λ read. BeginsWithNumber bytes.now read.0 read.1.now) }
    ensures none { IfNone result ((n : ℤ) (rest : List ℕ) → ¬ BeginsWithNumber bytes.now n rest) }
{
    let (digits, rest) = split_digits(bytes);
    let number = number_of(digits)?;
    Some((number, rest))
}

// The number that these digits write, where they write one: none with a needless 0, and none
// above the greatest i64.
fn number_of(digits: &[u8]) -> Option<i64>
    requires { AllByRecursion IsDigit digits.now }
    ensures some { IfSome result (IsNumber digits.now) }
    ensures none { IfNone result ((n : ℤ) → ¬ IsNumber digits.now n) }
{
    if has_needless_zero(digits) {
        return None;
    }
    let text = str::from_utf8(digits).ok()?;
    text.parse().ok()
}

// Whether a 0 comes before another digit.
fn has_needless_zero(digits: &[u8]) -> bool
    ensures { IsTrue result ↔ ((1 < length digits.now) × (slice_index digits.now 0 ≡ 48)) }
{
    digits.len() > 1 && digits[0] == b'0'
}

// The digits at the front, and what follows them.
fn split_digits(bytes: &[u8]) -> (&[u8], &[u8])
    ensures whole { bytes.now ≡ result.0.now ++ result.1.now }
    ensures digits { AllByRecursion IsDigit result.0.now }
    ensures rest { BeginsOutside IsDigit result.1.now }
{
    for (i, b) in bytes.iter().enumerate() {
        if !b.is_ascii_digit() {
            return bytes.split_at(i);
        }
    }
    (bytes, &[])
}
