// Values of expressions over literals.
use crate::binding::bound;
use crate::cases::{ARITHMETIC, COMPARISONS, LIKES, LISTS, LOGIC, OVERFLOWS, TEXTS};
use hc_ast::{Bound, Expr, Item, Stmt};
use hc_expr::{EvalFault, eval};
use hc_lex::tokens;
use hc_parse::{ParseFault, parse};
use hc_value::{NoMemory, Value};
use std::alloc::Global;
use std::process::Abort;
use std::test::Fail;

// What has a value. Over a type that it does not know, a function's proof has a drop as one step.
trait Valued {
    fn shown(&self, alloc: Global) -> Result<String, Fail>;
}

impl Valued for Bound {
    fn shown(&self, alloc: Global) -> Result<String, Fail> {
        match eval(alloc, &[], self) {
            Ok(v) => text_of(alloc, &v),
            Err(EvalFault::Overflow) => Ok(String::from_str(alloc, "overflow")?),
            Err(EvalFault::NoMemory) => Ok(String::from_str(alloc, "memory")?),
        }
    }
}

impl Valued for Stmt {
    fn shown(&self, alloc: Global) -> Result<String, Fail> {
        match first_item(self) {
            Some(e) => shown_bound(alloc, bound(alloc, e)),
            None => Ok(String::from_str(alloc, "no item")?),
        }
    }
}

fn first_item(statement: &Stmt) -> Option<&Expr> {
    let Stmt::Select(query) = statement else {
        return None;
    };
    match query.items.as_slice().first() {
        Some(Item::One { value, .. }) => Some(value),
        _ => None,
    }
}

fn shown_bound<V: Valued + Drop>(
    alloc: Global,
    found: Result<Option<V>, NoMemory>,
) -> Result<String, Fail> {
    match found? {
        Some(e) => e.shown(alloc),
        None => Ok(String::from_str(alloc, "not bound")?),
    }
}

fn shown_statement<V: Valued + Drop>(
    alloc: Global,
    found: Result<V, ParseFault>,
) -> Result<String, Fail> {
    match found {
        Ok(statement) => statement.shown(alloc),
        Err(_) => Ok(String::from_str(alloc, "not parsed")?),
    }
}

fn text_of(alloc: Global, v: &Value) -> Result<String, Fail> {
    Ok(match v {
        Value::Null => String::from_str(alloc, "NULL")?,
        Value::Int(n) => format!(in alloc; "{n}")?,
        Value::Text(text) => quoted(alloc, text.as_str())?,
        Value::Blob(blob) => in_digits(alloc, blob.as_slice())?,
    })
}

fn quoted(alloc: Global, text: &str) -> Result<String, NoMemory> {
    let mut out = String::from_str(alloc, "'")?;
    for c in text.chars() {
        if c == '\'' {
            out.push('\'')?;
        }
        out.push(c)?;
    }
    out.push('\'')?;
    Ok(out)
}

fn in_digits(alloc: Global, bytes: &[u8]) -> Result<String, NoMemory> {
    let mut out = String::from_str(alloc, "X'")?;
    for byte in bytes {
        out.push(digit(*byte / 16))?;
        out.push(digit(*byte % 16))?;
    }
    out.push('\'')?;
    Ok(out)
}

fn digit(n: u8) -> char {
    match n {
        0 => '0',
        1 => '1',
        2 => '2',
        3 => '3',
        4 => '4',
        5 => '5',
        6 => '6',
        7 => '7',
        8 => '8',
        9 => '9',
        10 => 'A',
        11 => 'B',
        12 => 'C',
        13 => 'D',
        14 => 'E',
        _ => 'F',
    }
}

fn value_of(alloc: Global, text: &str) -> Result<String, Fail> {
    let query = format!(in alloc; "SELECT {text}")?;
    if query.len() >= 1 << 32 {
        return Ok(String::from_str(alloc, "long")?);
    }
    let found = tokens(alloc, query.as_str())?;
    shown_statement(alloc, parse(alloc, query.as_str(), found.as_slice()))
}

fn all_have(rt: &impl Abort, alloc: Global, cases: &[(&str, &str)]) -> Result<(), Fail> {
    for case in cases {
        let found = value_of(alloc, case.0)?;
        assert_eq!(rt; found.as_str(), case.1, "{}", case.0);
    }
    Ok(())
}

#[test]
fn arithmetic_has_its_values(rt: HostRuntime) -> Result<(), Fail> {
    all_have(&rt, rt.alloc(), &ARITHMETIC)
}

#[test]
fn comparisons_have_their_values(rt: HostRuntime) -> Result<(), Fail> {
    all_have(&rt, rt.alloc(), &COMPARISONS)
}

#[test]
fn logic_has_three_values(rt: HostRuntime) -> Result<(), Fail> {
    all_have(&rt, rt.alloc(), &LOGIC)
}

#[test]
fn lists_and_ranges_have_their_values(rt: HostRuntime) -> Result<(), Fail> {
    all_have(&rt, rt.alloc(), &LISTS)
}

#[test]
fn likes_have_their_values(rt: HostRuntime) -> Result<(), Fail> {
    all_have(&rt, rt.alloc(), &LIKES)
}

#[test]
fn texts_and_functions_have_their_values(rt: HostRuntime) -> Result<(), Fail> {
    all_have(&rt, rt.alloc(), &TEXTS)
}

#[test]
fn what_does_not_fit_overflows(rt: HostRuntime) -> Result<(), Fail> {
    for text in OVERFLOWS {
        let found = value_of(rt.alloc(), text)?;
        assert_eq!(&rt; found.as_str(), "overflow", "{text}");
    }
    Ok(())
}

// `%a%a%a%a%b` and 400 letters a: a search that looks back would not end.
#[test]
fn a_pattern_with_many_stars_takes_no_time(rt: HostRuntime) -> Result<(), Fail> {
    let alloc = rt.alloc();
    let mut text = String::from_str(alloc, "'")?;
    for _ in 0..400 {
        text.push('a')?;
    }
    text.push_str("' LIKE '%a%a%a%a%a%a%a%a%b'")?;
    let found = value_of(alloc, text.as_str())?;
    assert_eq!(&rt; found.as_str(), "0");
    Ok(())
}

#[test]
fn a_column_is_the_rows_value(rt: HostRuntime) -> Result<(), Fail> {
    let alloc = rt.alloc();
    let row = [Value::Int(7), Value::Null];
    assert_eq!(&rt; eval(alloc, &row, &Bound::Column(0)), Ok(Value::Int(7)));
    assert_eq!(&rt; eval(alloc, &row, &Bound::Column(1)), Ok(Value::Null));
    assert_eq!(&rt; eval(alloc, &row, &Bound::Column(2)), Ok(Value::Null));
    Ok(())
}
