// The limits of levels and of operators.
use crate::parse::reads;
use std::alloc::Global;
use std::test::Fail;

// A text, so often as is told, between two others.
fn repeated(
    alloc: Global,
    front: &str,
    part: &str,
    count: u32,
    back: &str,
) -> Result<String, Fail> {
    let mut text = String::from_str(alloc, front)?;
    for _ in 0..count {
        text.push_str(part)?;
    }
    text.push_str(back)?;
    Ok(text)
}

// Parts after SELECT, and the answers where 100 of them stand there and where one more does.
const OPENING: [(&str, &str, &str); 7] = [
    ("(", "syntax 107", "deep 107"),
    ("NOT ", "syntax 407", "deep 407"),
    ("- ", "syntax 207", "deep 207"),
    ("+", "syntax 107", "deep 107"),
    ("f(", "syntax 207", "deep 208"),
    ("1, f(", "syntax 507", "deep 511"),
    ("1 IN (", "syntax 607", "deep 612"),
];

#[test]
fn a_hundred_levels_may_be_open(rt: HostRuntime) -> Result<(), Fail> {
    let alloc = rt.alloc();
    for opening in &OPENING {
        let most = repeated(alloc, "SELECT ", opening.0, 100, "")?;
        reads(&rt, alloc, most.as_str(), opening.1)?;
        let more = repeated(alloc, "SELECT ", opening.0, 101, "")?;
        reads(&rt, alloc, more.as_str(), opening.2)?;
    }
    Ok(())
}

// What stands after 100 open parentheses, and the answer.
const DEEPEST: [(&str, &str); 9] = [
    ("-9223372036854775808", "deep 107"),
    ("count(*)", "deep 112"),
    ("a IN (1)", "deep 112"),
    ("a IN 5", "syntax 112"),
    ("a IN", "syntax 111"),
    ("a NOT IN (1)", "deep 116"),
    ("a NOT LIKE 1", "syntax 119"),
    ("NOT a", "deep 107"),
    ("1", "syntax 108"),
];

#[test]
fn no_level_opens_after_the_last(rt: HostRuntime) -> Result<(), Fail> {
    let alloc = rt.alloc();
    for deepest in &DEEPEST {
        let text = repeated(alloc, "SELECT ", "(", 100, deepest.0)?;
        reads(&rt, alloc, text.as_str(), deepest.1)?;
    }
    Ok(())
}

// What stands after 1,000 operators, and the answer.
const LONGEST: [(&str, &str); 19] = [
    (" FROM", "syntax 2013"),
    (" OR 1", "deep 2009"),
    (" AND 1", "deep 2009"),
    ("=1", "deep 2008"),
    ("<1", "deep 2008"),
    ("+1", "deep 2008"),
    ("*1", "deep 2008"),
    ("||1", "deep 2008"),
    (" NOT 5", "deep 2009"),
    (" NOT", "deep 2009"),
    (" NOT IN (1)", "deep 2009"),
    (" NOT LIKE 1", "deep 2009"),
    (" NOT BETWEEN 1 AND 2", "deep 2009"),
    (" IN (1)", "deep 2009"),
    (" LIKE 1", "deep 2009"),
    (" BETWEEN 1 AND 2", "deep 2009"),
    (" IS 1", "deep 2009"),
    (" IS NOT 1", "deep 2009"),
    (", -1+1 WHERE (1+1", "syntax 2025"),
];

#[test]
fn a_thousand_operators_are_counted(rt: HostRuntime) -> Result<(), Fail> {
    let alloc = rt.alloc();
    for longest in &LONGEST {
        let text = repeated(alloc, "SELECT 1", "+1", 1000, longest.0)?;
        reads(&rt, alloc, text.as_str(), longest.1)?;
    }
    Ok(())
}

#[test]
fn levels_end_with_their_operand(rt: HostRuntime) -> Result<(), Fail> {
    let alloc = rt.alloc();
    let signs = repeated(alloc, "SELECT ", "- ", 100, "a IN (1")?;
    reads(&rt, alloc, signs.as_str(), "syntax 214")?;
    let lists = repeated(alloc, "SELECT (1)", ", (1)", 200, " FROM 1")?;
    reads(&rt, alloc, lists.as_str(), "syntax 1016")
}

#[test]
fn a_statement_may_reach_the_limits(rt: HostRuntime) -> Result<(), Fail> {
    let alloc = rt.alloc();
    let open = repeated(alloc, "SELECT ", "(", 100, "1")?;
    let closed = repeated(alloc, open.as_str(), ")", 100, "")?;
    reads(&rt, alloc, closed.as_str(), "SELECT 1")?;
    let sum = repeated(alloc, "SELECT 1", "+1", 100, "")?;
    let front = repeated(alloc, "SELECT ", "( ", 100, "1")?;
    let canonical = repeated(alloc, front.as_str(), " + 1 )", 100, "")?;
    reads(&rt, alloc, sum.as_str(), canonical.as_str())?;
    reads(&rt, alloc, canonical.as_str(), canonical.as_str())
}

#[test]
fn canonical_text_may_be_too_deep(rt: HostRuntime) -> Result<(), Fail> {
    let alloc = rt.alloc();
    let sum = repeated(alloc, "SELECT 1", "+1", 101, "")?;
    let front = repeated(alloc, "SELECT ", "( ", 101, "1")?;
    let canonical = repeated(alloc, front.as_str(), " + 1 )", 101, "")?;
    reads(&rt, alloc, sum.as_str(), canonical.as_str())?;
    reads(&rt, alloc, canonical.as_str(), "deep 207")
}
