use super::is_printed;
use super::trees::*;
use hc_ast::BinaryOp;
use std::test::Fail;

const OPERATORS: [(BinaryOp, &str); 16] = [
    (BinaryOp::Or, "SELECT ( 1 OR 2 )"),
    (BinaryOp::And, "SELECT ( 1 AND 2 )"),
    (BinaryOp::Eq, "SELECT ( 1 = 2 )"),
    (BinaryOp::Ne, "SELECT ( 1 <> 2 )"),
    (BinaryOp::Is, "SELECT ( 1 IS 2 )"),
    (BinaryOp::IsNot, "SELECT ( 1 IS NOT 2 )"),
    (BinaryOp::Lt, "SELECT ( 1 < 2 )"),
    (BinaryOp::Le, "SELECT ( 1 <= 2 )"),
    (BinaryOp::Gt, "SELECT ( 1 > 2 )"),
    (BinaryOp::Ge, "SELECT ( 1 >= 2 )"),
    (BinaryOp::Add, "SELECT ( 1 + 2 )"),
    (BinaryOp::Sub, "SELECT ( 1 - 2 )"),
    (BinaryOp::Mul, "SELECT ( 1 * 2 )"),
    (BinaryOp::Div, "SELECT ( 1 / 2 )"),
    (BinaryOp::Rem, "SELECT ( 1 % 2 )"),
    (BinaryOp::Concat, "SELECT ( 1 || 2 )"),
];

#[test]
fn each_operator_has_its_spelling(rt: HostRuntime) -> Result<(), Fail> {
    let alloc = rt.alloc();
    for (op, text) in OPERATORS {
        let value = binary(alloc, op, number(1), number(2));
        is_printed(&rt, alloc, asks(alloc, value), text)?;
    }
    Ok(())
}

#[test]
fn operators_stand_in_parentheses(rt: HostRuntime) -> Result<(), Fail> {
    let alloc = rt.alloc();
    let product = binary(alloc, BinaryOp::Mul, number(2), number(3));
    let sum = binary(alloc, BinaryOp::Add, number(1), product);
    is_printed(&rt, alloc, asks(alloc, sum), "SELECT ( 1 + ( 2 * 3 ) )")?;
    let sum = binary(alloc, BinaryOp::Add, number(1), number(2));
    let product = binary(alloc, BinaryOp::Mul, sum, number(3));
    is_printed(&rt, alloc, asks(alloc, product), "SELECT ( ( 1 + 2 ) * 3 )")
}

#[test]
fn operators_of_one_operand_are_printed(rt: HostRuntime) -> Result<(), Fail> {
    let alloc = rt.alloc();
    is_printed(
        &rt,
        alloc,
        asks(alloc, minus(alloc, number(5))),
        "SELECT ( - 5 )",
    )?;
    is_printed(
        &rt,
        alloc,
        asks(alloc, plus(alloc, number(5))),
        "SELECT ( + 5 )",
    )?;
    let twice = not(alloc, not(alloc, number(5)));
    is_printed(&rt, alloc, asks(alloc, twice), "SELECT ( NOT ( NOT 5 ) )")
}

#[test]
fn literals_are_printed(rt: HostRuntime) -> Result<(), Fail> {
    let alloc = rt.alloc();
    is_printed(
        &rt,
        alloc,
        asks(alloc, number(i64::MAX)),
        "SELECT 9223372036854775807",
    )?;
    is_printed(
        &rt,
        alloc,
        asks(alloc, number(i64::MIN)),
        "SELECT - 9223372036854775808",
    )?;
    is_printed(&rt, alloc, asks(alloc, null()), "SELECT NULL")?;
    is_printed(
        &rt,
        alloc,
        asks(alloc, text(alloc, "it's \"ü\"")),
        "SELECT 'it''s \"ü\"'",
    )?;
    is_printed(&rt, alloc, asks(alloc, text(alloc, "")), "SELECT ''")?;
    is_printed(
        &rt,
        alloc,
        asks(alloc, blob(alloc, b"\x0a\xff")),
        "SELECT X'0AFF'",
    )?;
    is_printed(&rt, alloc, asks(alloc, blob(alloc, b"")), "SELECT X''")
}

#[test]
fn names_are_printed(rt: HostRuntime) -> Result<(), Fail> {
    let alloc = rt.alloc();
    is_printed(
        &rt,
        alloc,
        asks(alloc, column(alloc, "A\"b'ü")),
        "SELECT \"A\"\"b'ü\"",
    )?;
    is_printed(
        &rt,
        alloc,
        asks(alloc, column_of(alloc, "t", "c")),
        "SELECT \"t\" . \"c\"",
    )
}

#[test]
fn calls_are_printed(rt: HostRuntime) -> Result<(), Fail> {
    let alloc = rt.alloc();
    let count = call_all(name(alloc, "count"));
    is_printed(&rt, alloc, asks(alloc, count), "SELECT \"count\" ( * )")?;
    let abs = call(alloc, name(alloc, "abs"), one(alloc, number(1)));
    is_printed(&rt, alloc, asks(alloc, abs), "SELECT \"abs\" ( 1 )")?;
    let max = call(alloc, name(alloc, "max"), two(alloc, number(1), null()));
    is_printed(&rt, alloc, asks(alloc, max), "SELECT \"max\" ( 1 , NULL )")
}

#[test]
fn membership_is_printed(rt: HostRuntime) -> Result<(), Fail> {
    let alloc = rt.alloc();
    let within = one_of(alloc, false, number(1), two(alloc, number(2), number(3)));
    is_printed(&rt, alloc, asks(alloc, within), "SELECT ( 1 IN ( 2 , 3 ) )")?;
    let without = one_of(alloc, true, number(1), one(alloc, number(2)));
    is_printed(
        &rt,
        alloc,
        asks(alloc, without),
        "SELECT ( 1 NOT IN ( 2 ) )",
    )
}

#[test]
fn likeness_is_printed(rt: HostRuntime) -> Result<(), Fail> {
    let alloc = rt.alloc();
    let alike = like(alloc, false, number(1), number(2));
    is_printed(&rt, alloc, asks(alloc, alike), "SELECT ( 1 LIKE 2 )")?;
    let unlike = like(alloc, true, number(1), number(2));
    is_printed(&rt, alloc, asks(alloc, unlike), "SELECT ( 1 NOT LIKE 2 )")
}

#[test]
fn betweenness_is_printed(rt: HostRuntime) -> Result<(), Fail> {
    let alloc = rt.alloc();
    let inside = between(alloc, false, number(1), number(2), number(3));
    is_printed(
        &rt,
        alloc,
        asks(alloc, inside),
        "SELECT ( 1 BETWEEN 2 AND 3 )",
    )?;
    let outside = between(alloc, true, number(1), number(2), number(3));
    is_printed(
        &rt,
        alloc,
        asks(alloc, outside),
        "SELECT ( 1 NOT BETWEEN 2 AND 3 )",
    )
}
