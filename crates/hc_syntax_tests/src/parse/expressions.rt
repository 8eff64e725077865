// Operands and operators, each with its canonical text.
use crate::parse::all_read;
use std::test::Fail;

const OPERANDS: [(&str, &str); 18] = [
    ("select 1+2*3", "SELECT ( 1 + ( 2 * 3 ) )"),
    ("select (1)", "SELECT 1"),
    ("select ((1 + 2)) * 3", "SELECT ( ( 1 + 2 ) * 3 )"),
    (
        "select -9223372036854775808",
        "SELECT - 9223372036854775808",
    ),
    ("select 9223372036854775807", "SELECT 9223372036854775807"),
    ("select - 1", "SELECT ( - 1 )"),
    ("select - -1", "SELECT ( - ( - 1 ) )"),
    (
        "select +t.a || 'it''s'",
        "SELECT ( ( + \"t\" . \"a\" ) || 'it''s' )",
    ),
    ("select -a*b", "SELECT ( ( - \"a\" ) * \"b\" )"),
    ("select -a || b", "SELECT ( ( - \"a\" ) || \"b\" )"),
    (
        "select a, \"b \"\"c\", \"\"",
        "SELECT \"a\" , \"b \"\"c\" , \"\"",
    ),
    ("select null, 007, ''", "SELECT NULL , 7 , ''"),
    ("select x'0aFf', X'', x''", "SELECT X'0AFF' , X'' , X''"),
    (
        "select count(*), count(*) + 1",
        "SELECT \"count\" ( * ) , ( \"count\" ( * ) + 1 )",
    ),
    (
        "select f(1), f(1, a + 2, (3))",
        "SELECT \"f\" ( 1 ) , \"f\" ( 1 , ( \"a\" + 2 ) , 3 )",
    ),
    ("select \"abs\"(1)", "SELECT \"abs\" ( 1 )"),
    (
        "select asc, desc, count",
        "SELECT \"asc\" , \"desc\" , \"count\"",
    ),
    (
        "select 1 - -9223372036854775808",
        "SELECT ( 1 - - 9223372036854775808 )",
    ),
];

const TESTS: [(&str, &str); 27] = [
    (
        "SELECT a == b != c",
        "SELECT ( ( \"a\" = \"b\" ) <> \"c\" )",
    ),
    (
        "SELECT a <> b is c",
        "SELECT ( ( \"a\" <> \"b\" ) IS \"c\" )",
    ),
    ("SELECT a is not b", "SELECT ( \"a\" IS NOT \"b\" )"),
    (
        "SELECT a is not null is null",
        "SELECT ( ( \"a\" IS NOT NULL ) IS NULL )",
    ),
    (
        "SELECT a < b <= c > d >= e",
        "SELECT ( ( ( ( \"a\" < \"b\" ) <= \"c\" ) > \"d\" ) >= \"e\" )",
    ),
    ("SELECT a - b + c", "SELECT ( ( \"a\" - \"b\" ) + \"c\" )"),
    (
        "SELECT a / b % c * d",
        "SELECT ( ( ( \"a\" / \"b\" ) % \"c\" ) * \"d\" )",
    ),
    ("SELECT a in (1)", "SELECT ( \"a\" IN ( 1 ) )"),
    (
        "SELECT a not in (1, 2 or 3)",
        "SELECT ( \"a\" NOT IN ( 1 , ( 2 OR 3 ) ) )",
    ),
    (
        "SELECT a like b || c",
        "SELECT ( \"a\" LIKE ( \"b\" || \"c\" ) )",
    ),
    (
        "SELECT a not like b < c",
        "SELECT ( \"a\" NOT LIKE ( \"b\" < \"c\" ) )",
    ),
    (
        "SELECT a like b like c",
        "SELECT ( ( \"a\" LIKE \"b\" ) LIKE \"c\" )",
    ),
    (
        "SELECT a between 1 and 2",
        "SELECT ( \"a\" BETWEEN 1 AND 2 )",
    ),
    (
        "SELECT a not between 1 and 2 and b",
        "SELECT ( ( \"a\" NOT BETWEEN 1 AND 2 ) AND \"b\" )",
    ),
    (
        "SELECT a between 1 < 2 and 3 + 4",
        "SELECT ( \"a\" BETWEEN ( 1 < 2 ) AND ( 3 + 4 ) )",
    ),
    (
        "SELECT a between 1 and 2 between 3 and 4",
        "SELECT ( ( \"a\" BETWEEN 1 AND 2 ) BETWEEN 3 AND 4 )",
    ),
    (
        "SELECT a = b in (c) like d",
        "SELECT ( ( ( \"a\" = \"b\" ) IN ( \"c\" ) ) LIKE \"d\" )",
    ),
    ("SELECT not a = b", "SELECT ( NOT ( \"a\" = \"b\" ) )"),
    (
        "SELECT not not a and b",
        "SELECT ( ( NOT ( NOT \"a\" ) ) AND \"b\" )",
    ),
    (
        "SELECT a and not b or c",
        "SELECT ( ( \"a\" AND ( NOT \"b\" ) ) OR \"c\" )",
    ),
    ("SELECT not a in (1)", "SELECT ( NOT ( \"a\" IN ( 1 ) ) )"),
    (
        "SELECT - a like + b",
        "SELECT ( ( - \"a\" ) LIKE ( + \"b\" ) )",
    ),
    ("SELECT not a or b", "SELECT ( ( NOT \"a\" ) OR \"b\" )"),
    ("SELECT not a < b", "SELECT ( NOT ( \"a\" < \"b\" ) )"),
    (
        "SELECT a or b like c",
        "SELECT ( \"a\" OR ( \"b\" LIKE \"c\" ) )",
    ),
    (
        "SELECT a < b in (c)",
        "SELECT ( ( \"a\" < \"b\" ) IN ( \"c\" ) )",
    ),
    ("SELECT - a + b", "SELECT ( ( - \"a\" ) + \"b\" )"),
];

const PAIRS: [(&str, &str); 49] = [
    ("SELECT 1 OR 2 OR 3", "SELECT ( ( 1 OR 2 ) OR 3 )"),
    ("SELECT 1 OR 2 AND 3", "SELECT ( 1 OR ( 2 AND 3 ) )"),
    ("SELECT 1 OR 2 = 3", "SELECT ( 1 OR ( 2 = 3 ) )"),
    ("SELECT 1 OR 2 < 3", "SELECT ( 1 OR ( 2 < 3 ) )"),
    ("SELECT 1 OR 2 + 3", "SELECT ( 1 OR ( 2 + 3 ) )"),
    ("SELECT 1 OR 2 * 3", "SELECT ( 1 OR ( 2 * 3 ) )"),
    ("SELECT 1 OR 2 || 3", "SELECT ( 1 OR ( 2 || 3 ) )"),
    ("SELECT 1 AND 2 OR 3", "SELECT ( ( 1 AND 2 ) OR 3 )"),
    ("SELECT 1 AND 2 AND 3", "SELECT ( ( 1 AND 2 ) AND 3 )"),
    ("SELECT 1 AND 2 = 3", "SELECT ( 1 AND ( 2 = 3 ) )"),
    ("SELECT 1 AND 2 < 3", "SELECT ( 1 AND ( 2 < 3 ) )"),
    ("SELECT 1 AND 2 + 3", "SELECT ( 1 AND ( 2 + 3 ) )"),
    ("SELECT 1 AND 2 * 3", "SELECT ( 1 AND ( 2 * 3 ) )"),
    ("SELECT 1 AND 2 || 3", "SELECT ( 1 AND ( 2 || 3 ) )"),
    ("SELECT 1 = 2 OR 3", "SELECT ( ( 1 = 2 ) OR 3 )"),
    ("SELECT 1 = 2 AND 3", "SELECT ( ( 1 = 2 ) AND 3 )"),
    ("SELECT 1 = 2 = 3", "SELECT ( ( 1 = 2 ) = 3 )"),
    ("SELECT 1 = 2 < 3", "SELECT ( 1 = ( 2 < 3 ) )"),
    ("SELECT 1 = 2 + 3", "SELECT ( 1 = ( 2 + 3 ) )"),
    ("SELECT 1 = 2 * 3", "SELECT ( 1 = ( 2 * 3 ) )"),
    ("SELECT 1 = 2 || 3", "SELECT ( 1 = ( 2 || 3 ) )"),
    ("SELECT 1 < 2 OR 3", "SELECT ( ( 1 < 2 ) OR 3 )"),
    ("SELECT 1 < 2 AND 3", "SELECT ( ( 1 < 2 ) AND 3 )"),
    ("SELECT 1 < 2 = 3", "SELECT ( ( 1 < 2 ) = 3 )"),
    ("SELECT 1 < 2 < 3", "SELECT ( ( 1 < 2 ) < 3 )"),
    ("SELECT 1 < 2 + 3", "SELECT ( 1 < ( 2 + 3 ) )"),
    ("SELECT 1 < 2 * 3", "SELECT ( 1 < ( 2 * 3 ) )"),
    ("SELECT 1 < 2 || 3", "SELECT ( 1 < ( 2 || 3 ) )"),
    ("SELECT 1 + 2 OR 3", "SELECT ( ( 1 + 2 ) OR 3 )"),
    ("SELECT 1 + 2 AND 3", "SELECT ( ( 1 + 2 ) AND 3 )"),
    ("SELECT 1 + 2 = 3", "SELECT ( ( 1 + 2 ) = 3 )"),
    ("SELECT 1 + 2 < 3", "SELECT ( ( 1 + 2 ) < 3 )"),
    ("SELECT 1 + 2 + 3", "SELECT ( ( 1 + 2 ) + 3 )"),
    ("SELECT 1 + 2 * 3", "SELECT ( 1 + ( 2 * 3 ) )"),
    ("SELECT 1 + 2 || 3", "SELECT ( 1 + ( 2 || 3 ) )"),
    ("SELECT 1 * 2 OR 3", "SELECT ( ( 1 * 2 ) OR 3 )"),
    ("SELECT 1 * 2 AND 3", "SELECT ( ( 1 * 2 ) AND 3 )"),
    ("SELECT 1 * 2 = 3", "SELECT ( ( 1 * 2 ) = 3 )"),
    ("SELECT 1 * 2 < 3", "SELECT ( ( 1 * 2 ) < 3 )"),
    ("SELECT 1 * 2 + 3", "SELECT ( ( 1 * 2 ) + 3 )"),
    ("SELECT 1 * 2 * 3", "SELECT ( ( 1 * 2 ) * 3 )"),
    ("SELECT 1 * 2 || 3", "SELECT ( 1 * ( 2 || 3 ) )"),
    ("SELECT 1 || 2 OR 3", "SELECT ( ( 1 || 2 ) OR 3 )"),
    ("SELECT 1 || 2 AND 3", "SELECT ( ( 1 || 2 ) AND 3 )"),
    ("SELECT 1 || 2 = 3", "SELECT ( ( 1 || 2 ) = 3 )"),
    ("SELECT 1 || 2 < 3", "SELECT ( ( 1 || 2 ) < 3 )"),
    ("SELECT 1 || 2 + 3", "SELECT ( ( 1 || 2 ) + 3 )"),
    ("SELECT 1 || 2 * 3", "SELECT ( ( 1 || 2 ) * 3 )"),
    ("SELECT 1 || 2 || 3", "SELECT ( ( 1 || 2 ) || 3 )"),
];

#[test]
fn operands_and_literals_are_read(rt: HostRuntime) -> Result<(), Fail> {
    all_read(&rt, rt.alloc(), &OPERANDS)
}

#[test]
fn tests_have_their_operands(rt: HostRuntime) -> Result<(), Fail> {
    all_read(&rt, rt.alloc(), &TESTS)
}

#[test]
fn two_operators_group_by_their_levels(rt: HostRuntime) -> Result<(), Fail> {
    all_read(&rt, rt.alloc(), &PAIRS)
}
