// Queries over the tables of `cases.rt`, with their bound forms or faults, which were found by hand. A row has the columns of t
// (c0 to c3), u and k in FROM's order.
pub const NAMES: [(&str, &str); 35] = [
    ("SELECT v FROM t", "select c1 from t"),
    ("SELECT * FROM t", "select c0, c1, c2, c3 from t"),
    ("SELECT t.* FROM t, u", "select c0, c1, c2, c3 from t, u"),
    (
        "SELECT u.*, * FROM t, u",
        "select c4, c5, c6, c0, c1, c2, c3, c4, c5, c6 from t, u",
    ),
    ("SELECT x.* FROM t AS x", "select c0, c1, c2, c3 from t"),
    ("SELECT x.v FROM t x, t y", "select c1 from t, t"),
    ("SELECT y.V FROM t x, t Y", "select c5 from t, t"),
    // an alias hides the table's name
    ("SELECT t.v FROM t AS x", "no table t"),
    ("SELECT t.* FROM t x", "no table t"),
    ("SELECT t.v FROM u AS t", "select c1 from u"),
    // a column of several tables
    ("SELECT v FROM t, u", "v is ambiguous"),
    ("SELECT ID FROM t, u", "ID is ambiguous"),
    ("SELECT u.v, t.v FROM t, u", "select c5, c1 from t, u"),
    ("SELECT w, s FROM t, u", "select c6, c2 from t, u"),
    ("SELECT nope FROM t", "no column nope"),
    ("SELECT t.Nope FROM t", "no column Nope"),
    ("SELECT v FROM nope", "no table nope"),
    ("SELECT v FROM T", "select c1 from t"),
    // the tables come first, each looked up before what it is called
    ("SELECT nope FROM t, t, other", "t is ambiguous"),
    ("SELECT nope FROM t, other, t", "no table other"),
    ("SELECT 1 FROM T, t", "t is ambiguous"),
    ("SELECT 1 FROM t AS x, u AS X", "X is ambiguous"),
    ("SELECT 1 FROM t AS u, u", "u is ambiguous"),
    // no table
    ("SELECT 1", "select 1"),
    ("SELECT v", "no column v"),
    ("SELECT t.v", "no table t"),
    ("SELECT k.\"order\" FROM k", "select c1 from k"),
    ("SELECT \"ORDER\" FROM k", "select c1 from k"),
    // a star of no table is told at its item
    ("SELECT u.* FROM t", "no table u"),
    ("SELECT nope, u.* FROM t", "no column nope"),
    ("SELECT u.*, nope FROM t", "no table u"),
    // classes
    (
        "SELECT NULL, coalesce(NULL, s), length(b) FROM t",
        "select NULL, coalesce(NULL, c2), length(c3) from t",
    ),
    ("SELECT v = s FROM t", "mixed classes of values"),
    ("SELECT v FROM t ORDER BY v || s", "mixed classes of values"),
    (
        "SELECT 'a' || s AS x, X'00' FROM t LIMIT 5 OFFSET 2",
        "select ('a' || c2), X'00' from t | limit 5 | offset 2",
    ),
];

pub const QUERY_CONDITIONS: [(&str, &str); 12] = [
    (
        "SELECT 1 FROM t JOIN u ON t.id = u.id WHERE w = s",
        "select 1 from t, u | where (c0 = c4), (c6 = c2)",
    ),
    (
        "SELECT 1 FROM t JOIN u ON t.id = u.id AND t.v WHERE u.v AND s = w",
        "select 1 from t, u | where (c0 = c4), c1, c5, (c2 = c6)",
    ),
    (
        "SELECT 1 FROM t JOIN u ON (t.v AND u.v) AND 1 JOIN k ON a = s WHERE NOT (1 AND 0)",
        "select 1 from t, u, k | where c1, c5, 1, (c7 = c2), (NOT (1 AND 0))",
    ),
    // an ON condition sees the tables after it
    (
        "SELECT 1 FROM t JOIN u ON a = s JOIN k ON 1",
        "select 1 from t, u, k | where (c7 = c2), 1",
    ),
    ("SELECT 1 FROM t WHERE s", "mixed classes of values"),
    ("SELECT 1 FROM t WHERE NULL", "select 1 from t | where NULL"),
    // the first fault in the order of text
    ("SELECT nope FROM t JOIN u ON other", "no column nope"),
    (
        "SELECT 1 FROM t JOIN u ON w WHERE nope",
        "mixed classes of values",
    ),
    (
        "SELECT 1 FROM t JOIN u ON other WHERE nope",
        "no column other",
    ),
    (
        "SELECT 1 FROM t WHERE nope ORDER BY other",
        "no column nope",
    ),
    (
        "SELECT 1 FROM t WHERE sum(t.v)",
        "an aggregate or a column where none may be",
    ),
    (
        "SELECT 1 FROM t JOIN u ON count(*)",
        "an aggregate or a column where none may be",
    ),
];

pub const ORDERS: [(&str, &str); 27] = [
    ("SELECT v FROM t ORDER BY 1", "select c1 from t | order c1"),
    (
        "SELECT *, 5 FROM t ORDER BY 2 DESC, 5",
        "select c0, c1, c2, c3, 5 from t | order c1 desc, 5",
    ),
    ("SELECT v FROM t ORDER BY 2", "no item has the number 2"),
    ("SELECT v FROM t ORDER BY 0", "no item has the number 0"),
    (
        "SELECT v FROM t ORDER BY 9223372036854775807",
        "no item has the number 9223372036854775807",
    ),
    (
        "SELECT v AS x FROM t ORDER BY x",
        "select c1 from t | order c1",
    ),
    // an alias wins over a column, and the first of two
    (
        "SELECT v AS id FROM t ORDER BY id",
        "select c1 from t | order c1",
    ),
    (
        "SELECT v AS id FROM t ORDER BY t.id",
        "select c1 from t | order c0",
    ),
    (
        "SELECT v AS x, id AS X FROM t ORDER BY \"x\"",
        "select c1, c0 from t | order c1",
    ),
    // an alias means nothing inside an expression
    ("SELECT v AS x FROM t ORDER BY x + 1", "no column x"),
    ("SELECT v AS x FROM t ORDER BY +x", "no column x"),
    (
        "SELECT v AS id FROM t ORDER BY id + 1",
        "select c1 from t | order (c0 + 1)",
    ),
    (
        "SELECT v FROM t ORDER BY s || 'a' DESC, id",
        "select c1 from t | order (c2 || 'a') desc, c0",
    ),
    ("SELECT v FROM t ORDER BY nope", "no column nope"),
    (
        "SELECT v FROM t ORDER BY 2, nope",
        "no item has the number 2",
    ),
    // with DISTINCT each term is an item
    (
        "SELECT DISTINCT v FROM t ORDER BY v",
        "select c1 from t | distinct | order c1",
    ),
    (
        "SELECT DISTINCT v FROM t ORDER BY t.V DESC",
        "select c1 from t | distinct | order c1 desc",
    ),
    (
        "SELECT DISTINCT v + 1 FROM t ORDER BY V + 1",
        "select (c1 + 1) from t | distinct | order (c1 + 1)",
    ),
    (
        "SELECT DISTINCT v FROM t ORDER BY id",
        "a term of ORDER BY is no item",
    ),
    (
        "SELECT DISTINCT v FROM t ORDER BY +v",
        "a term of ORDER BY is no item",
    ),
    (
        "SELECT DISTINCT v + 1 FROM t ORDER BY v + 2",
        "a term of ORDER BY is no item",
    ),
    (
        "SELECT DISTINCT s || 'a' FROM t ORDER BY s || 'A'",
        "a term of ORDER BY is no item",
    ),
    (
        "SELECT DISTINCT v IN (1, 2) FROM t ORDER BY v IN (1, 2)",
        "select (c1 IN (1, 2)) from t | distinct | order (c1 IN (1, 2))",
    ),
    (
        "SELECT DISTINCT v NOT IN (1, 2) FROM t ORDER BY v IN (1, 2)",
        "a term of ORDER BY is no item",
    ),
    ("SELECT DISTINCT v FROM t ORDER BY nope", "no column nope"),
    (
        "SELECT DISTINCT v AS x FROM t ORDER BY x, 1 DESC",
        "select c1 from t | distinct | order c1, c1 desc",
    ),
    (
        "SELECT DISTINCT * FROM t ORDER BY s, v",
        "select c0, c1, c2, c3 from t | distinct | order c2, c1",
    ),
];
