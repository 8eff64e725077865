// Statements over `t(id INTEGER PRIMARY KEY, v INTEGER, s TEXT, b BLOB)`, `u(id INTEGER PRIMARY KEY, v INTEGER, w TEXT)` and
// `k(a TEXT, "order" INTEGER)`, with their bound forms or faults, which were found by hand. A column is its place in the row.
pub const CONDITIONS: [(&str, &str); 40] = [
    ("DELETE FROM t WHERE T.V", "delete t | where c1"),
    (
        "DELETE FROM T WHERE \"V\" = t.id",
        "delete t | where (c1 = c0)",
    ),
    ("DELETE FROM k WHERE \"order\"", "delete k | where c1"),
    ("DELETE FROM t WHERE u.v", "no table u"),
    ("DELETE FROM t WHERE Nope", "no column Nope"),
    ("DELETE FROM t WHERE t.Nope", "no column Nope"),
    // the operands of ANDs on both sides, at any depth
    (
        "DELETE FROM t WHERE v AND (id AND NOT v) AND 1",
        "delete t | where c1, c0, (NOT c1), 1",
    ),
    (
        "DELETE FROM t WHERE (v AND id) OR 1",
        "delete t | where ((c1 AND c0) OR 1)",
    ),
    (
        "DELETE FROM t WHERE NOT (v AND id)",
        "delete t | where (NOT (c1 AND c0))",
    ),
    ("DELETE FROM t WHERE v AND nope AND s", "no column nope"),
    (
        "DELETE FROM t WHERE v AND s AND nope",
        "mixed classes of values",
    ),
    ("DELETE FROM t WHERE s", "mixed classes of values"),
    ("DELETE FROM t WHERE NULL", "delete t | where NULL"),
    // operands of one class
    ("DELETE FROM t WHERE v = s", "mixed classes of values"),
    ("DELETE FROM t WHERE s < b", "mixed classes of values"),
    (
        "DELETE FROM t WHERE s IS NOT NULL",
        "delete t | where (c2 IS NOT NULL)",
    ),
    (
        "DELETE FROM t WHERE NULL IN (1, 'a')",
        "mixed classes of values",
    ),
    (
        "DELETE FROM t WHERE 'a' IN (NULL, s)",
        "delete t | where ('a' IN (NULL, c2))",
    ),
    (
        "DELETE FROM t WHERE 1 BETWEEN NULL AND 'a'",
        "mixed classes of values",
    ),
    (
        "DELETE FROM t WHERE 1 BETWEEN NULL AND 2",
        "delete t | where (1 BETWEEN NULL AND 2)",
    ),
    ("DELETE FROM t WHERE +'a'", "mixed classes of values"),
    ("DELETE FROM t WHERE -NULL", "delete t | where (- NULL)"),
    ("DELETE FROM t WHERE 'a' LIKE 1", "mixed classes of values"),
    (
        "DELETE FROM t WHERE 'a' NOT LIKE NULL",
        "delete t | where ('a' NOT LIKE NULL)",
    ),
    (
        "DELETE FROM t WHERE (NULL || NULL) + 1",
        "mixed classes of values",
    ),
    (
        "DELETE FROM t WHERE (NULL + 1) || 'a' = 'b'",
        "mixed classes of values",
    ),
    (
        "DELETE FROM t WHERE NOT v IN (1, id)",
        "delete t | where (NOT (c1 IN (1, c0)))",
    ),
    // names of functions ignore case; their arguments come first, then the name, classes, aggregates and the number
    ("DELETE FROM t WHERE ABS(v)", "delete t | where abs(c1)"),
    ("DELETE FROM t WHERE foo(nope)", "no column nope"),
    ("DELETE FROM t WHERE Foo(1)", "no function Foo"),
    ("DELETE FROM t WHERE Sum(*)", "no function Sum"),
    (
        "DELETE FROM t WHERE count(*)",
        "an aggregate or a column where none may be",
    ),
    (
        "DELETE FROM t WHERE sum(1, 2)",
        "an aggregate or a column where none may be",
    ),
    ("DELETE FROM t WHERE sum('a', 2)", "mixed classes of values"),
    ("DELETE FROM t WHERE abs('a', 1)", "mixed classes of values"),
    (
        "DELETE FROM t WHERE abs(1, 2)",
        "2 values where 1 are wanted",
    ),
    (
        "DELETE FROM t WHERE coalesce(NULL, 1, 'a')",
        "mixed classes of values",
    ),
    (
        "DELETE FROM t WHERE coalesce(1)",
        "1 values where 2 are wanted",
    ),
    (
        "DELETE FROM t WHERE length(b) = length(s)",
        "delete t | where (length(c3) = length(c2))",
    ),
    ("DELETE FROM t WHERE length(1)", "mixed classes of values"),
];

pub const CHANGES: [(&str, &str); 26] = [
    (
        "INSERT INTO t VALUES (1, 2, 'a', X'00FF')",
        "insert t (0, 1, 2, 3): [1, 2, 'a', X'00FF']",
    ),
    (
        "INSERT INTO T (S, v) VALUES ('a', NULL), (NULL, 1 + 1)",
        "insert t (2, 1): ['a', NULL] [NULL, (1 + 1)]",
    ),
    (
        "INSERT INTO t (v, V) VALUES (nope)",
        "column v is named twice",
    ),
    ("INSERT INTO t (Nope, v, v) VALUES (1)", "no column Nope"),
    (
        "INSERT INTO t (v) VALUES (1, 2)",
        "2 values where 1 are wanted",
    ),
    // a row's expressions, then their number, then their classes
    (
        "INSERT INTO t (v) VALUES ('a', 2)",
        "2 values where 1 are wanted",
    ),
    ("INSERT INTO t (v) VALUES (1, nope)", "no column nope"),
    ("INSERT INTO t (v) VALUES ('a')", "mixed classes of values"),
    (
        "INSERT INTO t (v) VALUES ('a'), (nope)",
        "mixed classes of values",
    ),
    // no column is in scope
    ("INSERT INTO t (v) VALUES (id)", "no column id"),
    ("INSERT INTO t (v) VALUES (t.id)", "no table t"),
    (
        "INSERT INTO t (v) VALUES (sum(1))",
        "an aggregate or a column where none may be",
    ),
    ("INSERT INTO nope (x) VALUES (y)", "no table nope"),
    (
        "UPDATE t SET v = v + 1, s = T.s WHERE id = 1",
        "update t: 1 = (c1 + 1), 2 = c2 | where (c0 = 1)",
    ),
    ("UPDATE t SET v = 1, V = nope", "column v is named twice"),
    ("UPDATE t SET v = nope, v = 1", "no column nope"),
    ("UPDATE t SET v = 'a' WHERE nope", "mixed classes of values"),
    ("UPDATE t SET v = u.v", "no table u"),
    ("UPDATE t SET nope = 1", "no column nope"),
    (
        "UPDATE t SET v = count(*)",
        "an aggregate or a column where none may be",
    ),
    ("UPDATE t SET b = NULL", "update t: 3 = NULL"),
    ("DELETE FROM t WHERE v AND id", "delete t | where c1, c0"),
    ("DELETE FROM t", "delete t"),
    ("CREATE TABLE z(a INTEGER) STRICT", "other"),
    ("COMMIT", "other"),
    ("SELECT nope", "no column nope"),
];

pub const OPERATORS: [(&str, &str); 42] = [
    ("DELETE FROM t WHERE v <> id", "delete t | where (c1 <> c0)"),
    ("DELETE FROM t WHERE v != id", "delete t | where (c1 <> c0)"),
    ("DELETE FROM t WHERE v IS id", "delete t | where (c1 IS c0)"),
    (
        "DELETE FROM t WHERE v IS NOT id",
        "delete t | where (c1 IS NOT c0)",
    ),
    (
        "DELETE FROM t WHERE v IS NULL",
        "delete t | where (c1 IS NULL)",
    ),
    (
        "DELETE FROM t WHERE s <= 'a'",
        "delete t | where (c2 <= 'a')",
    ),
    ("DELETE FROM t WHERE s > 'a'", "delete t | where (c2 > 'a')"),
    (
        "DELETE FROM t WHERE b >= X'00'",
        "delete t | where (c3 >= X'00')",
    ),
    (
        "DELETE FROM t WHERE v + id * 2 - 1 > 0",
        "delete t | where (((c1 + (c0 * 2)) - 1) > 0)",
    ),
    (
        "DELETE FROM t WHERE v / 2 % 3",
        "delete t | where ((c1 / 2) % 3)",
    ),
    (
        "DELETE FROM t WHERE -v < +id",
        "delete t | where ((- c1) < (+ c0))",
    ),
    (
        "DELETE FROM t WHERE -1 = v",
        "delete t | where ((- 1) = c1)",
    ),
    (
        "DELETE FROM t WHERE -9223372036854775808 < v",
        "delete t | where (-9223372036854775808 < c1)",
    ),
    (
        "DELETE FROM t WHERE 9223372036854775807 = v",
        "delete t | where (9223372036854775807 = c1)",
    ),
    (
        "DELETE FROM t WHERE s || 'a' || s = 'b'",
        "delete t | where (((c2 || 'a') || c2) = 'b')",
    ),
    (
        "DELETE FROM t WHERE NOT NOT v",
        "delete t | where (NOT (NOT c1))",
    ),
    (
        "DELETE FROM t WHERE v IN (id)",
        "delete t | where (c1 IN (c0))",
    ),
    (
        "DELETE FROM t WHERE v NOT IN (1, 2, NULL)",
        "delete t | where (c1 NOT IN (1, 2, NULL))",
    ),
    (
        "DELETE FROM t WHERE s IN ('a', s, NULL)",
        "delete t | where (c2 IN ('a', c2, NULL))",
    ),
    (
        "DELETE FROM t WHERE v NOT BETWEEN id AND 10",
        "delete t | where (c1 NOT BETWEEN c0 AND 10)",
    ),
    (
        "DELETE FROM t WHERE s BETWEEN 'a' AND 'b' AND v",
        "delete t | where (c2 BETWEEN 'a' AND 'b'), c1",
    ),
    (
        "DELETE FROM t WHERE s LIKE 'a%'",
        "delete t | where (c2 LIKE 'a%')",
    ),
    (
        "DELETE FROM t WHERE s NOT LIKE s || '%'",
        "delete t | where (c2 NOT LIKE (c2 || '%'))",
    ),
    (
        "DELETE FROM t WHERE NULL = s",
        "delete t | where (NULL = c2)",
    ),
    (
        "DELETE FROM t WHERE b = NULL",
        "delete t | where (c3 = NULL)",
    ),
    (
        "DELETE FROM t WHERE coalesce(v, id, 0)",
        "delete t | where coalesce(c1, c0, 0)",
    ),
    (
        "DELETE FROM t WHERE coalesce(s, 'x') = 'x'",
        "delete t | where (coalesce(c2, 'x') = 'x')",
    ),
    (
        "DELETE FROM t WHERE coalesce(NULL, NULL)",
        "delete t | where coalesce(NULL, NULL)",
    ),
    (
        "DELETE FROM t WHERE LENGTH(s) + Length(b)",
        "delete t | where (length(c2) + length(c3))",
    ),
    (
        "DELETE FROM t WHERE length(NULL)",
        "delete t | where length(NULL)",
    ),
    (
        "DELETE FROM t WHERE abs(-v)",
        "delete t | where abs((- c1))",
    ),
    (
        "DELETE FROM t WHERE abs(NULL)",
        "delete t | where abs(NULL)",
    ),
    (
        "DELETE FROM t WHERE v OR id AND v",
        "delete t | where (c1 OR (c0 AND c1))",
    ),
    (
        "DELETE FROM t WHERE (v = 1) = (id = 2)",
        "delete t | where ((c1 = 1) = (c0 = 2))",
    ),
    (
        "DELETE FROM t WHERE 1 AND 2 AND 3 AND 4",
        "delete t | where 1, 2, 3, 4",
    ),
    ("DELETE FROM t WHERE ((v))", "delete t | where c1"),
    (
        "DELETE FROM t WHERE \"v\" = \"t\".\"id\"",
        "delete t | where (c1 = c0)",
    ),
    (
        "DELETE FROM k WHERE k.\"order\" = 1",
        "delete k | where (c1 = 1)",
    ),
    ("DELETE FROM K WHERE A = 'x'", "delete k | where (c0 = 'x')"),
    (
        "DELETE FROM u WHERE w LIKE '_'",
        "delete u | where (c2 LIKE '_')",
    ),
    (
        "DELETE FROM \"u\" WHERE \"U\".\"W\" = ''",
        "delete u | where (c2 = '')",
    ),
    ("DELETE FROM k WHERE \"ORDER\"", "delete k | where c1"),
];

pub const FAULTS: [(&str, &str); 43] = [
    ("DELETE FROM nope", "no table nope"),
    ("DELETE FROM nope WHERE x", "no table nope"),
    ("DELETE FROM u WHERE s", "no column s"),
    ("DELETE FROM u WHERE t.id", "no table t"),
    ("DELETE FROM t WHERE v + nope", "no column nope"),
    ("DELETE FROM t WHERE NOT nope", "no column nope"),
    ("DELETE FROM t WHERE v IN (1, nope)", "no column nope"),
    ("DELETE FROM t WHERE nope IN (1)", "no column nope"),
    (
        "DELETE FROM t WHERE v BETWEEN nope AND nix",
        "no column nope",
    ),
    ("DELETE FROM t WHERE s LIKE nope", "no column nope"),
    ("DELETE FROM t WHERE v AND u.v", "no table u"),
    ("DELETE FROM t WHERE length(nope)", "no column nope"),
    ("DELETE FROM t WHERE abs(v, nope)", "no column nope"),
    ("DELETE FROM t WHERE Foo(v, s)", "no function Foo"),
    (
        "DELETE FROM t WHERE length(s, s)",
        "2 values where 1 are wanted",
    ),
    (
        "DELETE FROM t WHERE coalesce(v) = 1",
        "1 values where 2 are wanted",
    ),
    (
        "DELETE FROM t WHERE sum(v) > 1",
        "an aggregate or a column where none may be",
    ),
    (
        "DELETE FROM t WHERE max(s) = 'a'",
        "an aggregate or a column where none may be",
    ),
    (
        "DELETE FROM t WHERE abs(sum(v))",
        "an aggregate or a column where none may be",
    ),
    ("DELETE FROM t WHERE sum(nope)", "no column nope"),
    (
        "DELETE FROM t WHERE v = count(*)",
        "an aggregate or a column where none may be",
    ),
    (
        "DELETE FROM t WHERE v IN (count(v))",
        "an aggregate or a column where none may be",
    ),
    // SQLite has a name for the row's number, reads a name in quotes that means nothing as a text, and has more functions
    ("DELETE FROM t WHERE rowid = 1", "no column rowid"),
    ("DELETE FROM t WHERE \"nope\"", "no column nope"),
    (
        "DELETE FROM t WHERE min(v, id)",
        "an aggregate or a column where none may be",
    ),
    ("DELETE FROM t WHERE substr(s, 1)", "no function substr"),
    // changes
    ("UPDATE nope SET v = 1", "no table nope"),
    ("UPDATE u SET s = 'a'", "no column s"),
    ("UPDATE t SET v = w", "no column w"),
    ("UPDATE t SET v = 1 WHERE t.w", "no column w"),
    (
        "UPDATE t SET v = 1 WHERE sum(v)",
        "an aggregate or a column where none may be",
    ),
    ("UPDATE t SET s = Nope(s)", "no function Nope"),
    ("UPDATE t SET v = abs(v, 1)", "2 values where 1 are wanted"),
    (
        "UPDATE t SET v = min(v)",
        "an aggregate or a column where none may be",
    ),
    ("INSERT INTO u VALUES (1, 2)", "2 values where 3 are wanted"),
    (
        "INSERT INTO u VALUES (1, 2, 'a', 3)",
        "4 values where 3 are wanted",
    ),
    (
        "INSERT INTO u (w) VALUES ('a'), ('b', 'c')",
        "2 values where 1 are wanted",
    ),
    ("INSERT INTO u (nope) VALUES (1)", "no column nope"),
    ("INSERT INTO u (id, s) VALUES (1, 'a')", "no column s"),
    ("INSERT INTO k VALUES (Foo(1), 1)", "no function Foo"),
    ("INSERT INTO k (a) VALUES (k.a)", "no table k"),
    (
        "INSERT INTO k (a) VALUES (length('a', 'b'))",
        "2 values where 1 are wanted",
    ),
    (
        "INSERT INTO k (a) VALUES (count(*))",
        "an aggregate or a column where none may be",
    ),
];

pub const WRITES: [(&str, &str); 19] = [
    (
        "INSERT INTO k VALUES ('a', 1), (NULL, NULL), ('b' || 'c', 1 + 2)",
        "insert k (0, 1): ['a', 1] [NULL, NULL] [('b' || 'c'), (1 + 2)]",
    ),
    ("INSERT INTO k (\"order\") VALUES (1)", "insert k (1): [1]"),
    (
        "INSERT INTO k (\"ORDER\", A) VALUES (1, 'x')",
        "insert k (1, 0): [1, 'x']",
    ),
    (
        "INSERT INTO u (w, v, id) VALUES (NULL, abs(1), length('ab'))",
        "insert u (2, 1, 0): [NULL, abs(1), length('ab')]",
    ),
    ("INSERT INTO t (b) VALUES (X'')", "insert t (3): [X'']"),
    (
        "INSERT INTO t (s) VALUES ('it''s')",
        "insert t (2): ['it's']",
    ),
    (
        "INSERT INTO t (v) VALUES (1 = 2)",
        "insert t (1): [(1 = 2)]",
    ),
    (
        "INSERT INTO t (v) VALUES (NULL || NULL)",
        "mixed classes of values",
    ),
    ("INSERT INTO t (s) VALUES (1)", "mixed classes of values"),
    ("INSERT INTO t (b) VALUES ('a')", "mixed classes of values"),
    (
        "INSERT INTO t (id) VALUES (X'01')",
        "mixed classes of values",
    ),
    (
        "UPDATE u SET id = id + 1, v = id, w = w || 'x'",
        "update u: 0 = (c0 + 1), 1 = c0, 2 = (c2 || 'x')",
    ),
    (
        "UPDATE k SET \"order\" = 2 WHERE a IS NULL",
        "update k: 1 = 2 | where (c0 IS NULL)",
    ),
    (
        "UPDATE t SET V = coalesce(v, 0) WHERE id IN (1, 2) AND s LIKE 'a'",
        "update t: 1 = coalesce(c1, 0) | where (c0 IN (1, 2)), (c2 LIKE 'a')",
    ),
    (
        "UPDATE T SET s = NULL, b = NULL, v = NULL",
        "update t: 2 = NULL, 3 = NULL, 1 = NULL",
    ),
    (
        "UPDATE t SET v = length(s) WHERE T.id",
        "update t: 1 = length(c2) | where c0",
    ),
    ("UPDATE t SET s = b", "mixed classes of values"),
    ("UPDATE t SET id = s", "mixed classes of values"),
    (
        "UPDATE t SET v = v WHERE s || 'a'",
        "mixed classes of values",
    ),
];
