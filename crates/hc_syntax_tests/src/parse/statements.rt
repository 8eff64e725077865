// Statements of each kind, each with its canonical text.
use crate::parse::all_read;
use std::test::Fail;

const QUERIES: [(&str, &str); 17] = [
    (
        "select distinct *, t.* from t",
        "SELECT DISTINCT * , \"t\" . * FROM \"t\"",
    ),
    (
        "select a b, c as d",
        "SELECT \"a\" AS \"b\" , \"c\" AS \"d\"",
    ),
    (
        "select a asc from t order by desc desc",
        "SELECT \"a\" AS \"asc\" FROM \"t\" ORDER BY \"desc\" DESC",
    ),
    (
        "select 1 from t as u, v w",
        "SELECT 1 FROM \"t\" AS \"u\" , \"v\" AS \"w\"",
    ),
    (
        "select 1 from t join u on a = 1",
        "SELECT 1 FROM \"t\" JOIN \"u\" ON ( \"a\" = 1 )",
    ),
    (
        "select 1 from t inner join u cross join v",
        "SELECT 1 FROM \"t\" JOIN \"u\" JOIN \"v\"",
    ),
    (
        "select 1 from t inner join u on a cross join v on b",
        "SELECT 1 FROM \"t\" JOIN \"u\" ON \"a\" JOIN \"v\" ON \"b\"",
    ),
    (
        "select 1 from t left join u",
        "SELECT 1 FROM \"t\" AS \"left\" JOIN \"u\"",
    ),
    (
        "select 1 from a,b,c,d,e,f,g join h",
        "SELECT 1 FROM \"a\" , \"b\" , \"c\" , \"d\" , \"e\" , \"f\" , \"g\" JOIN \"h\"",
    ),
    (
        "select 1 from t where a and b",
        "SELECT 1 FROM \"t\" WHERE ( \"a\" AND \"b\" )",
    ),
    ("select 1 where 2", "SELECT 1 WHERE 2"),
    ("select a group by a", "SELECT \"a\" GROUP BY \"a\""),
    (
        "select 1 group by a, b + 1 having c",
        "SELECT 1 GROUP BY \"a\" , ( \"b\" + 1 ) HAVING \"c\"",
    ),
    (
        "select a order by 1, (2), +3, a desc, b asc",
        "SELECT \"a\" ORDER BY 1 ASC , 2 ASC , ( + 3 ) ASC , \"a\" DESC , \"b\" ASC",
    ),
    ("select a limit 0", "SELECT \"a\" LIMIT 0"),
    ("select a limit 5 offset 6", "SELECT \"a\" LIMIT 5 OFFSET 6"),
    (
        "select a limit -9223372036854775808 offset - 2",
        "SELECT \"a\" LIMIT - 9223372036854775808 OFFSET - 2",
    ),
];

const CHANGES: [(&str, &str); 8] = [
    ("insert into t values (1)", "INSERT INTO \"t\" VALUES ( 1 )"),
    (
        "insert into t (a, \"b\") values (1, 2), (3, 4 + 5)",
        "INSERT INTO \"t\" ( \"a\" , \"b\" ) VALUES ( 1 , 2 ) , ( 3 , ( 4 + 5 ) )",
    ),
    (
        "insert into \"t t\" values ((1))",
        "INSERT INTO \"t t\" VALUES ( 1 )",
    ),
    ("update t set a = 1", "UPDATE \"t\" SET \"a\" = 1"),
    (
        "update t set a = b = c, d = 2 where e",
        "UPDATE \"t\" SET \"a\" = ( \"b\" = \"c\" ) , \"d\" = 2 WHERE \"e\"",
    ),
    ("delete from t", "DELETE FROM \"t\""),
    (
        "delete from t where not a",
        "DELETE FROM \"t\" WHERE ( NOT \"a\" )",
    ),
    ("delete from count", "DELETE FROM \"count\""),
];

const SCHEMAS: [(&str, &str); 11] = [
    (
        "create table t (a integer) strict",
        "CREATE TABLE \"t\" ( \"a\" INTEGER ) STRICT",
    ),
    (
        "create table if not exists t (a integer primary key, b text not null unique, c blob) strict",
        "CREATE TABLE IF NOT EXISTS \"t\" ( \"a\" INTEGER PRIMARY KEY , \"b\" TEXT NOT NULL UNIQUE , \"c\" BLOB ) STRICT",
    ),
    (
        "create table t (a text unique unique, unique (a, b), primary key (c)) strict",
        "CREATE TABLE \"t\" ( \"a\" TEXT UNIQUE UNIQUE , UNIQUE ( \"a\" , \"b\" ) , PRIMARY KEY ( \"c\" ) ) STRICT",
    ),
    (
        "create index i on t (a)",
        "CREATE INDEX \"i\" ON \"t\" ( \"a\" )",
    ),
    (
        "create unique index i on t (a)",
        "CREATE UNIQUE INDEX \"i\" ON \"t\" ( \"a\" )",
    ),
    (
        "create index if not exists i on t (a)",
        "CREATE INDEX IF NOT EXISTS \"i\" ON \"t\" ( \"a\" )",
    ),
    (
        "create unique index if not exists i on t (a, b)",
        "CREATE UNIQUE INDEX IF NOT EXISTS \"i\" ON \"t\" ( \"a\" , \"b\" )",
    ),
    ("drop table t", "DROP TABLE \"t\""),
    ("drop table if exists t", "DROP TABLE IF EXISTS \"t\""),
    ("drop index i", "DROP INDEX \"i\""),
    ("drop index if exists \"if\"", "DROP INDEX IF EXISTS \"if\""),
];

const TRANSACTIONS: [(&str, &str); 17] = [
    ("begin", "BEGIN"),
    ("begin transaction", "BEGIN"),
    ("begin deferred", "BEGIN"),
    ("begin deferred transaction", "BEGIN"),
    ("begin concurrent", "BEGIN"),
    ("begin concurrent transaction", "BEGIN"),
    ("commit", "COMMIT"),
    ("commit transaction", "COMMIT"),
    ("end", "COMMIT"),
    ("end transaction", "COMMIT"),
    ("rollback", "ROLLBACK"),
    ("rollback transaction", "ROLLBACK"),
    ("rollback to a", "ROLLBACK TO \"a\""),
    ("rollback transaction to savepoint a", "ROLLBACK TO \"a\""),
    ("savepoint a", "SAVEPOINT \"a\""),
    ("release a", "RELEASE \"a\""),
    ("release savepoint a", "RELEASE \"a\""),
];

#[test]
fn queries_have_their_parts(rt: HostRuntime) -> Result<(), Fail> {
    all_read(&rt, rt.alloc(), &QUERIES)
}

#[test]
fn changes_have_their_parts(rt: HostRuntime) -> Result<(), Fail> {
    all_read(&rt, rt.alloc(), &CHANGES)
}

#[test]
fn tables_and_indexes_have_their_parts(rt: HostRuntime) -> Result<(), Fail> {
    all_read(&rt, rt.alloc(), &SCHEMAS)
}

#[test]
fn transactions_have_their_words(rt: HostRuntime) -> Result<(), Fail> {
    all_read(&rt, rt.alloc(), &TRANSACTIONS)
}
