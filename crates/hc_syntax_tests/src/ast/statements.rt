use super::trees::*;
use super::{is_printed, kind_of};
use hc_ast::{ColumnRule, StatementKind, Stmt};
use hc_value::Class;
use sqlite_items::Items;
use std::test::Fail;

#[test]
fn new_rows_are_printed(rt: HostRuntime) -> Result<(), Fail> {
    let alloc = rt.alloc();
    let rows = two(
        alloc,
        row(one(alloc, number(1))),
        row(two(alloc, null(), number(2))),
    );
    let bare = insert(name(alloc, "t"), rows);
    is_printed(
        &rt,
        alloc,
        bare,
        "INSERT INTO \"t\" VALUES ( 1 ) , ( NULL , 2 )",
    )?;
    let rows = one(alloc, row(two(alloc, number(1), number(2))));
    let named = insert_columns(name(alloc, "t"), names(alloc, "a", "b"), rows);
    is_printed(
        &rt,
        alloc,
        named,
        "INSERT INTO \"t\" ( \"a\" , \"b\" ) VALUES ( 1 , 2 )",
    )
}

#[test]
fn updates_are_printed(rt: HostRuntime) -> Result<(), Fail> {
    let alloc = rt.alloc();
    let set = one(alloc, assign(name(alloc, "a"), number(1)));
    is_printed(
        &rt,
        alloc,
        update(name(alloc, "t"), set),
        "UPDATE \"t\" SET \"a\" = 1",
    )?;
    let first = assign(name(alloc, "a"), number(1));
    let sets = two(alloc, first, assign(name(alloc, "b"), null()));
    let kept = update_where(name(alloc, "t"), sets, number(2));
    is_printed(
        &rt,
        alloc,
        kept,
        "UPDATE \"t\" SET \"a\" = 1 , \"b\" = NULL WHERE 2",
    )
}

#[test]
fn deletes_are_printed(rt: HostRuntime) -> Result<(), Fail> {
    let alloc = rt.alloc();
    is_printed(&rt, alloc, delete(name(alloc, "t")), "DELETE FROM \"t\"")?;
    let kept = delete_where(name(alloc, "t"), number(2));
    is_printed(&rt, alloc, kept, "DELETE FROM \"t\" WHERE 2")
}

#[test]
fn a_bare_table_is_printed(rt: HostRuntime) -> Result<(), Fail> {
    let alloc = rt.alloc();
    let first = definition(name(alloc, "a"), Class::Int, Ok(Items::new(alloc)));
    let second = definition(name(alloc, "b"), Class::Text, Ok(Items::new(alloc)));
    let columns = two(alloc, first, second);
    let bare = create_table(false, name(alloc, "t"), columns, Ok(Items::new(alloc)));
    is_printed(
        &rt,
        alloc,
        bare,
        "CREATE TABLE \"t\" ( \"a\" INTEGER , \"b\" TEXT ) STRICT",
    )
}

#[test]
fn rules_are_printed(rt: HostRuntime) -> Result<(), Fail> {
    let alloc = rt.alloc();
    let rules = two(alloc, Ok(ColumnRule::PrimaryKey), Ok(ColumnRule::NotNull));
    let first = definition(name(alloc, "a"), Class::Int, rules);
    let unique = one(alloc, Ok(ColumnRule::Unique));
    let second = definition(name(alloc, "b"), Class::Blob, unique);
    let primary = key_rule(true, one(alloc, name(alloc, "b")));
    let rules = two(alloc, primary, key_rule(false, names(alloc, "a", "b")));
    let ruled = create_table(true, name(alloc, "t"), two(alloc, first, second), rules);
    is_printed(
        &rt,
        alloc,
        ruled,
        "CREATE TABLE IF NOT EXISTS \"t\" ( \"a\" INTEGER PRIMARY KEY NOT NULL , \"b\" BLOB UNIQUE , PRIMARY KEY ( \"b\" ) , UNIQUE ( \"a\" , \"b\" ) ) STRICT",
    )
}

#[test]
fn indices_are_printed(rt: HostRuntime) -> Result<(), Fail> {
    let alloc = rt.alloc();
    let columns = one(alloc, name(alloc, "a"));
    let plain = create_index(false, false, name(alloc, "i"), name(alloc, "t"), columns);
    is_printed(&rt, alloc, plain, "CREATE INDEX \"i\" ON \"t\" ( \"a\" )")?;
    let columns = names(alloc, "a", "b");
    let unique = create_index(true, true, name(alloc, "i"), name(alloc, "t"), columns);
    is_printed(
        &rt,
        alloc,
        unique,
        "CREATE UNIQUE INDEX IF NOT EXISTS \"i\" ON \"t\" ( \"a\" , \"b\" )",
    )
}

#[test]
fn drops_are_printed(rt: HostRuntime) -> Result<(), Fail> {
    let alloc = rt.alloc();
    is_printed(
        &rt,
        alloc,
        drop_table(false, name(alloc, "t")),
        "DROP TABLE \"t\"",
    )?;
    is_printed(
        &rt,
        alloc,
        drop_table(true, name(alloc, "t")),
        "DROP TABLE IF EXISTS \"t\"",
    )?;
    is_printed(
        &rt,
        alloc,
        drop_index(false, name(alloc, "i")),
        "DROP INDEX \"i\"",
    )?;
    is_printed(
        &rt,
        alloc,
        drop_index(true, name(alloc, "i")),
        "DROP INDEX IF EXISTS \"i\"",
    )
}

#[test]
fn transactions_are_printed(rt: HostRuntime) -> Result<(), Fail> {
    let alloc = rt.alloc();
    is_printed(&rt, alloc, Ok(Stmt::Begin), "BEGIN")?;
    is_printed(&rt, alloc, Ok(Stmt::Commit), "COMMIT")?;
    is_printed(&rt, alloc, Ok(Stmt::Rollback), "ROLLBACK")?;
    is_printed(
        &rt,
        alloc,
        rollback_to(name(alloc, "s")),
        "ROLLBACK TO \"s\"",
    )?;
    is_printed(&rt, alloc, savepoint(name(alloc, "s")), "SAVEPOINT \"s\"")?;
    is_printed(&rt, alloc, release(name(alloc, "s")), "RELEASE \"s\"")
}

#[test]
fn each_statement_has_its_kind(rt: HostRuntime) -> Result<(), Fail> {
    let alloc = rt.alloc();
    let cases = [
        (kind_of(asks(alloc, number(1)))?, StatementKind::Select),
        (
            kind_of(insert(name(alloc, "t"), one(alloc, row(one(alloc, number(1))))))?,
            StatementKind::Insert,
        ),
        (
            kind_of(update(
                name(alloc, "t"),
                one(alloc, assign(name(alloc, "a"), null())),
            ))?,
            StatementKind::Update,
        ),
        (kind_of(delete(name(alloc, "t")))?, StatementKind::Delete),
        (
            kind_of(drop_index(false, name(alloc, "i")))?,
            StatementKind::Drop,
        ),
        (
            kind_of(rollback_to(name(alloc, "s")))?,
            StatementKind::Transaction,
        ),
        (kind_of(Ok(Stmt::Commit))?, StatementKind::Transaction),
    ];
    for (kind, want) in cases {
        assert_eq!(rt; kind, want);
    }
    Ok(())
}
