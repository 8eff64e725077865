use super::is_printed;
use super::trees::*;
use hc_ast::Item;
use std::test::Fail;

#[test]
fn items_are_printed(rt: HostRuntime) -> Result<(), Fail> {
    let alloc = rt.alloc();
    let all = query(alloc, one(alloc, Ok(Item::All)));
    is_printed(&rt, alloc, selects(distinct(all)), "SELECT DISTINCT *")?;
    let named = item_as(alloc, number(1), name(alloc, "a"));
    let both = query(alloc, two(alloc, all_of(name(alloc, "t")), named));
    is_printed(&rt, alloc, selects(both), "SELECT \"t\" . * , 1 AS \"a\"")
}

#[test]
fn tables_are_printed(rt: HostRuntime) -> Result<(), Fail> {
    let alloc = rt.alloc();
    let first = table_as(alloc, name(alloc, "t"), name(alloc, "A"));
    let tables = two(alloc, first, table(name(alloc, "u")));
    let crossed = from(query(alloc, one(alloc, item(number(1)))), tables);
    is_printed(
        &rt,
        alloc,
        selects(crossed),
        "SELECT 1 FROM \"t\" AS \"A\" , \"u\"",
    )?;
    let second = joined(table(name(alloc, "u")));
    let tables = two(alloc, table(name(alloc, "t")), second);
    let crossed = from(query(alloc, one(alloc, item(number(1)))), tables);
    is_printed(
        &rt,
        alloc,
        selects(crossed),
        "SELECT 1 FROM \"t\" JOIN \"u\"",
    )
}

#[test]
fn a_join_is_printed(rt: HostRuntime) -> Result<(), Fail> {
    let alloc = rt.alloc();
    let second = on(
        joined(table_as(alloc, name(alloc, "u"), name(alloc, "B"))),
        number(2),
    );
    let tables = two(alloc, table(name(alloc, "t")), second);
    let query = from(query(alloc, one(alloc, item(number(1)))), tables);
    is_printed(
        &rt,
        alloc,
        selects(query),
        "SELECT 1 FROM \"t\" JOIN \"u\" AS \"B\" ON 2",
    )
}

#[test]
fn groups_are_printed(rt: HostRuntime) -> Result<(), Fail> {
    let alloc = rt.alloc();
    let query = filtered(query(alloc, one(alloc, item(number(1)))), number(2));
    let query = grouped(query, two(alloc, column(alloc, "y"), number(3)));
    let query = having(query, number(0));
    is_printed(
        &rt,
        alloc,
        selects(query),
        "SELECT 1 WHERE 2 GROUP BY \"y\" , 3 HAVING 0",
    )
}

#[test]
fn order_is_printed(rt: HostRuntime) -> Result<(), Fail> {
    let alloc = rt.alloc();
    let query = query(alloc, one(alloc, item(number(1))));
    let query = ordered(
        query,
        two(alloc, term(number(1), true), term(null(), false)),
    );
    let query = limited(query, Some(-5), Some(7));
    is_printed(
        &rt,
        alloc,
        selects(query),
        "SELECT 1 ORDER BY 1 DESC , NULL ASC LIMIT - 5 OFFSET 7",
    )
}
