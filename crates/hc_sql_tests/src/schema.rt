// Tables and rows as cells. The cells were worked out byte by byte from the table at the head of `specs/Cells.antt` of
// `hc_schema`; docs/FORMATS.md shows them.
use hc_key::key_of;
use hc_range::{Bytes, contains};
use hc_record::{encode, fits};
use hc_schema::{
    Cell, IndexKind, Table, catalog_lens, catalog_range, cells_of, next_tree, row_cells, row_lens,
    row_of, table_of, tree_range, value_range, whole_catalog,
};
use hc_value::{Class, NoMemory, Str, Value};
use sqlite_items::Items;
use std::alloc::{AllocError, Global};
use std::test::Fail;

// Keys with their records.
type Bare = (&'static [u8], &'static [u8]);

// `CREATE TABLE Ab(id INTEGER PRIMARY KEY, E TEXT UNIQUE) STRICT; CREATE INDEX x ON Ab(E, id);` as the first statements
// of a database: the cells in the catalog range of the table.
const TABLE: [Bare; 5] = [
    // table: 0: 'ab', 0; 'Ab', 1, 2, 1
    (
        b"\0\0\0\0\x03ab\0\0\x02\x80\0\0\0\0\0\0\0",
        b"\x05\x11\x09\x01\x09Ab\x02",
    ),
    // column 1: 0: 'ab', 0, 1; 'id', 1, 1
    (
        b"\0\0\0\0\x03ab\0\0\x02\x80\0\0\0\0\0\0\0\x02\x80\0\0\0\0\0\0\x01",
        b"\x04\x11\x09\x09id",
    ),
    // column 2: 0: 'ab', 0, 2; 'E', 2, 0
    (
        b"\0\0\0\0\x03ab\0\0\x02\x80\0\0\0\0\0\0\0\x02\x80\0\0\0\0\0\0\x02",
        b"\x04\x0f\x01\x08E\x02",
    ),
    // index: 0: 'ab', 2; 'sqlite_autoindex_Ab_1', 2, 2
    (
        b"\0\0\0\0\x03ab\0\0\x02\x80\0\0\0\0\0\0\x02",
        b"\x04\x37\x01\x01sqlite_autoindex_Ab_1\x02\x02",
    ),
    // index: 0: 'ab', 3; 'x', 0, 2, 1
    (
        b"\0\0\0\0\x03ab\0\0\x02\x80\0\0\0\0\0\0\x03",
        b"\x05\x0f\x08\x01\x09x\x02",
    ),
];

// The cells of the names of its indexes.
const NAMES: [Bare; 2] = [
    // 0: 'sqlite_autoindex_ab_1', 0; NULL, 'Ab', 2
    (
        b"\0\0\0\0\x03sqlite_autoindex_ab_1\0\0\x02\x80\0\0\0\0\0\0\0",
        b"\x04\x00\x11\x01Ab\x02",
    ),
    // 0: 'x', 0; NULL, 'Ab', 3
    (
        b"\0\0\0\0\x03x\0\0\x02\x80\0\0\0\0\0\0\0",
        b"\x04\x00\x11\x01Ab\x03",
    ),
];

fn cells(alloc: Global, bare: &[Bare]) -> Result<Items<Cell>, NoMemory> {
    let mut cells = Items::new(alloc);
    for (key, rec) in bare {
        cells.push(Cell {
            key: Bytes::from_slice(alloc, key)?,
            rec: Bytes::from_slice(alloc, rec)?,
        })?;
    }
    Ok(cells)
}

fn are(cells: &[Cell], bare: &[Bare]) -> bool {
    cells.len() == bare.len()
        && cells.iter().zip(bare).all(|(cell, (key, rec))| cell.key.as_slice() == *key
            && cell.rec.as_slice() == *rec)
}

// Whether a table is read from the cells, and has these cells again.
fn is_read(alloc: Global, bare: &[Bare], names: &[Bare]) -> Result<bool, NoMemory> {
    let Some(table) = table_of(alloc, cells(alloc, bare)?.as_slice())? else {
        return Ok(false);
    };
    let again = cells_of(alloc, &table)?;
    let (front, back) = again.as_slice().split_at(bare.len().min(again.len()));
    Ok(are(front, bare) && are(back, names))
}

#[test]
fn a_table_is_these_cells(rt: HostRuntime) -> Result<(), Fail> {
    let alloc = rt.alloc();
    assert_eq!(rt; is_read(alloc, &TABLE, &NAMES)?, true);
    Ok(())
}

// The parts of the table above.
fn is_expected(table: &Table) -> bool {
    let [id, e] = table.columns.as_slice() else {
        return false;
    };
    let [rule, made] = table.indexes.as_slice() else {
        return false;
    };
    let is_table = table.name.as_str() == "Ab" && table.tree == 1 && table.alias == Some(0);
    let is_id = id.name.as_str() == "id" && id.class == Class::Int && id.not_null;
    let is_e = e.name.as_str() == "E" && e.class == Class::Text && !e.not_null;
    let is_rule = rule.tree == 2
        && rule.kind == IndexKind::UniqueRule
        && rule.columns.as_slice() == [1].as_slice();
    let is_made = made.tree == 3
        && made.kind == IndexKind::Plain
        && made.columns.as_slice() == [1, 0].as_slice();
    is_table && is_id && is_e && is_rule && is_made
}

#[test]
fn the_cells_tell_the_parts_of_the_table(rt: HostRuntime) -> Result<(), Fail> {
    let alloc = rt.alloc();
    let table = table_of(alloc, cells(alloc, &TABLE)?.as_slice())?;
    assert_eq!(rt; table.is_some_and(|table| is_expected(&table)), true);
    Ok(())
}

// A record in place of that of a cell above, by which they are no table.
const WRONG: [(usize, &[u8]); 15] = [
    // the table's name differs from that of the key
    (0, b"\x05\x11\x09\x01\x09Ac\x02"),
    // it has no tree, one above those of its indexes, three columns, a text for an alias
    (0, b"\x05\x11\x08\x01\x09Ab\x02"),
    (0, b"\x05\x11\x01\x01\x09Ab\x02\x02"),
    (0, b"\x05\x11\x09\x01\x09Ab\x03"),
    (0, b"\x05\x11\x09\x01\x01Ab\x02\x02"),
    // a byte follows the record, and one that is no record
    (0, b"\x05\x11\x09\x01\x09Ab\x02\x00"),
    (1, b"\x04\x11\x07\x09id"),
    // the classes 0 and 4, and the flag 2
    (1, b"\x04\x11\x08\x09id"),
    (1, b"\x04\x11\x01\x09id\x04"),
    (2, b"\x04\x0f\x01\x01E\x02\x02"),
    // two columns that differ in case alone
    (2, b"\x04\x11\x01\x08ID\x02"),
    // the second number for the first automatic index
    (3, b"\x04\x37\x01\x01sqlite_autoindex_Ab_2\x02\x02"),
    // an index with the table's name, a column twice, the third column
    (4, b"\x05\x11\x08\x01\x09AB\x02"),
    (4, b"\x05\x0f\x08\x01\x01x\x02\x02"),
    (4, b"\x05\x0f\x08\x01\x01x\x02\x03"),
];

// The cells above with another record at a place.
fn changed(alloc: Global, at: usize, rec: &'static [u8]) -> Result<Items<Cell>, NoMemory> {
    let mut bare = TABLE;
    if at < bare.len() {
        bare[at].1 = rec;
    }
    cells(alloc, &bare)
}

#[test]
fn a_wrong_record_makes_no_table(rt: HostRuntime) -> Result<(), Fail> {
    let alloc = rt.alloc();
    for (at, rec) in &WRONG {
        let table = table_of(alloc, changed(alloc, *at, rec)?.as_slice())?;
        assert_eq!(rt; table.is_none(), true);
    }
    Ok(())
}

#[test]
fn a_name_in_upper_case_in_the_key_makes_no_table(rt: HostRuntime) -> Result<(), Fail> {
    let alloc = rt.alloc();
    let mut bare = TABLE;
    bare[0].0 = b"\0\0\0\0\x03AB\0\0\x02\x80\0\0\0\0\0\0\0";
    assert_eq!(rt;
        table_of(alloc, cells(alloc, &bare)?.as_slice())?.is_none(),
        true
    );
    Ok(())
}

#[test]
fn a_missing_cell_or_one_too_many_makes_no_table(rt: HostRuntime) -> Result<(), Fail> {
    let alloc = rt.alloc();
    // without a cell: the table's own, a column, and so on; without an index the numbers of the others stay
    let without: [&[Bare]; 6] = [
        &[],
        &TABLE[1..],
        &[TABLE[0], TABLE[2], TABLE[3], TABLE[4]],
        &TABLE[..2],
        &[TABLE[0], TABLE[2], TABLE[1], TABLE[3], TABLE[4]],
        &[TABLE[0], TABLE[1], TABLE[2], TABLE[4], TABLE[3]],
    ];
    for bare in without {
        assert_eq!(rt;
            table_of(alloc, cells(alloc, bare)?.as_slice())?.is_none(),
            true
        );
    }
    let more = [TABLE[0], TABLE[1], TABLE[2], TABLE[3], TABLE[4], NAMES[1]];
    assert_eq!(rt;
        table_of(alloc, cells(alloc, &more)?.as_slice())?.is_none(),
        true
    );
    let twice = [TABLE[0], TABLE[1], TABLE[2], TABLE[3], TABLE[4], TABLE[4]];
    assert_eq!(rt;
        table_of(alloc, cells(alloc, &twice)?.as_slice())?.is_none(),
        true
    );
    Ok(())
}

#[test]
fn a_table_may_lack_indexes(rt: HostRuntime) -> Result<(), Fail> {
    let alloc = rt.alloc();
    assert_eq!(rt; is_read(alloc, &TABLE[..3], &[])?, true);
    // the automatic index alone is the first, and the plain one needs none before it
    assert_eq!(rt; is_read(alloc, &TABLE[..4], &NAMES[..1])?, true);
    assert_eq!(rt;
        is_read(
            alloc,
            &[TABLE[0], TABLE[1], TABLE[2], TABLE[4]],
            &NAMES[1..]
        )?,
        true
    );
    Ok(())
}

// A cell of the catalog, if its record is short.
fn entry(alloc: Global, key: &[Value], values: &[Value]) -> Result<Option<Cell>, NoMemory> {
    if !fits(values) {
        return Ok(None);
    }
    Ok(Some(Cell {
        key: key_of(alloc, 0, key)?,
        rec: encode(alloc, values)?,
    }))
}

fn text(alloc: Global, text: &str) -> Result<Value, NoMemory> {
    Ok(Value::Text(Str::from_text(alloc, text)?))
}

// The cells of a table with so many columns, which are called by their numbers.
fn wide(alloc: Global, count: u8, more: u8) -> Result<Items<Cell>, NoMemory> {
    let count = i64::from(count) + i64::from(more);
    let mut cells = Items::new(alloc);
    let first = entry(
        alloc,
        &[text(alloc, "w")?, Value::Int(0)],
        &[
            text(alloc, "w")?,
            Value::Int(1),
            Value::Int(count),
            Value::Int(0),
        ],
    )?;
    if let Some(cell) = first {
        cells.push(cell)?;
    }
    for k in 1..=count {
        let name = Value::Text(Str::from_string(format!(in alloc; "c{k}")?));
        let column = entry(
            alloc,
            &[text(alloc, "w")?, Value::Int(0), Value::Int(k)],
            &[name, Value::Int(3), Value::Int(0)],
        )?;
        if let Some(cell) = column {
            cells.push(cell)?;
        }
    }
    Ok(cells)
}

#[test]
fn a_table_has_up_to_255_columns(rt: HostRuntime) -> Result<(), Fail> {
    let alloc = rt.alloc();
    for (count, more, is_table) in [(0, 0, false), (1, 0, true), (255, 0, true), (255, 1, false)] {
        let cells = wide(alloc, count, more)?;
        let table = table_of(alloc, cells.as_slice())?;
        assert_eq!(rt; table.is_some(), is_table);
        if let Some(table) = table {
            assert_eq!(rt; table.columns.len(), count as usize);
            assert_eq!(rt; cells_of(alloc, &table)?.len(), cells.len());
        }
    }
    Ok(())
}

// `CREATE TABLE k(a TEXT, b INTEGER, UNIQUE (a), PRIMARY KEY (b, a)) STRICT; CREATE UNIQUE INDEX u ON k(b);`
const KEYED: [Bare; 6] = [
    (
        b"\0\0\0\0\x03k\0\0\x02\x80\0\0\0\0\0\0\0",
        b"\x05\x0f\x09\x01\x08k\x02",
    ),
    (
        b"\0\0\0\0\x03k\0\0\x02\x80\0\0\0\0\0\0\0\x02\x80\0\0\0\0\0\0\x01",
        b"\x04\x0f\x01\x09a\x02",
    ),
    (
        b"\0\0\0\0\x03k\0\0\x02\x80\0\0\0\0\0\0\0\x02\x80\0\0\0\0\0\0\x02",
        b"\x04\x0f\x09\x09b",
    ),
    (
        b"\0\0\0\0\x03k\0\0\x02\x80\0\0\0\0\0\0\x02",
        b"\x04\x35\x01\x09sqlite_autoindex_k_1\x02",
    ),
    (
        b"\0\0\0\0\x03k\0\0\x02\x80\0\0\0\0\0\0\x03",
        b"\x05\x35\x01\x01\x09sqlite_autoindex_k_2\x03\x02",
    ),
    (
        b"\0\0\0\0\x03k\0\0\x02\x80\0\0\0\0\0\0\x04",
        b"\x04\x0f\x09\x01u\x02",
    ),
];

const KEYED_NAMES: [Bare; 3] = [
    (
        b"\0\0\0\0\x03sqlite_autoindex_k_1\0\0\x02\x80\0\0\0\0\0\0\0",
        b"\x04\x00\x0f\x01k\x02",
    ),
    (
        b"\0\0\0\0\x03sqlite_autoindex_k_2\0\0\x02\x80\0\0\0\0\0\0\0",
        b"\x04\x00\x0f\x01k\x03",
    ),
    (
        b"\0\0\0\0\x03u\0\0\x02\x80\0\0\0\0\0\0\0",
        b"\x04\x00\x0f\x01k\x04",
    ),
];

#[test]
fn a_primary_key_may_be_an_index(rt: HostRuntime) -> Result<(), Fail> {
    let alloc = rt.alloc();
    assert_eq!(rt; is_read(alloc, &KEYED, &KEYED_NAMES)?, true);
    // its columns refuse NULL
    let mut loose = KEYED;
    loose[1].1 = b"\x04\x0f\x01\x08a\x02";
    assert_eq!(rt;
        table_of(alloc, cells(alloc, &loose)?.as_slice())?.is_none(),
        true
    );
    // and there is none beside an alias column
    let mut two = KEYED;
    two[0].1 = b"\x05\x0f\x09\x01\x01k\x02\x02";
    assert_eq!(rt;
        table_of(alloc, cells(alloc, &two)?.as_slice())?.is_none(),
        true
    );
    Ok(())
}

// A row of `Ab`: (7, 'q'), and its entries in the two indexes.
const ROW: [Bare; 3] = [
    (b"\0\0\0\x01\x02\x80\0\0\0\0\0\0\x07", b"\x03\x00\x0fq"),
    (b"\0\0\0\x02\x03q\0\0\x02\x80\0\0\0\0\0\0\x07", b"\x01"),
    (
        b"\0\0\0\x03\x03q\0\0\x02\x80\0\0\0\0\0\0\x07\x02\x80\0\0\0\0\0\0\x07",
        b"\x01",
    ),
];

// Whether a row is read from its own cell, and has these cells again, of these lengths.
fn is_row(alloc: Global, row: &[Bare], lens: &[u64]) -> Result<bool, NoMemory> {
    let Some(table) = table_of(alloc, cells(alloc, &TABLE)?.as_slice())? else {
        return Ok(false);
    };
    let own = cells(alloc, row)?;
    let Some(cell) = own.as_slice().first() else {
        return Ok(false);
    };
    let Some(found) = row_of(alloc, &table, cell)? else {
        return Ok(false);
    };
    let again = row_cells(alloc, &table, found.rowid, found.values.as_slice())?;
    let counted = row_lens(alloc, &table, found.rowid, found.values.as_slice())?;
    Ok(are(again.as_slice(), row) && counted.as_slice() == lens)
}

#[test]
fn a_row_is_these_cells(rt: HostRuntime) -> Result<(), Fail> {
    let alloc = rt.alloc();
    assert_eq!(rt; is_row(alloc, &ROW, &[17, 18, 27])?, true);
    // NULL in the text column
    let null: [Bare; 3] = [
        (ROW[0].0, b"\x03\x00\x00"),
        (b"\0\0\0\x02\x01\x02\x80\0\0\0\0\0\0\x07", b"\x01"),
        (
            b"\0\0\0\x03\x01\x02\x80\0\0\0\0\0\0\x07\x02\x80\0\0\0\0\0\0\x07",
            b"\x01",
        ),
    ];
    assert_eq!(rt; is_row(alloc, &null, &[16, 15, 24])?, true);
    Ok(())
}

#[test]
fn a_wrong_cell_is_no_row(rt: HostRuntime) -> Result<(), Fail> {
    let alloc = rt.alloc();
    let wrong: [Bare; 8] = [
        // the rowid is in the record too
        (ROW[0].0, b"\x03\x01\x0f\x07q"),
        // an integer in the text column, a column too few, one too many
        (ROW[0].0, b"\x03\x00\x09"),
        (ROW[0].0, b"\x02\x00"),
        (ROW[0].0, b"\x04\x00\x0f\x00q"),
        // another tree, an entry of an index, no rowid, a text for it
        (b"\0\0\0\x02\x02\x80\0\0\0\0\0\0\x07", ROW[0].1),
        ROW[1],
        (b"\0\0\0\x01", ROW[0].1),
        (b"\0\0\0\x01\x03q\0\0", ROW[0].1),
    ];
    for bare in wrong {
        assert_eq!(rt; is_row(alloc, &[bare], &[17])?, false);
    }
    Ok(())
}

#[test]
fn lengths_are_told_before_anything_is_made(rt: HostRuntime) -> Result<(), Fail> {
    let alloc = rt.alloc();
    let Some(table) = table_of(alloc, cells(alloc, &TABLE)?.as_slice())? else {
        return Err(Fail::from(AllocError));
    };
    let mut lens = Vec::new(alloc);
    for (key, rec) in TABLE.iter().chain(&NAMES) {
        lens.push((key.len() + rec.len()) as u64)?;
    }
    assert_eq!(rt; catalog_lens(alloc, &table)?.as_slice(), lens.as_slice());
    Ok(())
}

#[test]
fn ranges_hold_the_cells(rt: HostRuntime) -> Result<(), Fail> {
    let alloc = rt.alloc();
    let table = catalog_range(alloc, "AB")?;
    let all = whole_catalog(alloc)?;
    for (key, _) in &TABLE {
        assert_eq!(rt; contains(&table, key) && contains(&all, key), true);
    }
    for (key, _) in &NAMES {
        assert_eq!(rt; !contains(&table, key) && contains(&all, key), true);
    }
    let rows = tree_range(alloc, 1)?;
    let found = value_range(alloc, 2, &[text(alloc, "q")?])?;
    assert_eq!(rt;
        contains(&rows, ROW[0].0) && !contains(&rows, ROW[1].0),
        true
    );
    assert_eq!(rt;
        contains(&found, ROW[1].0) && !contains(&found, ROW[2].0),
        true
    );
    Ok(())
}

#[test]
fn the_next_tree_follows_the_greatest(rt: HostRuntime) -> Result<(), Fail> {
    let alloc = rt.alloc();
    assert_eq!(rt; next_tree(&[]), Some(1));
    assert_eq!(rt; next_tree(cells(alloc, &TABLE[..3])?.as_slice()), Some(2));
    let all = [
        NAMES[1], TABLE[0], TABLE[1], TABLE[2], TABLE[3], TABLE[4], NAMES[0],
    ];
    assert_eq!(rt; next_tree(cells(alloc, &all)?.as_slice()), Some(4));
    // the tree 4294967295, and the one before it
    let mut last = TABLE;
    last[0].1 = b"\x05\x11\x05\x01\x09Ab\x00\x00\xff\xff\xff\xff\x02";
    assert_eq!(rt; next_tree(cells(alloc, &last)?.as_slice()), None);
    last[0].1 = b"\x05\x11\x05\x01\x09Ab\x00\x00\xff\xff\xff\xfe\x02";
    assert_eq!(rt;
        next_tree(cells(alloc, &last)?.as_slice()),
        Some(4294967295)
    );
    Ok(())
}
