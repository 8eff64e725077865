//! A desk over the machine, made by a caller.
use hc_core::{Core, Desk, ListDesk, Next, Part};
use hc_range::{Bytes, Range};
use sqlite_items::Items;
use std::test::Fail;

// A desk is made for a connection that has nothing open, and reads: nothing is there.
#[test]
fn a_desk_reads_an_empty_store(rt: HostRuntime) -> Result<(), Fail> {
    let alloc = rt.alloc();
    let mut core = Core::new(alloc, 2)?;
    assert!(rt; core.takes_desk(0));
    let mut desk = ListDesk {
        core: &mut core,
        conn: 0,
    };
    let whole = Range {
        lo: Bytes::from_slice(alloc, &[])?,
        hi: None,
    };
    let mut part = Part {
        cells: Items::new(alloc),
    };
    let snapshot = desk.begin();
    assert_eq!(rt; snapshot.0, 0);
    let next = desk.read_part(alloc, &[], &whole, &mut part)?;
    assert_eq!(rt; next, Next::End);
    let some = desk.last(alloc, &whole, &mut part)?;
    assert_eq!(rt; some, false);
    desk.end();
    Ok(())
}
