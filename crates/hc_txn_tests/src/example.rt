//! The transaction of `docs/TRANSACTIONS.md`.
ghost use Rattle.std.specs.Prelude.{◌<◌, ◌≤◌};
ghost use Rattle.hc_core.specs.Account.{IsIdle, txns};
ghost use Rattle.hc_core.specs.Running.{greatest_ord};

use hc_commit::{CommitFault, commit, rollback};
use hc_core::{Core, Desk, ListDesk};
use hc_transcript::Ending;
use hc_txn::Txn;
use std::alloc::Global;
use std::test::Fail;

/// Adds one to the counter of one byte at a key. Where another transaction was ahead it is not tried again.
pub fn count_up<D: Desk>(
    alloc: Global,
    desk: &mut D,
    key: &[u8],
    ord: u32,
) -> Result<Ending, (CommitFault, Ending)>
    requires idle { IsIdle (txns (D.account desk.old)) }
    requires ord { (greatest_ord (txns (D.account desk.old)) < ord) × (ord ≤ 131071) }
    ensures idle { IsIdle (txns (D.account desk.new)) }
    ensures ord { greatest_ord (txns (D.account desk.new)) ≤ ord }
{
    let mut txn = Txn::begin(alloc, desk);
    let count = match txn.get(desk, key) {
        Ok(Some(rec)) => rec.as_slice().first().copied().unwrap_or(0),
        Ok(None) => 0,
        Err(_) => return Err((CommitFault::NoMemory, rollback(txn, desk))),
    };
    match txn.write(desk, key, Some(&[count.wrapping_add(1)])) {
        Ok(()) => commit(txn, desk, ord),
        Err(_) => Err((CommitFault::NoMemory, rollback(txn, desk))),
    }
}

#[test]
fn a_counter_counts_up(rt: HostRuntime) -> Result<(), Fail> {
    let alloc = rt.alloc();
    let mut core = Core::new(alloc, 1)?;
    assert!(&rt; core.takes_desk(0));
    let mut desk = ListDesk {
        core: &mut core,
        conn: 0,
    };
    let first = count_up(alloc, &mut desk, &[0x61], 1);
    assert!(&rt; first == Ok(Ending::Commit(1)));
    let second = count_up(alloc, &mut desk, &[0x61], 2);
    assert!(&rt; second == Ok(Ending::Commit(2)));
    Ok(())
}
