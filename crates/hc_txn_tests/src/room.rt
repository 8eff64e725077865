//! Two connections of one machine that make their calls in turns, through one desk that goes from connection to connection.
ghost use Rattle.std.specs.Prelude.{◌≡◌, ◌≢◌, ◌+◌, ◌≤◌, ℕ, IfOk};
ghost use Rattle.hc_core.specs.Machine.{account_of};
ghost use Rattle.hc_txn_tests.specs.Lanes.{ArePair, IsLane};

use crate::lane::{Do, step};
use hc_core::ListDesk;
use hc_range::NoMemory;
use hc_txn::Txn;
use std::alloc::{AllocError, Global};

// Makes a call of one connection, by its desk.
fn turn(
    alloc: Global,
    desk: &mut ListDesk<'_>,
    conn: u32,
    current: Option<Txn>,
    ord: u32,
    what: Do,
) -> Result<(Option<Txn>, String), NoMemory>
    requires lane { IsLane (account_of desk.old.core.now conn) current ord }
    requires ord { ord ≤ 131071 }
    ensures lane { IfOk result (λ r. IsLane (account_of desk.new.core.now conn) r.0 (ord + 1)) }
    ensures others { (j : ℕ) → j ≢ conn → account_of desk.new.core.now j ≡ account_of desk.old.core.now j }
{
    if !desk.core.takes_desk(conn) {
        return Err(AllocError);
    }
    desk.conn = conn;
    step(alloc, desk, current, ord, what)
}

/// The transactions that are open at connections 1 and 2.
#[derive(Drop)]
pub struct Pair {
    pub one: Option<Txn>,
    pub two: Option<Txn>,
}

/// Makes a call of connection 1.
pub fn turn_one(
    alloc: Global,
    desk: &mut ListDesk<'_>,
    pair: Pair,
    ord: u32,
    what: Do,
) -> Result<(Pair, String), NoMemory>
    requires pair { ArePair desk.old.core.now pair.one pair.two ord }
    requires ord { ord ≤ 131071 }
    ensures { IfOk result (λ r. ArePair desk.new.core.now r.0.one r.0.two (ord + 1)) }
{
    let Pair { one, two } = pair;
    match turn(alloc, desk, 1, one, ord, what) {
        Ok((one, text)) => Ok((Pair { one, two }, text)),
        Err(fault) => Err(fault),
    }
}

/// Makes a call of connection 2.
pub fn turn_two(
    alloc: Global,
    desk: &mut ListDesk<'_>,
    pair: Pair,
    ord: u32,
    what: Do,
) -> Result<(Pair, String), NoMemory>
    requires pair { ArePair desk.old.core.now pair.one pair.two ord }
    requires ord { ord ≤ 131071 }
    ensures { IfOk result (λ r. ArePair desk.new.core.now r.0.one r.0.two (ord + 1)) }
{
    let Pair { one, two } = pair;
    match turn(alloc, desk, 2, two, ord, what) {
        Ok((two, text)) => Ok((Pair { one, two }, text)),
        Err(fault) => Err(fault),
    }
}

/// Makes a call of one of the two.
pub fn turn_of(
    alloc: Global,
    desk: &mut ListDesk<'_>,
    pair: Pair,
    is_one: bool,
    ord: u32,
    what: Do,
) -> Result<(Pair, String), NoMemory>
    requires pair { ArePair desk.old.core.now pair.one pair.two ord }
    requires ord { ord ≤ 131071 }
    ensures { IfOk result (λ r. ArePair desk.new.core.now r.0.one r.0.two (ord + 1)) }
{
    if is_one {
        turn_one(alloc, desk, pair, ord, what)
    } else {
        turn_two(alloc, desk, pair, ord, what)
    }
}
