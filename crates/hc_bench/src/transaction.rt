// Reads, writes and savepoints of one transaction through a desk. Keys are those of the commits.
ghost use Rattle.hc_txn.specs.Transactions.{IsOf};

use crate::machine::{key, place};
use hc_core::{Desk, NoMemory};
use hc_txn::{Txn, WriteFault};
use std::alloc::{AllocError, Global};

/// In which order keys come.
#[derive(Debug, Clone, Copy)]
pub enum Order {
    Ascending,
    Scattered,
}

fn number(turn: u32, order: Order) -> u32 {
    match order {
        Order::Ascending => turn,
        Order::Scattered => place(turn),
    }
}

/// Reads some number of keys, and answers how many have no record.
pub fn read_keys<D: Desk>(
    desk: &mut D,
    alloc: Global,
    txn: &mut Txn,
    count: u32,
    order: Order,
) -> Result<u32, NoMemory>
    requires { IsOf (D.account desk.old) txn.old }
{
    let mut none: u32 = 0;
    for turn in 0..count {
        let key = key(alloc, number(turn, order))?;
        if txn.get(desk, key.as_slice())?.is_none() {
            none = none.saturating_add(1);
        }
    }
    Ok(none)
}

fn write_key<D: Desk>(
    desk: &mut D,
    alloc: Global,
    txn: &mut Txn,
    number: u32,
) -> Result<(), NoMemory>
    requires { IsOf (D.account desk.old) txn.old }
    ensures { IsOf (D.account desk.new) txn.new }
{
    let key = key(alloc, number)?;
    match txn.write(desk, key.as_slice(), Some(&[1; 10])) {
        Ok(()) => Ok(()),
        Err(WriteFault::NoMemory | WriteFault::TooBig(_)) => Err(AllocError),
    }
}

/// Writes a record of 10 bytes at some number of keys.
pub fn write_keys<D: Desk>(
    desk: &mut D,
    alloc: Global,
    txn: &mut Txn,
    count: u32,
    order: Order,
) -> Result<(), NoMemory>
    requires { IsOf (D.account desk.old) txn.old }
{
    for turn in 0..count {
        write_key(desk, alloc, txn, number(turn, order))?;
    }
    Ok(())
}

/// Sets some number of savepoints, of which each is undone to and released.
pub fn set_marks(txn: &mut Txn, count: u32) -> Result<u32, NoMemory> {
    let mut released: u32 = 0;
    for turn in 0..count {
        txn.mark("savepoint")?;
        if txn.undo_to("savepoint").is_ok() && txn.release("savepoint").is_ok() {
            released = released.saturating_add(1);
        }
    }
    Ok(released)
}
