// Calls of desks of several connections, which take turns at one machine.
ghost use Rattle.std.specs.Prelude.{◌≡◌, IfOk, OnOk};
ghost use Rattle.hc_core.specs.ListDesk.{IsLater, Owns};
ghost use Rattle.hc_core.specs.Machine.{account_of, start};
ghost use Rattle.hc_test_desks.specs.Guarded.{IsGuarded};
ghost use Rattle.hc_test_desks.specs.Turns.{AreGuarded};

use crate::call::{Call, make_call};
use crate::guard::{Answer, Guard};
use hc_core::{Core, ListDesk, NoMemory, Part};
use std::alloc::Global;

/// Guards of the connections of a new machine, as many as are told.
pub fn new_guards(alloc: Global, conns: u32) -> Result<Vec<Guard>, NoMemory>
    ensures { IfOk result (λ guards. AreGuarded (start conns) guards.items) }
{
    let mut guards = Vec::new(alloc);
    for number in 0..conns {
        guards.push(Guard::new(alloc))?;
    }
    Ok(guards)
}

// Makes a call through a desk of a connection, where it may be made.
fn call_at(
    core: &mut Core,
    guard: &mut Guard,
    conn: u32,
    alloc: Global,
    call: Call,
    out: &mut Part,
) -> Result<Answer, NoMemory>
    requires owns { Owns core.old conn }
    requires guarded { IsGuarded guard.old (account_of core.old conn) }
    ensures owns { Owns core.new conn }
    ensures guarded { OnOk result (IsGuarded guard.new (account_of core.new conn)) }
    ensures later { IsLater conn core.old core.new }
{
    let mut desk = ListDesk { core, conn };
    make_call(guard, &mut desk, alloc, call, out)
}

/// Makes a call through a desk of a connection that has a guard, where it may be made. The desk is made for this call
/// alone, and so others may come between two calls of a transaction.
pub fn take_turn(
    core: &mut Core,
    guards: &mut Vec<Guard>,
    conn: u32,
    alloc: Global,
    call: Call,
    out: &mut Part,
) -> Result<Answer, NoMemory>
    requires { AreGuarded core.old guards.old.items }
    ensures { OnOk result (AreGuarded core.new guards.new.items) }
{
    if conn as usize >= guards.len() {
        return Ok(Answer::NotNow);
    }
    call_at(core, &mut guards[conn as usize], conn, alloc, call, out)
}
