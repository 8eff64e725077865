//! Seats that are registered while their transaction is open.
ghost use Rattle.std.specs.Prelude.{◌≡◌, ◌≤◌, []};
ghost use Rattle.hc_base.specs.declared.seat_word.SeatWord.TheVariants.{Idle};
ghost use Rattle.hc_rule.specs.Holders.{IsRegistered};
ghost use Rattle.hc_rule.specs.Views.{bare};
ghost use Rattle.hc_rule.specs.Kinds.StoreSeat.{MayStand, stood};
ghost use Rattle.hc_steps.specs.Same.{IsSame};
ghost use Rattle.hc_pool.specs.Registering.{IsIdleSeat, Registers};

use hc_base::Cid;
use hc_steps::Grip;
use hc_tidlog::begin;

/// Registers an idle seat, which owns no page: its transaction begins, with the log's end as its snapshot, which is not below
/// what the seat has seen before. Others see first that it is starting, and then its snapshot.
pub fn register(grip: &mut Grip<'_>) -> Cid
    requires idle { IsIdleSeat grip.old.seat.me.0 }
    ensures registered { Registers grip.old.layout grip.old.conn grip.old.seat.me.0 result grip.new.seat.me.0 }
    ensures may_claim { IsRegistered grip.new.seat.me.0.stage }
    ensures none { grip.new.seat.me.0.pages ≡ [] }
    ensures least { grip.old.seat.me.0.seen.0 ≤ result.0 }
    ensures same { IsSame grip.old grip.new }
{
    grip.store_starting();
    let snapshot = begin(grip);
    grip.store_snapshot(snapshot);
    snapshot
}

/// Ends the transaction of a registered seat, which is idle then. It is committed, or nothing is in its write set, and the
/// seat owns no page.
pub fn leave(grip: &mut Grip<'_>)
    requires may_end { MayStand Idle grip.old.seat.me.0 }
    ensures left { grip.new.seat.me ≡ bare (stood Idle grip.old.conn grip.old.seat.me.0) }
    ensures same { IsSame grip.old grip.new }
{
    grip.store_idle();
}
