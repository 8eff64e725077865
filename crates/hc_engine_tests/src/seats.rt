//! Seats are registered, and leave.
ghost use Rattle.std.specs.Prelude.{◌≡◌, ◌≤◌};
ghost use Rattle.hc_pool.specs.Registering.{IsIdleSeat};
ghost use Rattle.hc_steps.specs.Same.{IsSame};

use hc_base::Cid;
use hc_pool::{leave, register};
use hc_steps::Grip;

// Registers a seat, which leaves at once, and answers its snapshot.
fn visit(grip: &mut Grip<'_>) -> Cid
    requires idle { IsIdleSeat grip.old.seat.me.0 }
    ensures idle { IsIdleSeat grip.new.seat.me.0 }
    ensures same { IsSame grip.old grip.new }
{
    let snapshot = register(grip);
    leave(grip);
    snapshot
}

#[cfg(test)]
mod tests {
    use super::*;
    use hc_rows::Layout;
    use hc_steps::Region;
    use hc_tidlog::log_end;
    use std::test::Fail;

    // Nothing is committed, so each snapshot is 0.
    #[test]
    fn seats_are_registered_again_and_again(rt: HostRuntime) -> Result<(), Fail> {
        let layout = Layout {
            pages: 4,
            numbers: 2,
            transactions: 2,
            seats: 2,
        };
        let (region, mut dealer) = Region::make(rt.alloc(), layout)?;
        let mut one = region.deal(&mut dealer);
        let mut two = region.deal(&mut dealer);
        assert_eq!(rt; visit(&mut one), Cid(0));
        assert_eq!(rt; visit(&mut two), Cid(0));
        assert_eq!(rt; visit(&mut one), Cid(0));
        assert_eq!(rt; log_end(&mut two), Cid(0));
        assert_eq!(rt; two.seen(), Cid(0));
        Ok(())
    }

    // A log of one place, which is looked at, and a last one that stays empty.
    #[test]
    fn the_log_of_one_transaction_ends_at_once(rt: HostRuntime) -> Result<(), Fail> {
        let layout = Layout {
            pages: 2,
            numbers: 2,
            transactions: 1,
            seats: 1,
        };
        let (region, mut dealer) = Region::make(rt.alloc(), layout)?;
        let mut grip = region.deal(&mut dealer);
        assert_eq!(rt; log_end(&mut grip), Cid(0));
        assert_eq!(rt; visit(&mut grip), Cid(0));
        Ok(())
    }
}
