// A proposal of a commit number, and the checks for it.
ghost use Rattle.std.specs.Prelude.{◌≡◌, ◌<◌, ◌≤◌, List, IfErr, IfOk, OnOk};
ghost use Rattle.hc_range.specs.declared.range.Range.{Range};
ghost use Rattle.hc_range.specs.Ranges.{InRange, IsNormal};
ghost use Rattle.hc_core.specs.Account.{WhenOpen, txns};
ghost use Rattle.hc_core.specs.Desk.{GoesOn, IsProposing, MayDecideNow};
ghost use Rattle.hc_commit.specs.Checks.{AreAllOf, HasMetOther, HasProposed, HasSettled, IsNumbered};
ghost use Rattle.hc_commit.specs.Entries.{with_checks};
ghost use Rattle.hc_commit.specs.Stages.{HasAllPut, HasCheckedRange, HasDecided, HasMetIn, IsSeen};
ghost use Rattle.hc_commit.specs.declared.proposal.Proposal.TheVariants.{Refused, Won};

use hc_base::Cid;
use hc_core::{Desk, Lost, Met, Next};
use hc_range::Range;
use hc_txn::place;

/// How a proposal went.
#[derive(Debug, Clone, Copy)]
pub enum Proposal {
    /// The number is this transaction's.
    Won(Cid),
    /// Another transaction was ahead.
    Beaten(Lost),
    /// A check was refused.
    Refused(Met),
}

// Checks one range, in as many calls as the desk takes.
fn check_range<D: Desk>(desk: &mut D, range: &Range) -> Result<(), Met>
    requires proposing { IsProposing (D.account desk.old) }
    requires some { InRange range.now range.now.lo }
    ensures checked { OnOk result (HasCheckedRange (D.conn desk.old) range.now (D.account desk.old) (D.account desk.new)) }
    ensures met { IfErr result (λ met. HasMetIn (D.conn desk.old) range.now met (D.account desk.old) (D.account desk.new)) }
    ensures on { GoesOn D.conn D.most D.seen D.later desk.old desk.new }
{
    let mut next = match desk.check_part(range.lo.as_slice(), range) {
        Ok(first) => place(first),
        Err(met) => return Err(met),
    };
    while let Next::More(key) = next {
        match desk.check_part(key.as_slice(), range) {
            Ok(more) => next = place(more),
            Err(met) => return Err(met),
        }
    }
    Ok(())
}

// Checks each range, in ascending order.
fn check_all<D: Desk>(desk: &mut D, log: &[Range]) -> Result<(), Met>
    requires proposing { IsProposing (D.account desk.old) }
    requires normal { IsNormal log.now }
    ensures checked { OnOk result ((parts : List Range) × AreAllOf log.now parts × (D.account desk.new ≡ with_checks (D.conn desk.old) parts (D.account desk.old))) }
    ensures met { IfErr result (λ met. HasMetOther (D.conn desk.old) log.now met (D.account desk.old) (D.account desk.new)) }
    ensures on { GoesOn D.conn D.most D.seen D.later desk.old desk.new }
{
    for range in log {
        check_range(desk, range)?;
    }
    Ok(())
}

// Decides at a number for which all was checked.
fn decide<D: Desk>(desk: &mut D) -> Proposal
    requires checked { MayDecideNow (D.account desk.old) }
    ensures decided { HasDecided (D.conn desk.old) result (D.account desk.old) (D.account desk.new) }
    ensures seen { IsSeen result (D.seen desk.new) }
    ensures on { GoesOn D.conn D.most D.seen D.later desk.old desk.new }
{
    match desk.decide() {
        Ok(number) => Proposal::Won(number),
        Err(lost) => Proposal::Beaten(lost),
    }
}

// Proposes a number, checks all that was read, and decides.
fn propose<D: Desk>(desk: &mut D, log: &[Range]) -> Proposal
    requires put { WhenOpen (txns (D.account desk.old)) (HasAllPut log.now) }
    requires normal { IsNormal log.now }
    ensures proposed { HasProposed (D.conn desk.old) log.now result (D.account desk.old) (D.account desk.new) }
    ensures number { IsNumbered result (D.seen desk.old) (D.most desk.old) (D.seen desk.new) }
    ensures on { GoesOn D.conn D.most D.seen D.later desk.old desk.new }
{
    desk.propose();
    match check_all(desk, log) {
        Ok(()) => decide(desk),
        Err(met) => Proposal::Refused(met),
    }
}

/// Proposes numbers until one is won, or a check is refused. A number that was lost is seen, so the next one is above it: there
/// are no more proposals than commit numbers.
pub fn settle<D: Desk>(desk: &mut D, log: &[Range]) -> Result<Cid, Met>
    requires put { WhenOpen (txns (D.account desk.old)) (HasAllPut log.now) }
    requires normal { IsNormal log.now }
    ensures won { IfOk result (λ number. HasSettled (D.conn desk.old) log.now (D.most desk.old) (Won number) (D.account desk.old) (D.account desk.new)) }
    ensures number { IfOk result (λ number. (D.seen desk.old < number.0) × (number.0 ≤ D.seen desk.new)) }
    ensures refused { IfErr result (λ met. HasSettled (D.conn desk.old) log.now (D.most desk.old) (Refused met) (D.account desk.old) (D.account desk.new)) }
    ensures on { GoesOn D.conn D.most D.seen D.later desk.old desk.new }
{
    loop {
        match propose(desk, log) {
            Proposal::Won(number) => return Ok(number),
            Proposal::Refused(met) => return Err(met),
            Proposal::Beaten(_) => {}
        }
    }
}
