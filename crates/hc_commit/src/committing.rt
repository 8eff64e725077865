// A transaction's commit.
ghost use Rattle.std.specs.Prelude.{◌≡◌, ◌∷◌, ◌<◌, ◌≤◌, List, IfErr, IfOk, OnErr, OnOk};
ghost use Rattle.hc_range.specs.Ranges.{IsNormal};
ghost use Rattle.hc_core.specs.Account.{IsIdle, WhenOpen, txns};
ghost use Rattle.hc_core.specs.Desk.{AreAscendingWrites, EachFits, GoesOn, MayEndNow};
ghost use Rattle.hc_core.specs.Diary.{entry_of};
ghost use Rattle.hc_core.specs.Running.{greatest_ord};
ghost use Rattle.hc_core.specs.declared.account.Entry.{Entry};
ghost use Rattle.hc_core.specs.declared.event.Event.TheVariants.{End};
ghost use Rattle.hc_core.specs.declared.outcome.Outcome.TheVariants.{Done};
ghost use Rattle.hc_txn.specs.Transactions.{IsOf};
ghost use Rattle.hc_transcript.specs.declared.reply.Ending.TheVariants.{RolledBack};
ghost use Rattle.hc_commit.specs.Checks.{HasSettled};
ghost use Rattle.hc_commit.specs.Commit.{HasCommitted, HasEndedBare, HasFailed, HasGivenUp, HasSucceeded, IsFullFor, IsNewNumber};
ghost use Rattle.hc_commit.specs.Entries.{with_puts, with_unputs};
ghost use Rattle.hc_commit.specs.Giving.{HasMet};
ghost use Rattle.hc_commit.specs.Stages.{HasNonePut, HasOnlyReadIn, IsReady, IsRoomy};
ghost use Rattle.hc_commit.specs.declared.proposal.Proposal.TheVariants.{Refused, Won};

use crate::proposal::settle;
use crate::puts::{put_all, unput_all};
use hc_base::{Cid, Full};
use hc_core::{Desk, Met, ReserveFault, Write};
use hc_range::Range;
use hc_transcript::Ending;
use hc_txn::{Net, Txn};
use thiserror::Error;

/// Why a transaction was not committed.
#[derive(Debug, Clone, Copy, PartialEq, Eq, Error)]
pub enum CommitFault {
    /// The store has no room for its writes.
    #[error("the store is full")]
    Full(Full),
    /// A transaction of another connection, that committed after the snapshot or may yet, put a key that this one read or
    /// writes.
    #[error("another transaction wrote what this one read or writes")]
    Met(Met),
    /// An allocation was refused.
    #[error("out of memory")]
    NoMemory,
}

// Proposes until it is decided. Where a check is refused, the writes are taken out again.
fn settle_or_unput<D: Desk>(desk: &mut D, writes: &[Write], log: &[Range]) -> Result<Cid, Met>
    requires ascending { AreAscendingWrites writes.now }
    requires ready { WhenOpen (txns (D.account desk.old)) (IsReady writes.now log.now) }
    requires normal { IsNormal log.now }
    ensures won { IfOk result (λ number. HasSettled (D.conn desk.old) log.now (D.most desk.old) (Won number) (D.account desk.old) (D.account desk.new)) }
    ensures number { IfOk result (λ number. (D.seen desk.old < number.0) × (number.0 ≤ D.seen desk.new)) }
    ensures refused { IfErr result (λ met. (between : List Entry) × HasSettled (D.conn desk.old) log.now (D.most desk.old) (Refused met) (D.account desk.old) between
        × (D.account desk.new ≡ with_unputs (D.conn desk.old) writes.now between)) }
    ensures may_end { OnOk result (MayEndNow (D.account desk.new)) }
    ensures none { OnErr result (WhenOpen (txns (D.account desk.new)) HasNonePut) }
    ensures on { GoesOn D.conn D.most D.seen D.later desk.old desk.new }
{
    match settle(desk, log) {
        Ok(number) => Ok(number),
        Err(met) => {
            unput_all(desk, writes);
            Err(met)
        }
    }
}

// Puts the writes for which there is room, and proposes until it is decided.
fn put_and_settle<D: Desk>(desk: &mut D, writes: &[Write], log: &[Range]) -> Result<Cid, Met>
    requires ascending { AreAscendingWrites writes.now }
    requires room { WhenOpen (txns (D.account desk.old)) (IsRoomy writes.now log.now) }
    requires normal { IsNormal log.now }
    ensures won { IfOk result (λ number. HasSettled (D.conn desk.old) log.now (D.most desk.old) (Won number) (with_puts (D.conn desk.old) writes.now (D.account desk.old)) (D.account desk.new)) }
    ensures number { IfOk result (λ number. (D.seen desk.old < number.0) × (number.0 ≤ D.seen desk.new)) }
    ensures met { IfErr result (λ met. HasMet (D.conn desk.old) log.now (D.most desk.old) writes.now met (D.account desk.old) (D.account desk.new)) }
    ensures may_end { OnOk result (MayEndNow (D.account desk.new)) }
    ensures none { OnErr result (WhenOpen (txns (D.account desk.new)) HasNonePut) }
    ensures on { GoesOn D.conn D.most D.seen D.later desk.old desk.new }
{
    put_all(desk, writes)?;
    settle_or_unput(desk, writes, log)
}

// Makes room for net writes, puts them, and proposes until it is decided.
fn commit_net<D: Desk>(net: Net, desk: &mut D, ord: u32) -> Result<Cid, CommitFault>
    requires reading { WhenOpen (txns (D.account desk.old)) (HasOnlyReadIn net.log) }
    requires ord { (greatest_ord (txns (D.account desk.old)) < ord) × (ord ≤ 131071) }
    requires writes { AreAscendingWrites net.writes.items × EachFits net.writes.items }
    ensures committed { IfOk result (λ number. HasCommitted (D.conn desk.old) ord (D.most desk.old) net.log net.writes.items number (D.account desk.old) (D.account desk.new)) }
    ensures number { IfOk result (λ number. (D.seen desk.old < number.0) × (number.0 ≤ D.seen desk.new)) }
    ensures given_up { IfErr result (λ fault. HasGivenUp (D.conn desk.old) ord (D.most desk.old) net.log net.writes.items fault (D.account desk.old) (D.account desk.new)) }
    ensures full { IfErr result (IsFullFor (D.fills desk.old)) }
    ensures may_end { OnOk result (MayEndNow (D.account desk.new)) }
    ensures none { OnErr result (WhenOpen (txns (D.account desk.new)) HasNonePut) }
    ensures on { GoesOn D.conn D.most D.seen D.later desk.old desk.new }
{
    let writes = net.writes.as_slice();
    match desk.reserve(*net.writes.allocator(), ord, writes) {
        Ok(()) => {}
        Err(ReserveFault::Full(full)) => return Err(CommitFault::Full(full)),
        Err(ReserveFault::NoMemory) => return Err(CommitFault::NoMemory),
    }
    match put_and_settle(desk, writes, net.log.ranges()) {
        Ok(number) => Ok(number),
        Err(met) => Err(CommitFault::Met(met)),
    }
}

// All of a commit but the end.
fn attempt<D: Desk>(txn: Txn, desk: &mut D, ord: u32) -> Result<Ending, CommitFault>
    requires of { IsOf (D.account desk.old) txn }
    requires ord { (greatest_ord (txns (D.account desk.old)) < ord) × (ord ≤ 131071) }
    ensures succeeded { IfOk result (λ ending. HasSucceeded (D.conn desk.old) ord (D.most desk.old) txn ending (D.account desk.old) (D.account desk.new)) }
    ensures number { IfOk result (λ ending. IsNewNumber ending (D.seen desk.old) (D.seen desk.new)) }
    ensures failed { IfErr result (λ fault. HasFailed (D.conn desk.old) ord (D.most desk.old) txn fault (D.account desk.old) (D.account desk.new)) }
    ensures full { IfErr result (IsFullFor (D.fills desk.old)) }
    ensures may_end { OnOk result (MayEndNow (D.account desk.new)) }
    ensures none { OnErr result (WhenOpen (txns (D.account desk.new)) HasNonePut) }
    ensures on { GoesOn D.conn D.most D.seen D.later desk.old desk.new }
{
    let Ok(net) = txn.into_net() else {
        return Err(CommitFault::NoMemory);
    };
    if net.writes.is_empty() {
        return Ok(Ending::Snapshot(net.snapshot.0));
    }
    match commit_net(net, desk, ord) {
        Ok(number) => Ok(Ending::Commit(number.0)),
        Err(fault) => Err(fault),
    }
}

/// Commits a transaction, with an ordinal that is above all with which its connection drew an id. Where it has no net writes it
/// draws no id, and its answer has the snapshot's number. The answer beside a fault is that it was rolled back, with that
/// number. Whatever it answers, the desk has ended the transaction.
///
/// Room is made for the net writes, they are put in ascending order of their keys, and a number is proposed. All that was
/// read is checked, and it is decided. Where another transaction took the number, it proposes again and checks all again. Where
/// another transaction is met, all that was put is taken out again. From the first put on no memory is taken.
pub fn commit<D: Desk>(txn: Txn, desk: &mut D, ord: u32) -> Result<Ending, (CommitFault, Ending)>
    requires of { IsOf (D.account desk.old) txn }
    requires ord { (greatest_ord (txns (D.account desk.old)) < ord) × (ord ≤ 131071) }
    ensures succeeded { IfOk result (λ ending. (tried : List Entry) × HasSucceeded (D.conn desk.old) ord (D.most desk.old) txn ending (D.account desk.old) tried
        × (D.account desk.new ≡ entry_of (End (D.conn desk.old)) Done ∷ tried)) }
    ensures number { IfOk result (λ ending. IsNewNumber ending (D.seen desk.old) (D.seen desk.new)) }
    ensures failed { IfErr result (λ fault. (fault.1 ≡ RolledBack txn.snapshot)
        × ((tried : List Entry) × HasFailed (D.conn desk.old) ord (D.most desk.old) txn fault.0 (D.account desk.old) tried
        × (D.account desk.new ≡ entry_of (End (D.conn desk.old)) Done ∷ tried))) }
    ensures full { IfErr result (λ fault. IsFullFor (D.fills desk.old) fault.0) }
    ensures ords { greatest_ord (txns (D.account desk.new)) ≤ ord }
    ensures nothing_put { OnErr result (HasEndedBare (txns (D.account desk.new))) }
    ensures ended { IsIdle (txns (D.account desk.new)) }
    ensures on { GoesOn D.conn D.most D.seen D.later desk.old desk.new }
{
    let snapshot = txn.snapshot();
    let tried = attempt(txn, desk, ord);
    desk.end();
    match tried {
        Ok(ending) => Ok(ending),
        Err(fault) => Err((fault, Ending::RolledBack(snapshot.0))),
    }
}
