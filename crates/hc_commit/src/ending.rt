// The end of a transaction that is not committed.
ghost use Rattle.std.specs.Prelude.{◌≡◌, ◌∷◌};
ghost use Rattle.hc_core.specs.Account.{IsIdle, txns};
ghost use Rattle.hc_core.specs.Desk.{GoesOn};
ghost use Rattle.hc_core.specs.Diary.{entry_of};
ghost use Rattle.hc_core.specs.declared.event.Event.TheVariants.{End};
ghost use Rattle.hc_core.specs.declared.outcome.Outcome.TheVariants.{Done};
ghost use Rattle.hc_txn.specs.Transactions.{IsOf};
ghost use Rattle.hc_transcript.specs.declared.reply.Ending.TheVariants.{RolledBack};

use hc_core::Desk;
use hc_transcript::Ending;
use hc_txn::Txn;

/// Rolls a transaction back. Nothing of it was put, so its desk ends it by one call, and no memory is taken.
pub fn rollback<D: Desk>(txn: Txn, desk: &mut D) -> Ending
    requires of { IsOf (D.account desk.old) txn }
    ensures ending { result ≡ RolledBack txn.snapshot }
    ensures entry { D.account desk.new ≡ entry_of (End (D.conn desk.old)) Done ∷ D.account desk.old }
    ensures ended { IsIdle (txns (D.account desk.new)) }
    ensures on { GoesOn D.conn D.most D.seen D.later desk.old desk.new }
{
    desk.end();
    Ending::RolledBack(txn.snapshot().0)
}
