// One connection's access to a store.
ghost use Rattle.std.specs.Prelude.{◌≡◌, ◌∷◌, ℕ, ◌<◌, ◌≤◌, List, true, false, IfOk, IfErr, OnOk, OnErr};
ghost use Rattle.std.specs.Option.{option_copied};
ghost use Rattle.hc_base.specs.declared.full.Full.{Full};
ghost use Rattle.hc_range.specs.Ranges.{InRange};
ghost use Rattle.hc_core.specs.Account.{IsIdle, txns};
ghost use Rattle.hc_core.specs.Diary.{entry_of};
ghost use Rattle.hc_core.specs.Running.{greatest_ord};
ghost use Rattle.hc_core.specs.Desk.{AreAscendingWrites, EachFits, GoesOn, HasChecked, HasMet, HasNoRoom, HasRead, HasReadLast, HasReadNone, HasReadNothing, HasReserved, IsFullOf, IsProposing, IsReading, MayDecideNow, MayEndNow, MayProposeNow, MayPutNow, MayUnputNow, NamesOther, Proposes, StopsAt, StopsIn, decide_outcome, end_of, put_outcome};
ghost use Rattle.hc_core.specs.declared.account.Entry.{Entry};
ghost use Rattle.hc_core.specs.declared.event.Event.TheVariants.{Begin, Put, Propose, Decide, Unput, End};
ghost use Rattle.hc_core.specs.declared.outcome.Outcome.TheVariants.{Began, Done, Proposed};

use crate::{Lost, Met, Next, NoMemory, Part, ReserveFault, Write};
use hc_base::Cid;
use hc_range::Range;
use std::alloc::Global;

/// One connection's access to a store. Each call is stated by the entries that it adds to the connection's account and
/// by what it answers. Of what the store holds it says nothing: that follows from soundness, where the store keeps it.
///
/// In order of a transaction: `begin`; `read_part` and `last`; `reserve`; a `put` for each write that was reserved;
/// `propose`; `check_part` for all that was read; `decide`, and after `Lost` again from `propose` on; `end`. Where it
/// gives up, an `unput` for each key that is put, then `end`.
pub trait Desk {
    /// The number of its connection.
    ghost conn: { Self → ℕ };

    /// The connection's account, the newest entry first.
    ghost account: { Self → List Entry };

    /// How much of the log it has seen. It never falls.
    ghost seen: { Self → ℕ };

    /// The greatest commit number that its store can have.
    ghost most: { Self → ℕ };

    /// At which keys a read or a check may stop before its range's end.
    ghost stops: { Self → List ℕ → Type 0 };

    /// What of its store a reservation may find full.
    ghost fills: { Self → Full → Type 0 };

    /// From an earlier moment of the desk to a later one.
    ghost later: { Self → Self → Type 0 };

    /// The number of the connection.
    fn conn(&self) -> u32
        ensures { result ≡ conn self.now };

    /// Opens a transaction. Its snapshot is at least what was seen, and is seen then.
    fn begin(&mut self) -> Cid
        requires idle { IsIdle (txns (account self.old)) }
        ensures entry { account self.new ≡ entry_of (Begin (conn self.old)) (Began result) ∷ account self.old }
        ensures snapshot { (seen self.old ≤ result.0) × (result.0 ≤ seen self.new) }
        ensures on { GoesOn conn most seen later self.old self.new };

    /// Adds the snapshot's cells of a range to `out`, from a key up to the key that is answered, or to the range's end.
    fn read_part(
        &mut self,
        alloc: Global,
        from: &[u8],
        range: &Range,
        out: &mut Part,
    ) -> Result<Next, NoMemory>
        requires reading { IsReading (account self.old) }
        requires from { InRange range.now from.now }
        ensures entry { IfOk result (λ next. HasRead (conn self.old) from.now (end_of range.now next) (account self.old) (account self.new) out.old.cells out.new.cells) }
        ensures stop { IfOk result (λ next. StopsIn from.now range.now next) }
        ensures more { IfOk result (StopsAt (stops self.old)) }
        ensures no_memory { OnErr result (HasReadNothing (account self.old) (account self.new) out.old.cells out.new.cells) }
        ensures on { GoesOn conn most seen later self.old self.new };

    /// Adds the snapshot's last cell of a range to `out`. What is read is the part from its key to the range's end. Where
    /// there is none the answer is false, and the whole range is read.
    fn last(&mut self, alloc: Global, range: &Range, out: &mut Part) -> Result<bool, NoMemory>
        requires reading { IsReading (account self.old) }
        ensures some { IfOk result (λ some. some ≡ true → HasReadLast (conn self.old) range.now (account self.old) (account self.new) out.old.cells out.new.cells) }
        ensures none { IfOk result (λ some. some ≡ false → HasReadNone (conn self.old) range.now (account self.old) (account self.new) out.old.cells out.new.cells) }
        ensures no_memory { OnErr result (HasReadNothing (account self.old) (account self.new) out.old.cells out.new.cells) }
        ensures on { GoesOn conn most seen later self.old self.new };

    /// Draws an id, with an ordinal above all of the connection, and makes room for writes in ascending order of keys.
    /// After `Full` only `end` may follow. Out of memory nothing has happened.
    fn reserve(&mut self, alloc: Global, ord: u32, writes: &[Write]) -> Result<(), ReserveFault>
        requires reading { IsReading (account self.old) }
        requires ord { (greatest_ord (txns (account self.old)) < ord) × (ord ≤ 131071) }
        requires ascending { AreAscendingWrites writes.now }
        requires fit { EachFits writes.now }
        ensures entry { OnOk result (HasReserved (conn self.old) ord writes.now (account self.old) (account self.new)) }
        ensures no_room { IfErr result (λ fault. HasNoRoom (conn self.old) ord writes.now fault (account self.old) (account self.new)) }
        ensures full { IfErr result (IsFullOf (fills self.old)) }
        ensures on { GoesOn conn most seen later self.old self.new };

    /// Puts a write for which there is room. It is refused where the key's latest version is another's and undecided, or
    /// was committed above the snapshot.
    fn put(&mut self, key: &[u8], rec: Option<&[u8]>) -> Result<(), Met>
        requires reserved { MayPutNow (account self.old) key.now (option_copied rec) }
        ensures entry { account self.new ≡ entry_of (Put (conn self.old) key.now (option_copied rec.entry)) (put_outcome result) ∷ account self.old }
        ensures met { IfErr result (λ met. NamesOther (conn self.old) key.now met) }
        ensures on { GoesOn conn most seen later self.old self.new };

    /// Proposes a commit number, which is above all that was seen. Earlier checks are void.
    fn propose(&mut self) -> Cid
        requires put { MayProposeNow (account self.old) }
        ensures entry { account self.new ≡ entry_of (Propose (conn self.old)) (Proposed result) ∷ account self.old }
        ensures number { (seen self.old < result.0) × (result.0 ≤ most self.old) }
        ensures on { GoesOn conn most seen later self.old self.new };

    /// Checks a range from a key up to the key that is answered, or to the range's end. It is refused where a commit
    /// above the snapshot and below the proposed number put a key of the part.
    fn check_part(&mut self, from: &[u8], range: &Range) -> Result<Next, Met>
        requires proposing { IsProposing (account self.old) }
        requires from { InRange range.now from.now }
        ensures entry { IfOk result (λ next. HasChecked (conn self.old) from.now (end_of range.now next) (account self.old) (account self.new)) }
        ensures stop { IfOk result (λ next. StopsIn from.now range.now next) }
        ensures more { IfOk result (StopsAt (stops self.old)) }
        ensures met { IfErr result (λ met. HasMet (conn self.old) from.now range.now met (account self.old) (account self.new)) }
        ensures on { GoesOn conn most seen later self.old self.new };

    /// Takes the proposed number, unless another has it. Either way it is seen then.
    fn decide(&mut self) -> Result<Cid, Lost>
        requires checked { MayDecideNow (account self.old) }
        ensures entry { account self.new ≡ entry_of (Decide (conn self.old)) (decide_outcome result) ∷ account self.old }
        ensures number { IfOk result (λ number. Proposes (account self.old) number.0 × (number.0 ≤ seen self.new)) }
        ensures lost { IfErr result (λ lost. Proposes (account self.old) lost.cid.0 × (lost.cid.0 ≤ seen self.new)) }
        ensures on { GoesOn conn most seen later self.old self.new };

    /// Takes a put back. The write may be put again.
    fn unput(&mut self, key: &[u8])
        requires put { MayUnputNow (account self.old) key.now }
        ensures entry { account self.new ≡ entry_of (Unput (conn self.old) key.now) Done ∷ account self.old }
        ensures on { GoesOn conn most seen later self.old self.new };

    /// Ends the transaction, which is rolled back where it is not decided.
    fn end(&mut self)
        requires may_end { MayEndNow (account self.old) }
        ensures entry { account self.new ≡ entry_of (End (conn self.old)) Done ∷ account self.old }
        ensures on { GoesOn conn most seen later self.old self.new };

    /// Each moment is as late as itself.
    ghost later_refl: { (d : Self) → later d d };

    /// What is later than a later moment is later.
    ghost later_trans: { (d e f : Self) → later d e → later e f → later d f };
}
