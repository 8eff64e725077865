//! The states of transactions, and who wins a place of the log.
ghost use Rattle.std.specs.Prelude.{◌≡◌, ◌≢◌, ◌<◌, ◌≤◌, IfOk, IfErr};
ghost use Rattle.hc_base.specs.Words.{IsTidWord};
ghost use Rattle.hc_rows.specs.Places.{HasTid, HasPlace};
ghost use Rattle.hc_rule.specs.Views.{bare};
ghost use Rattle.hc_rule.specs.Kinds.TidWord.{MayStoreTid, said};
ghost use Rattle.hc_rule.specs.Kinds.WinLog.{MayWin, won_by, lost_to};
ghost use Rattle.hc_steps.specs.Own.{own_store, own_win};
ghost use Rattle.hc_steps.specs.Same.{IsSame};
ghost use Rattle.hc_tidlog.specs.Telling.{Tells, FindsPlace};

use hc_base::{Cid, Tid, TidWord};
use hc_steps::Grip;

/// Sets the word of the id that the seat has drawn: that it validates the number that it proposes, that it is committed at
/// the number that it won, or that it is rolled back, which is its last word. It is rolled back only where it is undecided and
/// has nothing in its write set.
pub fn set_state(grip: &mut Grip<'_>, w: TidWord)
    requires may { MayStoreTid (own_store grip.old.conn w grip.old.seat.me.0) grip.old.seat.me.0 }
    ensures said { grip.new.seat.me ≡ bare (said w grip.old.seat.me.0) }
    ensures same { IsSame grip.old grip.new }
{
    grip.store_tid(w);
}

/// Wins the commit number that the transaction proposes: it is committed then. `Err` comes where the number was found taken,
/// with the id that has it, and the proposal is void.
pub fn win(grip: &mut Grip<'_>, c: Cid) -> Result<(), Tid>
    requires place { HasPlace grip.old.layout c.0 }
    requires may { MayWin (own_win grip.old.conn c.0 grip.old.layout.transactions grip.old.seat.me.0) grip.old.seat.me.0 }
    ensures won { IfOk result (λ _. grip.new.seat.me ≡ bare (won_by (own_win grip.old.conn c.0 grip.old.layout.transactions grip.old.seat.me.0) grip.old.seat.me.0)) }
    ensures lost { IfErr result (λ other. (other.0 ≢ 0) × (other.0 ≤ grip.old.layout.transactions) × (grip.new.seat.me ≡ bare (lost_to (own_win grip.old.conn c.0 grip.old.layout.transactions grip.old.seat.me.0) other.0 grip.old.seat.me.0))) }
    ensures same { IsSame grip.old grip.new }
{
    grip.win_log(c)
}

/// What the word of an id says of its transaction, by a load of it, which is noted. A word that says validating is found
/// committed where the log has the id at the number that it names, by a load after that of the word; else the transaction was
/// undecided. Nobody has drawn an id whose word is found empty.
pub fn state_of(grip: &mut Grip<'_>, t: Tid) -> TidWord
    requires tid { HasTid grip.old.layout t.0 }
    ensures told { Tells grip.old.layout t.0 result grip.old.seat.me.0 grip.new.seat.me.0 }
    ensures form { IsTidWord result }
    ensures same { IsSame grip.old grip.new }
{
    let word = grip.load_tid(t);
    if let TidWord::Validating { conn, ord, c } = word {
        if is_at(grip, t, c) {
            return TidWord::Committed { conn, ord, c };
        }
    }
    word
}

// Whether a place of the log has this id. No transaction is past the last place.
fn is_at(grip: &mut Grip<'_>, t: Tid, c: Cid) -> bool
    requires some { 0 < c.0 }
    ensures found { FindsPlace grip.old.layout t.0 c.0 grip.old.seat.me.0 result grip.new.seat.me.0 }
    ensures same { IsSame grip.old grip.new }
{
    if c.0 > grip.layout.transactions {
        return false;
    }
    match grip.load_log(c) {
        Some(other) => other.0 == t.0,
        None => false,
    }
}
