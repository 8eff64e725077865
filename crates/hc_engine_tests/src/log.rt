//! Transactions that read and put nothing: what they find of ids, of the log and of each other.
ghost use Rattle.std.specs.Prelude.{◌≡◌, ◌+◌, ◌≤◌, IfSome};
ghost use Rattle.hc_rows.specs.Places.{HasTid, HasPlace};
ghost use Rattle.hc_test_txns.specs.Stages.{MayStart, IsDrawn, Validates, IsOrdinal, IsSameLone};

use hc_base::{Cid, Full, Tid, TidWord};
use hc_steps::{Grip, Note};
use hc_test_txns::{Lone, Whole};
use hc_tidlog::{log_end, state_of};

// Begins a transaction and draws its id, where there is one.
fn open(lone: &mut Lone<'_>) -> Option<Tid>
    requires may { MayStart lone.old.ord lone.old.grip.seat.me.0 }
    requires ord { IsOrdinal lone.old.ord }
    ensures drawn { IfSome result (λ t. HasTid lone.old.grip.layout t.0 × IsDrawn t.0 lone.old.ord 0 0 lone.new.grip.seat.me.0) }
    ensures same { IsSameLone lone.old lone.new }
{
    lone.start();
    lone.draw().ok()
}

// Proposes the next number, and says in the word of the id that it validates it.
fn propose(lone: &mut Lone<'_>, t: Tid) -> Cid
    requires tid { HasTid lone.old.grip.layout t.0 }
    requires ord { IsOrdinal lone.old.ord }
    requires drawn { IsDrawn t.0 lone.old.ord 0 0 lone.old.grip.seat.me.0 }
    ensures place { HasPlace lone.old.grip.layout result.0 }
    ensures validates { Validates lone.old.grip.conn t.0 lone.old.ord result.0 lone.new.grip.seat.me.0 }
    ensures same { IsSameLone lone.old lone.new }
{
    let c = lone.propose(t);
    lone.validate(t, c);
    c
}

// The number that one connection won, the number that another one lost, and the id that it lost it to.
#[derive(Clone, Copy, PartialEq, Debug)]
struct Duel {
    won: Cid,
    lost: Cid,
    lost_to: Tid,
}

// Two connections, which have drawn their ids, propose numbers. The first wins its number, and then the second loses its own.
fn contend(first: &mut Lone<'_>, one: Tid, second: &mut Lone<'_>, two: Tid) -> Option<Duel>
    requires one { HasTid first.old.grip.layout one.0 × IsDrawn one.0 first.old.ord 0 0 first.old.grip.seat.me.0 × IsOrdinal first.old.ord }
    requires two { HasTid second.old.grip.layout two.0 × IsDrawn two.0 second.old.ord 0 0 second.old.grip.seat.me.0 × IsOrdinal second.old.ord }
    ensures place { IfSome result (λ d. HasPlace first.old.grip.layout d.won.0) }
    ensures won { IfSome result (λ d. IsDrawn one.0 first.old.ord d.won.0 d.won.0 first.new.grip.seat.me.0) }
    ensures lost { IfSome result (λ _. IsDrawn two.0 second.old.ord 0 0 second.new.grip.seat.me.0) }
    ensures same { IsSameLone first.old first.new × IsSameLone second.old second.new }
{
    let won = propose(first, one);
    let lost = propose(second, two);
    let Ok(()) = first.win(one, won) else {
        return None;
    };
    let Err(lost_to) = second.win(two, lost) else {
        return None;
    };
    Some(Duel { won, lost, lost_to })
}

// What the loser of a number sees: the state of the winner's id and its word, the state of its own id, and the log's end.
#[derive(Clone, Copy, PartialEq, Debug)]
struct Sight {
    winner: TidWord,
    word: TidWord,
    own: TidWord,
    end: Cid,
}

fn look(grip: &mut Grip<'_>, winner: Tid, own: Tid) -> Sight
    requires winner { HasTid grip.old.layout winner.0 }
    requires own { HasTid grip.old.layout own.0 }
{
    let state = state_of(grip, winner);
    let word = grip.load_tid(winner);
    let undecided = state_of(grip, own);
    Sight {
        winner: state,
        word,
        own: undecided,
        end: log_end(grip),
    }
}

// A contest of two connections beside a third one: the snapshots of all, what each draws, and how it ends.
#[derive(Clone, Copy, PartialEq, Debug)]
struct Contest {
    snapshots: [Cid; 3],
    ids: [Tid; 2],
    third: Result<Tid, Full>,
    duel: Duel,
    sight: Sight,
}

fn compete(a: &mut Lone<'_>, b: &mut Lone<'_>, c: &mut Lone<'_>) -> Option<Contest>
    requires a { MayStart a.old.ord a.old.grip.seat.me.0 × IsOrdinal a.old.ord }
    requires b { MayStart b.old.ord b.old.grip.seat.me.0 × IsOrdinal b.old.ord }
    requires c { MayStart c.old.ord c.old.grip.seat.me.0 × IsOrdinal c.old.ord }
    requires region { b.old.grip.layout ≡ a.old.grip.layout }
{
    let snapshots = [a.start(), b.start(), c.start()];
    let one = a.draw().ok()?;
    let two = b.draw().ok()?;
    let third = c.draw();
    let duel = contend(a, one, b, two)?;
    Some(Contest {
        snapshots,
        ids: [one, two],
        third,
        duel,
        sight: look(&mut b.grip, one, two),
    })
}

// The one that lost proposes again, and wins that number. Both end then.
fn settle(first: &mut Lone<'_>, second: &mut Lone<'_>) -> Option<Cid>
    requires first { MayStart first.old.ord first.old.grip.seat.me.0 × IsOrdinal first.old.ord }
    requires second { MayStart second.old.ord second.old.grip.seat.me.0 × IsOrdinal second.old.ord }
    ensures first { IfSome result (λ _. MayStart first.new.ord first.new.grip.seat.me.0 × (first.new.ord ≡ first.old.ord + 1)) }
    ensures second { IfSome result (λ _. MayStart second.new.ord second.new.grip.seat.me.0 × (second.new.ord ≡ second.old.ord + 1)) }
{
    let one = open(first)?;
    let two = open(second)?;
    let duel = contend(first, one, second, two)?;
    let next = propose(second, two);
    let Ok(()) = second.win(two, next) else {
        return None;
    };
    first.finish(one, duel.won);
    second.finish(two, next);
    Some(next)
}

// Begins a transaction and draws an id: its snapshot, and what it drew.
fn try_open(lone: &mut Lone<'_>) -> (Cid, Result<Tid, Full>)
    requires may { MayStart lone.old.ord lone.old.grip.seat.me.0 }
    requires ord { IsOrdinal lone.old.ord }
{
    let snapshot = lone.start();
    let id = lone.draw();
    (snapshot, id)
}

// Two connections settle, and then the first of them and a third one begin again: the number that was won last, and what the two
// find.
fn exhaust(
    first: &mut Lone<'_>,
    second: &mut Lone<'_>,
    third: &mut Lone<'_>,
) -> Option<(Cid, (Cid, Result<Tid, Full>), (Cid, Result<Tid, Full>))>
    requires first { MayStart 1 first.old.grip.seat.me.0 × (first.old.ord ≡ 1) }
    requires second { MayStart 1 second.old.grip.seat.me.0 × (second.old.ord ≡ 1) }
    requires third { MayStart 1 third.old.grip.seat.me.0 × (third.old.ord ≡ 1) }
{
    let last = settle(first, second)?;
    let one = try_open(first);
    let other = try_open(third);
    Some((last, one, other))
}

// The states of one id, as another connection finds them: before it is drawn, when it is drawn, when it validates a number, and
// when it is committed.
fn states(lone: &mut Lone<'_>, reader: &mut Grip<'_>) -> Option<[TidWord; 4]>
    requires may { MayStart lone.old.ord lone.old.grip.seat.me.0 }
    requires ord { IsOrdinal lone.old.ord }
    requires region { reader.old.layout ≡ lone.old.grip.layout }
{
    let undrawn = state_of(reader, Tid(1));
    let t = open(lone)?;
    let live = state_of(reader, t);
    let c = propose(lone, t);
    let validating = state_of(reader, t);
    let Ok(()) = lone.win(t, c) else {
        return None;
    };
    lone.finish(t, c);
    Some([undrawn, live, validating, state_of(reader, t)])
}

// Transactions of two connections whose ids are drawn in turn: the first id, whether the other one drew it too, and the id that
// it drew then.
fn draw_both(a: &mut Lone<'_>, b: &mut Lone<'_>) -> Option<(Tid, bool, Tid)>
    requires a { MayStart a.old.ord a.old.grip.seat.me.0 × IsOrdinal a.old.ord }
    requires b { MayStart b.old.ord b.old.grip.seat.me.0 × IsOrdinal b.old.ord }
{
    let one = open(a)?;
    b.start();
    if b.draw_first() {
        return Some((one, true, Tid(1)));
    }
    let two = b.draw().ok()?;
    Some((one, false, two))
}

// Draws an id, which is rolled back: the id, and what another connection finds of it then.
fn roll_back(lone: &mut Lone<'_>, reader: &mut Grip<'_>) -> Option<(Tid, TidWord)>
    requires may { MayStart lone.old.ord lone.old.grip.seat.me.0 }
    requires ord { IsOrdinal lone.old.ord }
    requires region { reader.old.layout ≡ lone.old.grip.layout }
{
    let t = open(lone)?;
    lone.roll_back(t);
    Some((t, state_of(reader, t)))
}

// Takes in what another connection has seen, and begins: how much it has seen, and its snapshot.
fn learn(lone: &mut Lone<'_>, note: Note) -> (Cid, Cid)
    requires may { MayStart lone.old.ord lone.old.grip.seat.me.0 }
    requires table { note.seat.table_id ≡ lone.old.grip.seat.table_id }
    requires seen { note.seen.0 ≤ lone.old.grip.layout.transactions }
{
    lone.grip.learn(note);
    let seen = lone.grip.seen();
    (seen, lone.start())
}

#[cfg(test)]
mod tests {
    use super::*;
    use hc_rows::Layout;
    use hc_steps::Region;
    use std::test::Fail;

    fn layout(transactions: u32, seats: u32) -> Layout
        ensures { (result.pages ≡ 2) × (result.numbers ≡ 2) × (result.transactions ≡ transactions) × (result.seats ≡ seats) }
    {
        Layout {
            pages: 2,
            numbers: 2,
            transactions,
            seats,
        }
    }

    fn validating(conn: u32, c: u32) -> TidWord {
        TidWord::Validating {
            conn,
            ord: 1,
            c: Cid(c),
        }
    }

    fn committed(conn: u32, c: u32) -> TidWord {
        TidWord::Committed {
            conn,
            ord: 1,
            c: Cid(c),
        }
    }

    // There are two ids for three connections. Two of these propose number 1. It is the winner's, although the winner's word says
    // yet that it validates. The loser's word says the same, and it is undecided.
    #[test]
    fn one_of_two_wins_a_number(rt: HostRuntime) -> Result<(), Fail> {
        let (region, mut dealer) = Region::make(rt.alloc(), layout(2, 3))?;
        let mut a = Lone::new(region.deal(&mut dealer));
        let mut b = Lone::new(region.deal(&mut dealer));
        let mut c = Lone::new(region.deal(&mut dealer));
        let wanted = Contest {
            snapshots: [Cid(0), Cid(0), Cid(0)],
            ids: [Tid(1), Tid(2)],
            third: Err(Full::Transactions(2)),
            duel: Duel {
                won: Cid(1),
                lost: Cid(1),
                lost_to: Tid(1),
            },
            sight: Sight {
                winner: committed(0, 1),
                word: validating(0, 1),
                own: validating(1, 1),
                end: Cid(1),
            },
        };
        assert_eq!(rt; compete(&mut a, &mut b, &mut c), Some(wanted));
        Ok(())
    }

    // The one that lost number 1 wins number 2, the last one. No id is left then, for a connection that had one nor for another.
    #[test]
    fn the_last_id_and_the_last_number_are_taken(rt: HostRuntime) -> Result<(), Fail> {
        let (region, mut dealer) = Region::make(rt.alloc(), layout(2, 4))?;
        let mut a = Lone::new(region.deal(&mut dealer));
        let mut b = Lone::new(region.deal(&mut dealer));
        let mut c = Lone::new(region.deal(&mut dealer));
        let mut reader = region.deal(&mut dealer);
        let full = (Cid(2), Err(Full::Transactions(2)));
        assert_eq!(rt; exhaust(&mut a, &mut b, &mut c), Some((Cid(2), full, full)));
        assert_eq!(rt; log_end(&mut reader), Cid(2));
        assert_eq!(rt; state_of(&mut reader, Tid(2)), committed(1, 2));
        Ok(())
    }

    #[test]
    fn a_state_is_told_at_each_stage(rt: HostRuntime) -> Result<(), Fail> {
        let (region, mut dealer) = Region::make(rt.alloc(), layout(1, 2))?;
        let mut a = Lone::new(region.deal(&mut dealer));
        let mut reader = region.deal(&mut dealer);
        let live = TidWord::Live { conn: 0, ord: 1 };
        assert_eq!(rt;
            states(&mut a, &mut reader),
            Some([TidWord::Empty, live, validating(0, 1), committed(0, 1)])
        );
        Ok(())
    }

    // An exchange at id 1 is lost to another connection, and id 2 is drawn. What is rolled back has no number, and its id is no
    // one else's.
    #[test]
    fn an_id_is_lost_to_another(rt: HostRuntime) -> Result<(), Fail> {
        let (region, mut dealer) = Region::make(rt.alloc(), layout(3, 4))?;
        let mut a = Lone::new(region.deal(&mut dealer));
        let mut b = Lone::new(region.deal(&mut dealer));
        let mut c = Lone::new(region.deal(&mut dealer));
        let mut reader = Lone::new(region.deal(&mut dealer));
        let rolled_back = TidWord::RolledBack { conn: 2, ord: 1 };
        assert_eq!(rt; draw_both(&mut a, &mut b), Some((Tid(1), false, Tid(2))));
        assert_eq!(rt;
            roll_back(&mut c, &mut reader.grip),
            Some((Tid(3), rolled_back))
        );
        Ok(())
    }

    // A connection that was told has seen what the other one had seen, and one that was not told finds it by a look.
    #[test]
    fn a_seat_is_told_or_looks(rt: HostRuntime) -> Result<(), Fail> {
        let (region, mut dealer) = Region::make(rt.alloc(), layout(5, 3))?;
        let mut a = Lone::new(region.deal(&mut dealer));
        let mut told = Lone::new(region.deal(&mut dealer));
        let mut untold = region.deal(&mut dealer);
        let second = Whole {
            snapshot: Cid(1),
            id: Tid(2),
            number: Cid(2),
        };
        a.run();
        assert_eq!(rt; a.run(), Some(second));
        let note = a.grip.tell();
        assert_eq!(rt; learn(&mut told, note), (Cid(2), Cid(2)));
        assert_eq!(rt; untold.seen(), Cid(0));
        assert_eq!(rt; log_end(&mut untold), Cid(2));
        Ok(())
    }
}
