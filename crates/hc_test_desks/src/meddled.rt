// A desk over the transaction machine between whose calls another connection makes its events.
ghost use Rattle.std.specs.Prelude.{◌≡◌, ◌≢◌, ◌≤◌, [], length, IfSome, IsTrue};
ghost use Rattle.hc_core.specs.Account.{IsEventOf};
ghost use Rattle.hc_core.specs.Kept.{PutsShortKey};
ghost use Rattle.hc_core.specs.Machine.{account_of};
ghost use Rattle.hc_test_desks.specs.Meddled.{IsFree, IsMeddled};

use hc_base::Cid;
use hc_core::{
    Desk, Event, ListDesk, Lost, Met, Next, NoMemory, Outcome, Part, ReserveFault, Write,
};
use hc_range::Range;
use std::alloc::Global;

/// What another connection does.
#[derive(Debug, Drop)]
pub enum Turn {
    /// It makes an event, where that is one of its own.
    Make(Event),
    /// It waits until the next call of the desk.
    Wait,
}

/// A connection of the transaction machine. Before each of its calls another connection makes its events up to its next `Wait`:
/// so it commits between two calls of a transaction, and between two steps of a commit.
#[derive(Drop)]
pub struct MeddledDesk<'a> {
    desk: ListDesk<'a>,
    other: u32,
    // The next one last.
    turns: Vec<Turn>,
    /// What the other connection was answered, in order. Without memory an answer is left out.
    pub answers: Vec<Outcome>,
    ghost meddled: { IsMeddled desk.conn desk.core.now other },
}

// Whether an event is one of a connection, with a key that can be stored.
fn may_come(event: &Event, conn: u32) -> bool
    ensures { IsTrue result → IsEventOf conn event.now × PutsShortKey event.now }
{
    match event {
        Event::Put { conn: own, key, .. } => *own == conn && key.as_slice().len() <= 463,
        Event::Begin { conn: own }
        | Event::Draw { conn: own, .. }
        | Event::Read { conn: own, .. }
        | Event::Propose { conn: own }
        | Event::Check { conn: own, .. }
        | Event::Decide { conn: own }
        | Event::Unput { conn: own, .. }
        | Event::End { conn: own } => *own == conn,
        Event::Purge { .. } => false,
    }
}

// An event of another connection.
fn make_other(desk: &mut ListDesk<'_>, other: u32, event: &Event) -> Option<Outcome>
    requires apart { other ≢ desk.old.conn }
    requires free { IsFree desk.old.core.now other }
    ensures free { IsFree desk.new.core.now other }
    ensures conn { desk.new.conn ≡ desk.old.conn }
    ensures same { account_of desk.new.core.now desk.old.conn ≡ account_of desk.old.core.now desk.old.conn }
    ensures seen { length desk.old.core.now.log ≤ length desk.new.core.now.log }
{
    if !may_come(event, other) {
        return None;
    }
    match desk.core.step(event) {
        Ok(outcome) => Some(outcome),
        Err(_) => None,
    }
}

impl<'a> MeddledDesk<'a> {
    /// A desk, and what another connection does, in order. There is none where the other is the desk's own connection. It has no
    /// transaction yet.
    pub fn new(
        alloc: Global,
        desk: ListDesk<'a>,
        other: u32,
        mut turns: Vec<Turn>,
    ) -> Option<MeddledDesk<'a>>
        requires { account_of desk.core.now other ≡ [] }
        ensures { IfSome result (λ meddled. account_of meddled.desk.core.now meddled.desk.conn ≡ account_of desk.entry.core.now desk.entry.conn) }
    {
        if other == desk.conn {
            return None;
        }
        turns.reverse();
        Some(MeddledDesk {
            desk,
            other,
            turns,
            answers: Vec::new(alloc),
        })
    }

    // The other makes an event.
    fn make(&mut self, event: &Event)
        ensures conn { self.new.desk.conn ≡ self.old.desk.conn }
        ensures same { account_of self.new.desk.core.now self.old.desk.conn ≡ account_of self.old.desk.core.now self.old.desk.conn }
        ensures seen { length self.old.desk.core.now.log ≤ length self.new.desk.core.now.log }
    {
        if let Some(outcome) = make_other(&mut self.desk, self.other, event) {
            let _ = self.answers.push(outcome);
        }
    }

    // The other makes its events up to where it waits.
    fn meddle(&mut self)
        ensures conn { self.new.desk.conn ≡ self.old.desk.conn }
        ensures same { account_of self.new.desk.core.now self.old.desk.conn ≡ account_of self.old.desk.core.now self.old.desk.conn }
        ensures seen { length self.old.desk.core.now.log ≤ length self.new.desk.core.now.log }
    {
        for _ in 0..self.turns.len() {
            let Some(Turn::Make(event)) = self.turns.pop() else {
                return;
            };
            self.make(&event);
        }
    }
}

impl<'a> Desk for MeddledDesk<'a> {
    ghost use Rattle.std.specs.Prelude.{ℕ, ◌-◌, ◌^◌, length};
    ghost use Rattle.hc_core.specs.Machine.{account_of};

    ghost conn = { λ m. m.desk.conn };

    ghost account = { λ m. account_of m.desk.core.now m.desk.conn };

    ghost seen = { λ m. length m.desk.core.now.log };

    ghost most = { λ m. 2 ^ 32 - 1 };

    ghost stops = { λ _ _. ⊥ };

    ghost fills = { λ _ _. ⊥ };

    ghost later = { λ _ _. Unit {0} };

    fn conn(&self) -> u32 {
        self.desk.conn()
    }

    fn begin(&mut self) -> Cid {
        self.meddle();
        self.desk.begin()
    }

    fn read_part(
        &mut self,
        alloc: Global,
        from: &[u8],
        range: &Range,
        out: &mut Part,
    ) -> Result<Next, NoMemory> {
        self.meddle();
        self.desk.read_part(alloc, from, range, out)
    }

    fn last(&mut self, alloc: Global, range: &Range, out: &mut Part) -> Result<bool, NoMemory> {
        self.meddle();
        self.desk.last(alloc, range, out)
    }

    fn reserve(&mut self, alloc: Global, ord: u32, writes: &[Write]) -> Result<(), ReserveFault> {
        self.meddle();
        self.desk.reserve(alloc, ord, writes)
    }

    fn put(&mut self, key: &[u8], rec: Option<&[u8]>) -> Result<(), Met> {
        self.meddle();
        self.desk.put(key, rec)
    }

    fn propose(&mut self) -> Cid {
        self.meddle();
        self.desk.propose()
    }

    fn check_part(&mut self, from: &[u8], range: &Range) -> Result<Next, Met> {
        self.meddle();
        self.desk.check_part(from, range)
    }

    fn decide(&mut self) -> Result<Cid, Lost> {
        self.meddle();
        self.desk.decide()
    }

    fn unput(&mut self, key: &[u8]) {
        self.meddle();
        self.desk.unput(key);
    }

    fn end(&mut self) {
        self.meddle();
        self.desk.end();
    }

    ghost later_refl = { λ d. tt };

    ghost later_trans = { λ d e f one two. tt };
}
