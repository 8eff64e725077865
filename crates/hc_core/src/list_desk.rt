// The transaction machine behind a desk.
ghost use Rattle.hc_core.specs.ListDesk.{Owns};

use crate::{Core, Desk, Lost, Met, Next, NoMemory, Outcome, Part, ReserveFault, Write};
use hc_base::Cid;
use hc_range::Range;
use std::alloc::Global;

/// A connection of the transaction machine, counted from 0. Where its open transaction has drawn an id, a desk drew it.
/// It answers neither `More` nor `Full`, and stays at its core.
#[derive(Drop)]
pub struct ListDesk<'a> {
    pub core: &'a mut Core,
    pub conn: u32,
    ghost owns: { Owns core.now conn },
}

impl<'a> Desk for ListDesk<'a> {
    ghost use Rattle.std.specs.Prelude.{ℕ, ◌-◌, ◌^◌, length};
    ghost use Rattle.hc_core.specs.Machine.{account_of};
    ghost use Rattle.hc_core.specs.ListDesk.{IsLaterDesk, later_refl, later_trans};

    ghost conn = { λ desk. desk.conn };

    ghost account = { λ desk. account_of desk.core.now desk.conn };

    ghost seen = { λ desk. length desk.core.now.log };

    ghost most = { λ desk. 2 ^ 32 - 1 };

    ghost stops = { λ _ _. ⊥ };

    ghost fills = { λ _ _. ⊥ };

    ghost later = { λ before after. IsLaterDesk before.conn before.core.ghost_name before.core.now after.conn after.core.ghost_name after.core.now };

    fn conn(&self) -> u32 {
        self.conn
    }

    fn begin(&mut self) -> Cid {
        let Outcome::Began(snapshot) = self.core.begin(self.conn) else {
            unreachable!()
        };
        snapshot
    }

    fn read_part(
        &mut self,
        alloc: Global,
        from: &[u8],
        range: &Range,
        out: &mut Part,
    ) -> Result<Next, NoMemory> {
        self.core.read_part(alloc, self.conn, from, &range.hi, out)?;
        Ok(Next::End)
    }

    fn last(&mut self, alloc: Global, range: &Range, out: &mut Part) -> Result<bool, NoMemory> {
        let some = self.core.last(alloc, self.conn, range, out)?;
        Ok(some)
    }

    fn reserve(&mut self, alloc: Global, ord: u32, writes: &[Write]) -> Result<(), ReserveFault> {
        match self.core.reserve(alloc, self.conn, ord, writes) {
            Ok(()) => Ok(()),
            Err(_) => Err(ReserveFault::NoMemory),
        }
    }

    fn put(&mut self, key: &[u8], rec: Option<&[u8]>) -> Result<(), Met> {
        self.core.see_sound();
        self.core.put_reserved(self.conn, key, rec)
    }

    fn propose(&mut self) -> Cid {
        let Outcome::Proposed(number) = self.core.propose(self.conn) else {
            unreachable!()
        };
        number
    }

    fn check_part(&mut self, from: &[u8], range: &Range) -> Result<Next, Met> {
        self.core.see_sound();
        match self.core.check_unkept(self.conn, from, &range.hi) {
            Ok(()) => Ok(Next::End),
            Err(met) => Err(met),
        }
    }

    fn decide(&mut self) -> Result<Cid, Lost> {
        self.core.see_sound();
        self.core.settle(self.conn)
    }

    fn unput(&mut self, key: &[u8]) {
        self.core.unput(self.conn, key);
    }

    fn end(&mut self) {
        self.core.end(self.conn);
    }

    ghost later_refl = { λ d. later_refl d.conn d.core.ghost_name d.core.now };

    ghost later_trans = { λ d e f one two. later_trans d.conn e.conn f.conn d.core.ghost_name e.core.ghost_name f.core.ghost_name d.core.now e.core.now f.core.now one two };
}
