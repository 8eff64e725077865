// A desk over a desk that goes over each range in several calls.
ghost use Rattle.std.specs.Prelude.{◌≡◌, MatchOption, IfOk};
ghost use Rattle.hc_core.specs.Cutting.{IsCutAt, IsUpto, stopped_by};

use crate::{Desk, Lost, Met, Next, NoMemory, Part, ReserveFault, Write};
use hc_base::Cid;
use hc_range::{Bytes, KeyBuf, Range, contains, is_below};
use std::alloc::Global;

// A key at which ranges are cut, and the range of all keys below it.
#[derive(Drop)]
struct Cut {
    key: KeyBuf,
    below: Range,
    ghost upto: { IsUpto key below },
}

/// A desk over another one, that cuts each range at given keys: a call stops at such a key in the range and answers
/// `More`. It asks no more of a caller than the desk below it, and keeps each promise of a desk.
#[derive(Drop)]
pub struct CutDesk<D> {
    desk: D,
    cuts: Vec<Cut>,
}

fn cut_at(alloc: Global, key: &KeyBuf) -> Result<Cut, NoMemory> {
    Ok(Cut {
        key: *key,
        below: Range {
            lo: Bytes::from_slice(alloc, &[])?,
            hi: Some(Bytes::from_slice(alloc, key.as_slice())?),
        },
    })
}

// The first of the keys that is above a key and in a range.
fn cut_above<'a>(cuts: &'a [Cut], from: &[u8], range: &Range) -> Option<&'a Cut>
    ensures { MatchOption result (Unit {0}) (λ cut. IsCutAt from.now range.now cut.now.key) }
{
    for cut in cuts {
        if is_below(from, cut.key.as_slice()) && contains(range, cut.key.as_slice()) {
            return Some(cut);
        }
    }
    None
}

// How far a call went in a range, that went so far below a key.
fn stopped_by(next: Next, key: KeyBuf) -> Next
    ensures { result ≡ stopped_by key next }
{
    match next {
        Next::More(stop) => Next::More(stop),
        Next::End => Next::More(key),
    }
}

impl<D: Desk + Drop> CutDesk<D> {
    /// A desk over a desk, that cuts ranges at these keys. A call stops at the first of them that it may stop at.
    pub fn new(alloc: Global, desk: D, keys: &[KeyBuf]) -> Result<CutDesk<D>, NoMemory>
        ensures { IfOk result (λ cut. cut.desk ≡ desk) }
    {
        let mut cuts = Vec::new(alloc);
        for key in keys {
            cuts.push(cut_at(alloc, key)?)?;
        }
        Ok(CutDesk { desk, cuts })
    }

    /// Gives back the desk below.
    pub fn into_inner(self) -> D
        ensures { result ≡ self.desk }
    {
        let CutDesk { desk, cuts: _cuts } = self;
        desk
    }
}

impl<D: Desk> Desk for CutDesk<D> {
    ghost conn = { λ cut. D.conn cut.desk };

    ghost account = { λ cut. D.account cut.desk };

    ghost seen = { λ cut. D.seen cut.desk };

    ghost most = { λ cut. D.most cut.desk };

    ghost stops = { λ _ _. Unit {0} };

    ghost fills = { λ cut. D.fills cut.desk };

    ghost later = { λ before after. D.later before.desk after.desk };

    fn conn(&self) -> u32 {
        self.desk.conn()
    }

    fn begin(&mut self) -> Cid {
        self.desk.begin()
    }

    fn read_part(
        &mut self,
        alloc: Global,
        from: &[u8],
        range: &Range,
        out: &mut Part,
    ) -> Result<Next, NoMemory> {
        let Some(cut) = cut_above(self.cuts.as_slice(), from, range) else {
            return self.desk.read_part(alloc, from, range, out);
        };
        let next = self.desk.read_part(alloc, from, &cut.below, out)?;
        Ok(stopped_by(next, cut.key))
    }

    fn last(&mut self, alloc: Global, range: &Range, out: &mut Part) -> Result<bool, NoMemory> {
        self.desk.last(alloc, range, out)
    }

    fn reserve(&mut self, alloc: Global, ord: u32, writes: &[Write]) -> Result<(), ReserveFault> {
        self.desk.reserve(alloc, ord, writes)
    }

    fn put(&mut self, key: &[u8], rec: Option<&[u8]>) -> Result<(), Met> {
        self.desk.put(key, rec)
    }

    fn propose(&mut self) -> Cid {
        self.desk.propose()
    }

    fn check_part(&mut self, from: &[u8], range: &Range) -> Result<Next, Met> {
        let Some(cut) = cut_above(self.cuts.as_slice(), from, range) else {
            return self.desk.check_part(from, range);
        };
        match self.desk.check_part(from, &cut.below) {
            Ok(next) => Ok(stopped_by(next, cut.key)),
            Err(met) => Err(met),
        }
    }

    fn decide(&mut self) -> Result<Cid, Lost> {
        self.desk.decide()
    }

    fn unput(&mut self, key: &[u8]) {
        self.desk.unput(key);
    }

    fn end(&mut self) {
        self.desk.end();
    }

    ghost later_refl = { λ d. D.later_refl d.desk };

    ghost later_trans = { λ d e f one two. D.later_trans d.desk e.desk f.desk one two };
}
