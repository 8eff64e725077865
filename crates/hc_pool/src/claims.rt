//! Pages that are claimed and given back.
ghost use Rattle.std.specs.Prelude.{◌≡◌, ◌<◌, ◌≤◌, IfOk, IfErr};
ghost use Rattle.hc_base.specs.declared.full.Full.TheVariants.{Pages};
ghost use Rattle.hc_rows.specs.Places.{HasPage};
ghost use Rattle.hc_rule.specs.Holders.{IsRegistered};
ghost use Rattle.hc_rule.specs.Views.{bare};
ghost use Rattle.hc_rule.specs.Kinds.StorePage.{Owns, without};
ghost use Rattle.hc_steps.specs.Same.{IsSame, IsAlike};
ghost use Rattle.hc_pool.specs.Claiming.{Claims, FindsTaken, LooksInTurn, TakesInTurn, Tried, in_turn};

use hc_base::{Cid, Full, PageWord, Phys};
use hc_steps::Grip;

/// Claims a free page. It is the seat's then, and its word names no next one. `Full` comes where each page's word was found
/// to be another than that of a free page, and repeats `floor`. The next claim begins at the page that was claimed.
///
/// It looks at the pages in turn from where the seat looked last, goes once round, and loads the word of each page once at most.
/// The seat is registered.
pub fn claim(grip: &mut Grip<'_>, floor: Cid) -> Result<Phys, Full>
    requires registered { IsRegistered grip.old.seat.me.0.stage }
    ensures claimed { IfOk result (λ p. HasPage grip.old.layout p.0 × Claims p.0 grip.old.seat.me.0 grip.new.seat.me.0) }
    ensures full { IfErr result (λ full. full ≡ Pages grip.old.layout.pages floor) }
    ensures cause { IfErr result (λ _. FindsTaken grip.old.layout (HasPage grip.old.layout) grip.old.seat.me.0 grip.new.seat.me.0) }
    ensures taken { IfOk result (λ p. TakesInTurn grip.old.layout grip.old.hint p.0 grip.old.seat.me.0 grip.new.seat.me.0) }
    ensures round { IfErr result (λ _. LooksInTurn grip.old.layout grip.old.hint grip.old.layout.pages grip.old.seat.me.0 grip.new.seat.me.0) }
    ensures next { IfOk result (λ p. grip.new.hint ≡ p.0) × IfErr result (λ _. grip.new.hint ≡ grip.old.hint) }
    ensures registered { IsRegistered grip.new.seat.me.0.stage }
    ensures same { IsAlike grip.old grip.new }
{
    let pages = grip.layout.pages;
    let hint = grip.hint().0;
    'turns: for looked in 0..pages {
        let p = Phys(page_in_turn(pages, hint, looked));
        if try_claim(grip, p) {
            grip.begin_at(p);
            return Ok(p);
        }
    }
    Err(Full::Pages {
        count: pages,
        floor,
    })
}

// The page that comes after so many others in turn.
fn page_in_turn(pages: u32, from: u32, n: u32) -> u32
    requires from { (0 < from) × (from ≤ pages) }
    requires n { n < pages }
    ensures page { (0 < result) × (result ≤ pages) }
    ensures turn { result ≡ in_turn pages from n }
{
    let left = pages - from;
    if n <= left { from + n } else { n - left }
}

// Claims a page where it is found free. A page that another seat takes between was found taken.
fn try_claim(grip: &mut Grip<'_>, p: Phys) -> bool
    requires page { HasPage grip.old.layout p.0 }
    requires registered { IsRegistered grip.old.seat.me.0.stage }
    ensures tried { Tried grip.old.layout p.0 grip.old.seat.me.0 result grip.new.seat.me.0 }
    ensures same { IsSame grip.old grip.new }
{
    match grip.load_page(p) {
        PageWord::Free => grip.take_page(p, PageWord::Free, 0),
        _ => false,
    }
}

/// Gives a page back that the seat owns. The next claim begins there.
pub fn give_back(grip: &mut Grip<'_>, p: Phys)
    requires page { HasPage grip.old.layout p.0 }
    requires owns { Owns grip.old.seat.me.0 p.0 }
    ensures given { grip.new.seat.me ≡ bare (without p.0 grip.old.seat.me.0) }
    ensures next { grip.new.hint ≡ p.0 }
    ensures same { IsAlike grip.old grip.new }
{
    grip.store_page(p, PageWord::Free);
    grip.begin_at(p);
}
