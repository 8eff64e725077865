//! Where a claim of a page begins.
ghost use Rattle.std.specs.Prelude.{◌≡◌};
ghost use Rattle.hc_rows.specs.Places.{HasPage};
ghost use Rattle.hc_steps.specs.Same.{IsAlike};

use crate::grip::Grip;
use hc_base::Phys;

impl<'a> Grip<'a> {
    /// Where the next claim of a page begins.
    pub fn hint(&self) -> Phys
        ensures page { HasPage self.now.layout result.0 }
        ensures hint { result.0 ≡ self.now.hint }
    {
        Phys(self.hint)
    }

    /// The next claim of a page begins at this one.
    pub fn begin_at(&mut self, p: Phys)
        requires page { HasPage self.old.layout p.0 }
        ensures hint { self.new.hint ≡ p.0 }
        ensures seat { self.new.seat.me ≡ self.old.seat.me }
        ensures same { IsAlike self.old self.new }
    {
        self.hint = p.0;
    }
}
