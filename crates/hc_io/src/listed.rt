// Whether a call is among those that a memory source or sink lets fail.
ghost use Rattle.std.specs.Prelude.{◌↔◌, IsTrue, Contains};

use sqlite_items::Items;

pub fn is_listed(fails: &Items<u64>, call: u64) -> bool
    ensures { IsTrue result ↔ Contains fails.now call }
{
    fails.as_slice().contains(&call)
}
