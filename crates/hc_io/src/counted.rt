// A call that failed, counted.
ghost use Rattle.std.specs.Prelude.{◌≡◌, ◌≤◌};
ghost use Rattle.hc_io.specs.Faults.{one_more};

use crate::Failed;

/// What a call that failed answers, after one more was counted. At the greatest value the count stays.
pub fn counted(faults: &mut u64) -> Failed
    ensures count { faults.new ≡ one_more faults.old }
    ensures kept { faults.old ≤ faults.new }
{
    *faults = faults.saturating_add(1);
    Failed
}
