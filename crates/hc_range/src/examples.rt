// Sets of keys that were worked out by hand, as facts of the definitions. Each is the contract of a function that
// does nothing.
ghost use Rattle.hc_range.specs.Examples.{OverlapIsOneRange};

/// Two ranges that overlap become one, which covers what lies below the later upper end.
pub fn two_ranges_that_overlap_are_one()
    ensures { OverlapIsOneRange }
{}
