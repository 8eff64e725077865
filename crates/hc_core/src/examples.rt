// Runs of the machine's table that were worked out by hand, as facts of the definitions: they speak of no program.
// Each is the contract of a function that does nothing.
ghost use Rattle.hc_core.specs.Examples.{one_commit, under_a_newer_one, write_skew};
ghost use Rattle.hc_core.specs.Laws.{IsTheRun};

/// One transaction puts a key and commits; a put before it begins is not enabled.
pub fn one_transaction_commits()
    ensures { IsTheRun 2 one_commit }
{}

/// Write skew: of two transactions of which each reads what the other puts, the first one to decide wins. The
/// other may not decide before it has checked, and its check is refused and names the first.
pub fn write_skew_is_refused()
    ensures { IsTheRun 2 write_skew }
{}

/// A check finds a version that is below a newer one.
pub fn a_version_under_a_newer_one_is_found()
    ensures { IsTheRun 3 under_a_newer_one }
{}
