// What holds of right runs, at any language. Each law is the contract of a function that does nothing.
ghost use Rattle.hc_judge.specs.Laws.{EachChainEndsAtACommit, NoTwoNameEachOther, RightRunHasTransactions};

use hc_meaning::languages::Speech;

/// A right run has its transcripts and transactions, whatever its statements mean. So scripts and transcripts
/// of which none are found are no right run.
pub fn a_right_run_has_transactions<T: Speech>()
    ensures { RightRunHasTransactions T.language }
{}

/// In a right run each chain of refusals with 517 ends at a commit.
pub fn each_chain_ends_at_a_commit<T: Speech>()
    ensures { EachChainEndsAtACommit T.language }
{}

/// In a right run no two transactions are refused with 517 each by the other.
pub fn no_two_name_each_other<T: Speech>()
    ensures { NoTwoNameEachOther T.language }
{}
