// What holds of the transactions of scripts and transcripts. Each law is the contract of a function that does nothing.
ghost use Rattle.hc_verdict.specs.Laws.{TransactionsDifferByName};

/// The connection and the ordinal there tell a transaction.
pub fn transactions_differ_by_name()
    ensures { TransactionsDifferByName }
{}
