// What follows from the definitions alone. Each law is the contract of a function that does nothing.
ghost use Rattle.hc_rows.specs.Laws.{SeatStepsAreAlone, PageStepsAreAlone, MapStepsAreAlone, TransactionStepsAreAlone, LogStepsAreAlone, RowStepsAreAlone};

/// A step on the word of a connection changes that word, and no other one of any kind.
pub fn seat_steps_are_alone()
    ensures { SeatStepsAreAlone }
{}

/// A step on the word of a page changes that word, and no other one of any kind.
pub fn page_steps_are_alone()
    ensures { PageStepsAreAlone }
{}

/// A step on the word of a logical number changes that word, and no other one of any kind.
pub fn map_steps_are_alone()
    ensures { MapStepsAreAlone }
{}

/// A step on the word of a transaction changes that word, and no other one of any kind.
pub fn transaction_steps_are_alone()
    ensures { TransactionStepsAreAlone }
{}

/// A step on the word of a commit number changes that word, and no other one of any kind.
pub fn log_steps_are_alone()
    ensures { LogStepsAreAlone }
{}

/// A step on a word of a page's row changes that row, and no other word.
pub fn row_steps_are_alone()
    ensures { RowStepsAreAlone }
{}
