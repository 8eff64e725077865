//! A table `t` of two columns, of which the first is the rowid.
ghost use Rattle.hc_sql_examples.specs.Worked.{Makes};
ghost use Rattle.hc_sql_examples.specs.Pairs.{bare, pairs, emptied, dropped, full, repeating};

/// The database `bare`: no row.
pub fn makes_bare()
    ensures { Makes bare }
{}

/// The database `pairs`: two rows, 1 and 2.
pub fn makes_pairs()
    ensures { Makes pairs }
{}

/// The database `emptied`: its rows were deleted.
pub fn makes_emptied()
    ensures { Makes emptied }
{}

/// The database `dropped`: it was dropped.
pub fn makes_dropped()
    ensures { Makes dropped }
{}

/// The database `full`: a row of the greatest rowid.
pub fn makes_full()
    ensures { Makes full }
{}

/// The database `repeating`: four rows: 10 twice, and NULL twice between them.
pub fn makes_repeating()
    ensures { Makes repeating }
{}
