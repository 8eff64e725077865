//! A table `u` with an index of two columns.
ghost use Rattle.hc_sql_examples.specs.Worked.{Makes};
ghost use Rattle.hc_sql_examples.specs.Indexed.{unindexed, with_index, indexed};

/// The database `unindexed`: the table without index and rows.
pub fn makes_unindexed()
    ensures { Makes unindexed }
{}

/// The database `with_index`: with its index.
pub fn makes_with_index()
    ensures { Makes with_index }
{}

/// The database `indexed`: three rows, two of which have the same `a`.
pub fn makes_indexed()
    ensures { Makes indexed }
{}
