//! Two tables `a` and `b`, whose first columns are their rowids. In `a` there is the greatest integer.
ghost use Rattle.hc_sql_examples.specs.Worked.{Makes};
ghost use Rattle.hc_sql_examples.specs.Linked.{one_table, two_tables, half_linked, linked};

/// The database `one_table`: the first table alone.
pub fn makes_one_table()
    ensures { Makes one_table }
{}

/// The database `two_tables`: both, without rows.
pub fn makes_two_tables()
    ensures { Makes two_tables }
{}

/// The database `half_linked`: rows in the first.
pub fn makes_half_linked()
    ensures { Makes half_linked }
{}

/// The database `linked`: rows in both.
pub fn makes_linked()
    ensures { Makes linked }
{}
