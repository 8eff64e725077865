//! INSERT.
ghost use Rattle.hc_sql_examples.specs.Worked.{Holds};
ghost use Rattle.hc_sql_examples.specs.Inserts.{null_takes_an_automatic_rowid, an_emptied_table_begins_at_one, no_rowid_follows_the_greatest, a_row_meets_one_of_its_own_statement, a_repeat_comes_before_a_later_overflow, nulls_are_different_in_a_unique_index, a_text_twice_is_refused, a_primary_key_comes_before_unique_columns, a_column_of_the_primary_key_refuses_null, two_values_for_three_columns_are_refused};

/// NULL for the rowid takes the one after the greatest: what is read is from the last row on.
pub fn null_takes_an_automatic_rowid()
    ensures { Holds null_takes_an_automatic_rowid }
{}

/// After its rows were deleted, the first automatic rowid is 1 again, and the whole table is read.
pub fn an_emptied_table_begins_at_one()
    ensures { Holds an_emptied_table_begins_at_one }
{}

/// After the greatest rowid there is none, and no other is tried.
pub fn no_rowid_follows_the_greatest()
    ensures { Holds no_rowid_follows_the_greatest }
{}

/// A row is tested against the rows of its own statement: the second is refused, and nothing is left of the first.
pub fn a_row_meets_one_of_its_own_statement()
    ensures { Holds a_row_meets_one_of_its_own_statement }
{}

/// The values of a row are computed as it is reached, so the repeat in the first row is found first.
pub fn a_repeat_comes_before_a_later_overflow()
    ensures { Holds a_repeat_comes_before_a_later_overflow }
{}

/// A NULL is tested against no row, so no range of the index is read.
pub fn nulls_are_different_in_a_unique_index()
    ensures { Holds nulls_are_different_in_a_unique_index }
{}

/// The index's range of the text is read, and a row is there.
pub fn a_text_twice_is_refused()
    ensures { Holds a_text_twice_is_refused }
{}

/// Both the primary key and the UNIQUE column made before it are broken: the primary key is tested first.
pub fn a_primary_key_comes_before_unique_columns()
    ensures { Holds a_primary_key_comes_before_unique_columns }
{}

/// NOT NULL is tested after the rowid and before the keys.
pub fn a_column_of_the_primary_key_refuses_null()
    ensures { Holds a_column_of_the_primary_key_refuses_null }
{}

/// The number of values is a fault of binding: only the name is read.
pub fn two_values_for_three_columns_are_refused()
    ensures { Holds two_values_for_three_columns_are_refused }
{}
