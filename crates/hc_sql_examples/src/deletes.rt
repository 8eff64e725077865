//! DELETE.
ghost use Rattle.hc_sql_examples.specs.Worked.{Holds};
ghost use Rattle.hc_sql_examples.specs.Deletes.{a_row_is_deleted_by_its_rowid, an_overflow_deletes_nothing, a_row_is_deleted_by_an_index, a_missing_row_is_read_and_not_cleared};

/// Its key is read, and cleared.
pub fn a_row_is_deleted_by_its_rowid()
    ensures { Holds a_row_is_deleted_by_its_rowid }
{}

/// The condition is evaluated on all rows before the first is deleted.
pub fn an_overflow_deletes_nothing()
    ensures { Holds an_overflow_deletes_nothing }
{}

/// The index's range is read, then the row; both cells are cleared.
pub fn a_row_is_deleted_by_an_index()
    ensures { Holds a_row_is_deleted_by_an_index }
{}

/// Its key is read, and nothing is there.
pub fn a_missing_row_is_read_and_not_cleared()
    ensures { Holds a_missing_row_is_read_and_not_cleared }
{}
