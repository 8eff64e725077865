//! UPDATE.
ghost use Rattle.hc_sql_examples.specs.Worked.{Holds};
ghost use Rattle.hc_sql_examples.specs.Updates.{each_rowid_one_up_meets_the_next_row, each_rowid_one_down_is_free, a_new_rowid_moves_the_index_entry, an_unchanged_index_entry_stays, a_rowid_is_not_set_to_null, an_overflow_in_set_changes_nothing, a_text_is_moved_in_its_unique_index};

/// Row after row: the first would take the rowid of the second, which is still there.
pub fn each_rowid_one_up_meets_the_next_row()
    ensures { Holds each_rowid_one_up_meets_the_next_row }
{}

/// Row after row: the second takes the rowid that the first has left.
pub fn each_rowid_one_down_is_free()
    ensures { Holds each_rowid_one_down_is_free }
{}

/// The row's own cell and its entry in the index are set under the new rowid and cleared under the old one.
pub fn a_new_rowid_moves_the_index_entry()
    ensures { Holds a_new_rowid_moves_the_index_entry }
{}

/// Only the row's own cell is set where no column of the index changes.
pub fn an_unchanged_index_entry_stays()
    ensures { Holds an_unchanged_index_entry_stays }
{}

/// NULL for the rowid is refused as for any column that refuses NULL.
pub fn a_rowid_is_not_set_to_null()
    ensures { Holds a_rowid_is_not_set_to_null }
{}

/// All new values are computed before the first row is changed.
pub fn an_overflow_in_set_changes_nothing()
    ensures { Holds an_overflow_in_set_changes_nothing }
{}

/// The index's range of the new text is read; its entry is set, and the old one cleared.
pub fn a_text_is_moved_in_its_unique_index()
    ensures { Holds a_text_is_moved_in_its_unique_index }
{}
