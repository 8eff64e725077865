//! CREATE TABLE and CREATE INDEX.
ghost use Rattle.hc_sql_examples.specs.Worked.{Holds};
ghost use Rattle.hc_sql_examples.specs.Creates.{a_unique_index_over_repeats_is_refused, a_unique_index_has_an_entry_for_each_row, if_not_exists_reads_the_catalog_and_does_nothing, a_tree_number_is_used_again, no_tree_number_follows_the_last, a_long_name_is_too_big_for_its_cell, a_name_in_use_is_refused, an_index_wants_its_table_first};

/// NULLs are no repeats. The entries before the repeat are set by then; no range of the new index is read.
pub fn a_unique_index_over_repeats_is_refused()
    ensures { Holds a_unique_index_over_repeats_is_refused }
{}

/// Row after row its entry is set, and then the index's own cells.
pub fn a_unique_index_has_an_entry_for_each_row()
    ensures { Holds a_unique_index_has_an_entry_for_each_row }
{}

/// A table has the name, so not even the columns are looked at.
pub fn if_not_exists_reads_the_catalog_and_does_nothing()
    ensures { Holds if_not_exists_reads_the_catalog_and_does_nothing }
{}

/// The table of tree 1 was dropped, so the next table has it again.
pub fn a_tree_number_is_used_again()
    ensures { Holds a_tree_number_is_used_again }
{}

/// After the greatest number of 32 bits there is none.
pub fn no_tree_number_follows_the_last()
    ensures { Holds no_tree_number_follows_the_last }
{}

/// The table's own cell is the first in order of keys: 16 bytes, 238 of the key, 229 of the record.
pub fn a_long_name_is_too_big_for_its_cell()
    ensures { Holds a_long_name_is_too_big_for_its_cell }
{}

/// Tables and indexes share one name space.
pub fn a_name_in_use_is_refused()
    ensures { Holds a_name_in_use_is_refused }
{}

/// The table is looked for before IF NOT EXISTS.
pub fn an_index_wants_its_table_first()
    ensures { Holds an_index_wants_its_table_first }
{}
