//! DROP TABLE and DROP INDEX.
ghost use Rattle.hc_sql_examples.specs.Worked.{Holds};
ghost use Rattle.hc_sql_examples.specs.Drops.{a_table_goes_with_its_rows, a_table_goes_with_the_names_of_its_automatic_indexes, an_index_goes_alone, an_automatic_index_is_not_dropped, if_exists_reads_the_catalog_and_does_nothing, a_missing_index_is_refused};

/// Its range and its catalog cells are cleared.
pub fn a_table_goes_with_its_rows()
    ensures { Holds a_table_goes_with_its_rows }
{}

/// Also the cell of the name of its automatic index is cleared.
pub fn a_table_goes_with_the_names_of_its_automatic_indexes()
    ensures { Holds a_table_goes_with_the_names_of_its_automatic_indexes }
{}

/// Its range and its two catalog cells are cleared; the rows stay.
pub fn an_index_goes_alone()
    ensures { Holds an_index_goes_alone }
{}

/// It stays as long as its table.
pub fn an_automatic_index_is_not_dropped()
    ensures { Holds an_automatic_index_is_not_dropped }
{}

/// No table has the name.
pub fn if_exists_reads_the_catalog_and_does_nothing()
    ensures { Holds if_exists_reads_the_catalog_and_does_nothing }
{}

/// A table of the name is no index.
pub fn a_missing_index_is_refused()
    ensures { Holds a_missing_index_is_refused }
{}
