//! SELECT.
ghost use Rattle.hc_sql_examples.specs.Worked.{Holds};
ghost use Rattle.hc_sql_examples.specs.Selects.{an_overflow_in_a_condition_ends_the_reading, an_overflow_in_an_aggregate_ends_no_reading, an_inner_path_is_read_for_each_outer_row, an_empty_outer_table_reads_no_inner_one, a_path_of_null_reads_nothing, an_index_of_two_columns_keeps_the_order_of_rowids, an_index_is_read_at_each_entry_of_its_loop, aggregates_over_no_row_are_one_group, no_row_makes_no_group, aggregates_need_no_table, a_refused_binding_reads_all_names, a_key_turned_round_is_descending, rows_in_descending_order_stay_so};

/// The condition overflows on the first candidate: the row of `b` for the second row of `a` is not read.
pub fn an_overflow_in_a_condition_ends_the_reading()
    ensures { Holds an_overflow_in_a_condition_ends_the_reading }
{}

/// An aggregate is computed when all candidates are found, so all paths were read.
pub fn an_overflow_in_an_aggregate_ends_no_reading()
    ensures { Holds an_overflow_in_an_aggregate_ends_no_reading }
{}

/// The path of `b` is read once for each row of `a`, also where it finds no row.
pub fn an_inner_path_is_read_for_each_outer_row()
    ensures { Holds an_inner_path_is_read_for_each_outer_row }
{}

/// No row of `a` reaches the loop over `b`.
pub fn an_empty_outer_table_reads_no_inner_one()
    ensures { Holds an_empty_outer_table_reads_no_inner_one }
{}

/// No rowid is NULL, and none is looked for.
pub fn a_path_of_null_reads_nothing()
    ensures { Holds a_path_of_null_reads_nothing }
{}

/// The rows under 5 are in order of rowids and not of `b`. The index's range of 5 is read, and then the key of each row.
pub fn an_index_of_two_columns_keeps_the_order_of_rowids()
    ensures { Holds an_index_of_two_columns_keeps_the_order_of_rowids }
{}

/// The index is read at each entry of the inner loop, and then each row by its key: two rows of `x` have 5, and one has 6.
pub fn an_index_is_read_at_each_entry_of_its_loop()
    ensures { Holds an_index_is_read_at_each_entry_of_its_loop }
{}

/// Without GROUP BY there is one group, also of no row: it counts 0, and its sum is NULL.
pub fn aggregates_over_no_row_are_one_group()
    ensures { Holds aggregates_over_no_row_are_one_group }
{}

/// With GROUP BY there is no group of no row.
pub fn no_row_makes_no_group()
    ensures { Holds no_row_makes_no_group }
{}

/// Without FROM there is one candidate without columns, which the condition drops; nothing is read.
pub fn aggregates_need_no_table()
    ensures { Holds aggregates_need_no_table }
{}

/// The first table is missing; the catalog range of the second is read all the same.
pub fn a_refused_binding_reads_all_names()
    ensures { Holds a_refused_binding_reads_all_names }
{}

/// Rows in descending order of `v`; the whole table is read.
pub fn a_key_turned_round_is_descending()
    ensures { Holds a_key_turned_round_is_descending }
{}

/// Rows that come in descending order stay so.
pub fn rows_in_descending_order_stay_so()
    ensures { Holds rows_in_descending_order_stay_so }
{}
