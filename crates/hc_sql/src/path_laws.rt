//! Laws of the rows that a SELECT goes over, in SQL's words.
ghost use Rattle.hc_sql.specs.PathLaws.{WholeReadsGiveTheProduct, ARowidGivesItsRow, AnIndexGivesItsRows};

/// Where no conjunct gives a path and none overflows, the rows that pass are those of the tables' product that meet the condition, in
/// its order.
pub fn whole_reads_give_the_product()
    ensures { WholeReadsGiveTheProduct }
{}

/// By a rowid the row of the table that has it is found, or none.
pub fn a_rowid_gives_its_row()
    ensures { ARowidGivesItsRow }
{}

/// In an index the rows of the table with some values in it are found, in order of rowids.
pub fn an_index_gives_its_rows()
    ensures { AnIndexGivesItsRows }
{}
