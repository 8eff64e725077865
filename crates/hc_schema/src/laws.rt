// What holds of tables, databases and their cells. Each law is the contract of a function that does nothing.
ghost use Rattle.hc_schema.specs.Laws.{DatabasesDifferInCells, KeysHaveOneRecord, TablesAreOfDatabases};
ghost use Rattle.hc_schema.specs.Binding.Laws.{EachIsBoundOrRefused, NoneIsBoundAndRefused, EachIsBoundInOneWay, EachHasOneFault};

use hc_key::laws::keys_of_different_lists_differ;
use hc_record::laws::no_encoding_begins_another;

/// Different databases have different cells.
pub fn different_databases_have_different_cells()
    ensures { DatabasesDifferInCells }
{
    keys_of_different_lists_differ();
    no_encoding_begins_another();
}

/// The cells of a database are a map: a key has one record.
pub fn a_key_has_one_record()
    ensures { KeysHaveOneRecord }
{
    keys_of_different_lists_differ();
}

/// What is called a table is one that some database has, and the other way round.
pub fn tables_are_those_of_databases()
    ensures { TablesAreOfDatabases }
{}

/// Each statement is bound in one way or has one fault, and none has both.
pub fn each_statement_is_bound_or_refused()
    ensures either { EachIsBoundOrRefused }
    ensures not_both { NoneIsBoundAndRefused }
    ensures one_way { EachIsBoundInOneWay }
    ensures one_fault { EachHasOneFault }
{}
