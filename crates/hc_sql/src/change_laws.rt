//! Laws of the statements that change a database.
ghost use Rattle.hc_sql.specs.ChangeLaws.{ADeleteLeavesADatabase, ADropTableLeavesADatabase, ADropIndexLeavesADatabase, DeletesAreDecided, CreateTableIsDecided, DropTableIsDecided, CreateIndexIsDecided, DropIndexIsDecided, AnUpdateToTheSameChangesNothing};

use hc_key::laws::{keys_of_different_lists_differ, ranges_hold_their_keys};
use hc_record::laws::no_encoding_begins_another;
use hc_value::laws::values_are_equal_in_order_exactly_when_they_are_the_same;

/// What DELETE leaves of a database is a database.
pub fn a_delete_leaves_a_database()
    ensures { ADeleteLeavesADatabase }
{}

/// What DROP TABLE leaves of a database is a database.
pub fn a_drop_table_leaves_a_database()
    ensures { ADropTableLeavesADatabase }
{}

/// What DROP INDEX leaves of a database is a database.
pub fn a_drop_index_leaves_a_database()
    ensures { ADropIndexLeavesADatabase }
{}

/// A DELETE answers, reads and changes the same on two databases that agree on what it reads on the first.
pub fn deletes_are_decided()
    ensures { DeletesAreDecided }
{
    keys_of_different_lists_differ();
    no_encoding_begins_another();
    values_are_equal_in_order_exactly_when_they_are_the_same();
    ranges_hold_their_keys()
}

/// A CREATE TABLE answers, reads and changes the same on two databases that agree on what it reads on the first.
pub fn create_table_is_decided()
    ensures { CreateTableIsDecided }
{
    keys_of_different_lists_differ();
    no_encoding_begins_another();
    values_are_equal_in_order_exactly_when_they_are_the_same();
    ranges_hold_their_keys()
}

/// A DROP TABLE answers, reads and changes the same on two databases that agree on what it reads on the first.
pub fn drop_table_is_decided()
    ensures { DropTableIsDecided }
{
    keys_of_different_lists_differ();
    no_encoding_begins_another();
    values_are_equal_in_order_exactly_when_they_are_the_same();
    ranges_hold_their_keys()
}

/// A CREATE INDEX answers, reads and changes the same on two databases that agree on what it reads on the first.
pub fn create_index_is_decided()
    ensures { CreateIndexIsDecided }
{
    keys_of_different_lists_differ();
    no_encoding_begins_another();
    values_are_equal_in_order_exactly_when_they_are_the_same();
    ranges_hold_their_keys()
}

/// A DROP INDEX answers, reads and changes the same on two databases that agree on what it reads on the first.
pub fn drop_index_is_decided()
    ensures { DropIndexIsDecided }
{
    keys_of_different_lists_differ();
    no_encoding_begins_another();
    values_are_equal_in_order_exactly_when_they_are_the_same();
    ranges_hold_their_keys()
}

/// An UPDATE that sets each row to the values that it has changes nothing.
pub fn an_update_to_the_same_changes_nothing()
    ensures { AnUpdateToTheSameChangesNothing }
{}
