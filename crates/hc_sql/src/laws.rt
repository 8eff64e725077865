//! Laws of the definitions.
ghost use Rattle.hc_sql.specs.Laws.{ARefusedStatementChangesNothing, AQueryChangesNothing, QueriesAreDecided, ChangesAreRead};

use hc_key::laws::{keys_of_different_lists_differ, ranges_hold_their_keys};
use hc_record::laws::no_encoding_begins_another;
use hc_value::laws::values_are_equal_in_order_exactly_when_they_are_the_same;

/// A refused statement leaves the database as it was.
pub fn a_refused_statement_changes_nothing()
    ensures { ARefusedStatementChangesNothing }
{}

/// A query changes nothing.
pub fn a_query_changes_nothing()
    ensures { AQueryChangesNothing }
{}

/// A query answers the same on two databases that agree on what it reads on the first, and reads the same.
pub fn queries_are_decided()
    ensures { QueriesAreDecided }
{
    keys_of_different_lists_differ();
    no_encoding_begins_another();
    values_are_equal_in_order_exactly_when_they_are_the_same();
    ranges_hold_their_keys()
}

/// A statement changes no key that it does not read.
pub fn changes_are_read()
    ensures { ChangesAreRead }
{
    keys_of_different_lists_differ();
    no_encoding_begins_another();
    ranges_hold_their_keys();
    values_are_equal_in_order_exactly_when_they_are_the_same()
}
