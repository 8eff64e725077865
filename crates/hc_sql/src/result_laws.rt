//! Laws of the order of results, of DISTINCT and of groups, in SQL's words.
ghost use Rattle.hc_sql.specs.ResultLaws.{SortedResultsAscend, TiesStay, NothingIsLostOrMade, TheFirstIsKept, NoTwoKeptShowTheSame, EachResultIsShown, KeptResultsAreInOrder, AGroupHasTheRowsWithItsValues, NoTwoGroupsHaveTheSameValues, EachRowHasAGroup, GroupsAreInOrderOfTheirFirstRows};

/// No result is listed after one whose keys are greater.
pub fn sorted_results_ascend()
    ensures { SortedResultsAscend }
{
    hc_value::laws::the_order_of_values_is_total();
}

/// Results whose keys tie stay in the order in which they came.
pub fn ties_stay()
    ensures { TiesStay }
{
    hc_value::laws::the_order_of_values_is_total();
}

/// The sorted results are the results in another order, each as often.
pub fn nothing_is_lost_or_made()
    ensures { NothingIsLostOrMade }
{}

/// Of results that show the same, DISTINCT keeps the first.
pub fn the_first_is_kept()
    ensures { TheFirstIsKept }
{}

/// No two results that DISTINCT keeps show the same.
pub fn no_two_kept_show_the_same()
    ensures { NoTwoKeptShowTheSame }
{}

/// Each result is shown by one that DISTINCT keeps.
pub fn each_result_is_shown()
    ensures { EachResultIsShown }
{
    hc_value::laws::the_order_of_values_is_total();
    hc_value::laws::values_are_equal_in_order_exactly_when_they_are_the_same();
}

/// What DISTINCT keeps is some of the results, in their order.
pub fn kept_results_are_in_order()
    ensures { KeptResultsAreInOrder }
{}

/// A group has exactly the rows with its values of GROUP BY, in the order in which they came.
pub fn a_group_has_the_rows_with_its_values()
    ensures { AGroupHasTheRowsWithItsValues }
{
    hc_value::laws::the_order_of_values_is_total();
    hc_value::laws::values_are_equal_in_order_exactly_when_they_are_the_same();
}

/// No two groups have the same values.
pub fn no_two_groups_have_the_same_values()
    ensures { NoTwoGroupsHaveTheSameValues }
{
    hc_value::laws::the_order_of_values_is_total();
    hc_value::laws::values_are_equal_in_order_exactly_when_they_are_the_same();
}

/// Each row has a group with its values.
pub fn each_row_has_a_group()
    ensures { EachRowHasAGroup }
{
    hc_value::laws::the_order_of_values_is_total();
    hc_value::laws::values_are_equal_in_order_exactly_when_they_are_the_same();
}

/// Groups are in the order of the first of their rows.
pub fn groups_are_in_order_of_their_first_rows()
    ensures { GroupsAreInOrderOfTheirFirstRows }
{
    hc_value::laws::the_order_of_values_is_total();
    hc_value::laws::values_are_equal_in_order_exactly_when_they_are_the_same();
}
