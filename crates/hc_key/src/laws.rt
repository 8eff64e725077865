// What holds of all keys. Each law is the contract of a function that does nothing.
ghost use Rattle.hc_key.specs.Laws.{ByteOrderIsValueOrder, KeysDiffer, RangesHoldTheirKeys};

use hc_value::laws::values_are_equal_in_order_exactly_when_they_are_the_same;

/// The bytes of two keys compare as the tree numbers do and, where these are equal, as the lists of
/// values: by the first values that differ, a proper prefix first.
pub fn byte_order_is_value_order()
    ensures { ByteOrderIsValueOrder }
{}

/// Keys of different trees or of different lists are different.
pub fn keys_of_different_lists_differ()
    ensures { KeysDiffer }
{
    values_are_equal_in_order_exactly_when_they_are_the_same()
}

/// The range of a list of values holds, of all keys, exactly those of its tree whose lists begin with these values.
pub fn ranges_hold_their_keys()
    ensures { RangesHoldTheirKeys }
{
    values_are_equal_in_order_exactly_when_they_are_the_same()
}
