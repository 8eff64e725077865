// What follows from the definitions alone. Each law is the contract of a function that does nothing.
ghost use Rattle.hc_range.specs.Laws.{AtMostIsBelowOrEqual, EmptyKeyIsLeast, NormalFormIsUnique, OrderIsIrreflexive, OrderIsTotal, OrderIsTransitive, ProperPrefixIsBelow, RangesMeetAtAnEnd, SuccessorIsNext};

/// No key comes before itself.
pub fn the_order_is_irreflexive()
    ensures { OrderIsIrreflexive }
{}

/// What comes before a key comes before all that this key comes before.
pub fn the_order_is_transitive()
    ensures { OrderIsTransitive }
{}

/// Of two keys one comes before the other, or they are one key.
pub fn the_order_is_total()
    ensures { OrderIsTotal }
{}

/// A key is at most another where it comes before it or is it.
pub fn at_most_is_below_or_equal()
    ensures { AtMostIsBelowOrEqual }
{}

/// No key comes before the empty one.
pub fn the_empty_key_is_least()
    ensures { EmptyKeyIsLeast }
{}

/// A proper prefix of a key comes before it.
pub fn a_proper_prefix_is_below()
    ensures { ProperPrefixIsBelow }
{}

/// A key with a byte 0 after it is the next key: what comes before it is at most the key.
pub fn a_successor_is_next()
    ensures { SuccessorIsNext }
{}

/// Where two ranges meet, the higher of their lower ends lies in both. It is a byte string as they are.
pub fn ranges_meet_at_an_end()
    ensures { RangesMeetAtAnEnd }
{}

/// Two lists of ranges in normal form that hold the same keys are one list.
pub fn a_normal_form_is_unique()
    ensures { NormalFormIsUnique }
{}
