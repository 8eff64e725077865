// What follows from the definitions alone. Each law is the contract of a function that does nothing.
ghost use Rattle.hc_text.specs.Laws.{EachDigitHasItsValue, SameNameIsAnEquivalence};

/// Each name is the same as itself; where one is the same as another, so is this as the one; and what is the same
/// as a third is.
pub fn the_same_name_is_an_equivalence()
    ensures { SameNameIsAnEquivalence }
{}

/// The digit of a number below 16 is a hexadecimal digit, and has that number as its value.
pub fn each_digit_has_its_value()
    ensures { EachDigitHasItsValue }
{}
