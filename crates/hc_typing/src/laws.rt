//! Laws of the definitions.
ghost use Rattle.hc_typing.specs.Laws.{ABoundExpressionHasItsClass, ABoundExpressionReadsItsScope, AnExpressionOnGroupsHasItsClass};

/// A bound expression has NULL or a value of its class, or overflows, on rows whose columns have NULL or values of theirs.
pub fn a_bound_expression_has_its_class()
    ensures { ABoundExpressionHasItsClass }
{}

/// A bound expression reads no place of a row but those of columns in scope.
pub fn a_bound_expression_reads_its_scope()
    ensures { ABoundExpressionReadsItsScope }
{}

/// An expression that is read on groups has NULL or a value of its class, or overflows, on rows of groups whose values are NULL or
/// of the classes of what they are the values of.
pub fn an_expression_on_groups_has_its_class()
    ensures { AnExpressionOnGroupsHasItsClass }
{}
