//! Laws of the definitions.
ghost use Rattle.hc_plan.specs.Laws.{ColumnsBeforeDecide, ATrueRowIsOnThePath};

/// An expression whose columns are all before an offset has the same value on all rows with the same values there.
pub fn columns_before_decide()
    ensures { ColumnsBeforeDecide }
{}

/// A row on which the conjunct of its table's path is true is on the path.
pub fn a_true_row_is_on_the_path()
    ensures { ATrueRowIsOnThePath }
{}
