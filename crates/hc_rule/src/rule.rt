//! The rule, as the table knows it.
use crate::view::View;
use atomic_table::TableRule;
use hc_rows::Layout;

/// The rule of the engine's table. Its key is the layout of the words.
pub struct Rule;

impl TableRule<(), View, Layout> for Rule {
    ghost use Rattle.hc_rule.specs.Rule.{Holds};
    ghost use Rattle.hc_rule.specs.Views.{first_view};

    ghost holds = { λ y s. Holds y s.words s.views };

    ghost first = { λ _. first_view };
}
