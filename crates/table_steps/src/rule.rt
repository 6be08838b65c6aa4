//! The rule that holds between any two steps.
use crate::setup::Setup;
use crate::view::View;
use atomic_table::TableRule;

/// The rule of the call table.
pub struct Rule;

impl TableRule<(), View, Setup> for Rule {
    ghost use Rattle.table_steps.specs.Rule.{Kept};
    ghost use Rattle.table_steps.specs.Views.{opening_view};

    ghost holds = { Kept };

    ghost first = { opening_view };
}
