//! The rule of the table.
ghost use Rattle.tp_rule.specs.Rule.{Rule};
ghost use Rattle.tp_rule.specs.Views.{first_view};

use crate::view::View;
use atomic_table::TableRule;
use tp_model::types::Limits;

/// The rule: there is one legal history behind the words.
pub(crate) struct OneHistory;

impl TableRule<(), View, Limits> for OneHistory {
    ghost holds = { Rule };

    ghost first = { first_view };
}
