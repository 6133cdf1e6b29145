ghost use Rattle.std.specs.Prelude.{◌≡◌};

use crate::view::{Extent, View};
use atomic_table::TableRule;

/// The rule over the table's words and the views of all seats.
pub struct ClaimRule;

impl TableRule<(), View, Extent> for ClaimRule {
    ghost use Rattle.block_claim.specs.Rule.{IsKept};
    ghost use Rattle.block_claim.specs.Views.{view_at_start};

    ghost holds = { λ scan s. IsKept scan s };

    ghost first = { view_at_start };
}
