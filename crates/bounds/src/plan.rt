// The tests of one rule.
ghost use Rattle.std.specs.Prelude.{◌≡◌};
ghost use Rattle.bounds.specs.Plan.{counts, test_at};

use crate::reading::number_along;
use rules::{Quantity, Row, Setting};

// Whether a quantity counts towards the threshold while the current flows so.
#[tactic(auto, unfolding(crate::specs::Plan::counts))]
fn counts_in(flow: usize, quantity: Quantity) -> bool
    ensures { result ≡ counts flow quantity }
{
    match quantity {
        Quantity::HighestTempCharging => flow == 1,
        Quantity::HighestTempDischarging | Quantity::LowestTempDischarging => flow == 2,
        Quantity::HighestCell
        | Quantity::LowestCell
        | Quantity::SumOfCells
        | Quantity::Current
        | Quantity::Board
        | Quantity::CellDifference => true,
    }
}

// A test of a rule: groups 0 to 2 are thresholds by the flow, group 3 is the recovery; numbers, since the tests lie in that order.
#[tactic(auto, unfolding(crate::specs::Plan::test_at))]
pub(crate) fn test_at(group: usize, row: Row, setting: Setting) -> i32
    ensures { result ≡ test_at group row setting }
{
    if group < 3 {
        if counts_in(group, row.quantity) {
            return number_along(row.side, setting.threshold);
        }
        return i32::MAX;
    }
    if row.recovers {
        return number_along(row.side, setting.recovery);
    }
    i32::MIN
}
