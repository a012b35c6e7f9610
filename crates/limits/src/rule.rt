// The limits of a rule's numbers.
ghost use Rattle.std.specs.Prelude.{◌≡◌, true, false, ◌&&◌, ◌*◌};
ghost use Rattle.std.specs.Int.Signed.{lt_z, le_z};
ghost use Rattle.rules.specs.Quantities.{least, most};
ghost use Rattle.limits.specs.Limits.{within, limits};

use rules::{Quantity, Row, Side};

#[tactic(auto, unfolding(rules::specs::Quantities::least))]
fn least_of(quantity: Quantity) -> i32
    ensures { result ≡ least quantity }
{
    match quantity {
        Quantity::HighestCell
        | Quantity::LowestCell
        | Quantity::SumOfCells
        | Quantity::CellDifference => 0,
        Quantity::Current
        | Quantity::HighestTempCharging
        | Quantity::HighestTempDischarging
        | Quantity::Board
        | Quantity::LowestTempDischarging => -32768,
    }
}

#[tactic(auto, unfolding(rules::specs::Quantities::most))]
fn most_of(quantity: Quantity, cells: u8) -> i32
    ensures { result ≡ most quantity cells }
{
    match quantity {
        Quantity::HighestCell | Quantity::LowestCell | Quantity::CellDifference => 65535,
        Quantity::SumOfCells => 65535 * i32::from(cells),
        Quantity::Current
        | Quantity::HighestTempCharging
        | Quantity::HighestTempDischarging
        | Quantity::Board
        | Quantity::LowestTempDischarging => 32767,
    }
}

// The limits of threshold and recovery within the range of the rule's quantity.
#[tactic(auto, unfolding(crate::specs::Limits::within))]
fn is_within(row: Row, lo: i32, hi: i32, threshold: i32, recovery: i32) -> bool
    ensures { result ≡ within row.recovers row.side lo hi (record { threshold = threshold; recovery = recovery; time = 0 }) }
{
    match (row.recovers, row.side) {
        (true, Side::High) => lo < recovery && recovery <= threshold && threshold < hi,
        (true, Side::Low) => lo < threshold && threshold <= recovery && recovery < hi,
        (false, Side::High) => lo <= threshold && threshold < hi && recovery == 0,
        (false, Side::Low) => lo < threshold && threshold <= hi && recovery == 0,
    }
}

// Whether a rule's numbers are within their limits.
pub(crate) fn accepts(cells: u8, row: Row, threshold: i32, recovery: i32, time: u16) -> bool
    ensures { result ≡ limits cells row (record { threshold = threshold; recovery = recovery; time = time }) }
{
    if time == 0 {
        return true;
    }
    if 255 < time {
        return false;
    }
    let lo = least_of(row.quantity);
    let hi = most_of(row.quantity, cells);
    is_within(row, lo, hi, threshold, recovery)
}
