// One evaluation of a rule, and how many there are in a run of ticks.
ghost use Rattle.std.specs.Prelude.{◌≡◌, ◌&&◌, suc, ◌-◌, pos, neg_ℤ};
ghost use Rattle.std.specs.Int.Signed.{lt_z};
ghost use Rattle.rules.specs.Quantities.{value, qualified};
ghost use Rattle.rules.specs.Evaluation.{beyond, opposite, trips, clears, top, step, evaluated, evaluations};

use crate::{Quantity, Readings, Row, Setting, Side};

// How far apart the highest and the lowest cell are; 0 where the first is the lower one.
pub fn difference(highest: u16, lowest: u16) -> u16
    ensures { result ≡ highest - lowest }
{
    highest.saturating_sub(lowest)
}

fn value_of(quantity: Quantity, r: Readings) -> i64
    ensures { result ≡ value quantity r }
{
    match quantity {
        Quantity::HighestCell => r.highest_cell as i64,
        Quantity::LowestCell => r.lowest_cell as i64,
        Quantity::SumOfCells => r.sum_of_cells as i64,
        Quantity::Current => r.current as i64,
        Quantity::HighestTempCharging => r.highest_temp as i64,
        Quantity::HighestTempDischarging => r.highest_temp as i64,
        Quantity::Board => r.board as i64,
        Quantity::LowestTempDischarging => r.lowest_temp as i64,
        Quantity::CellDifference => difference(r.highest_cell, r.lowest_cell) as i64,
    }
}

// Whether the pack charges.
pub fn charges(idle: u16, current: i16) -> bool
    ensures { result ≡ lt_z (pos idle) current }
{
    (current as i32) > (idle as i32)
}

// Whether the pack discharges.
pub fn discharges(idle: u16, current: i16) -> bool
    ensures { result ≡ lt_z current (neg_ℤ (pos idle)) }
{
    (current as i32) < -(idle as i32)
}

#[tactic(auto, unfolding(crate::specs::Quantities::qualified))]
fn qualifies(idle: u16, quantity: Quantity, r: Readings) -> bool
    ensures { result ≡ qualified idle quantity r }
{
    match quantity {
        Quantity::HighestTempCharging => charges(idle, r.current),
        Quantity::HighestTempDischarging | Quantity::LowestTempDischarging => {
            discharges(idle, r.current)
        }
        Quantity::HighestCell
        | Quantity::LowestCell
        | Quantity::SumOfCells
        | Quantity::Current
        | Quantity::Board
        | Quantity::CellDifference => true,
    }
}

fn is_beyond(side: Side, v: i64, limit: i64) -> bool
    ensures { result ≡ beyond side v limit }
{
    match side {
        Side::High => v > limit,
        Side::Low => v < limit,
    }
}

fn is_before(side: Side, v: i64, limit: i64) -> bool
    ensures { result ≡ beyond (opposite side) v limit }
{
    match side {
        Side::High => v < limit,
        Side::Low => v > limit,
    }
}

// Whether an evaluation of a rule meets its threshold.
pub fn meets_threshold(row: Row, idle: u16, setting: Setting, r: Readings) -> bool
    ensures { result ≡ trips idle row setting r }
{
    let quantity = row.quantity;
    let side = row.side;
    let v = value_of(quantity, r);
    qualifies(idle, quantity, r) && is_beyond(side, v, setting.threshold as i64)
}

// Whether an evaluation of a rule meets its recovery.
pub fn meets_recovery(row: Row, setting: Setting, r: Readings) -> bool
    ensures { result ≡ clears row setting r }
{
    let quantity = row.quantity;
    let side = row.side;
    let v = value_of(quantity, r);
    row.recovers && is_before(side, v, setting.recovery as i64)
}

// Whether a rule is evaluated at a tick.
pub fn evaluated_at(row: Row, tick: u32) -> bool
    ensures { result ≡ evaluated row tick }
{
    !row.even || tick % 2 == 0
}

// How often a rule is evaluated from first to last, both included; 0 where last is before first.
pub fn evaluations_in(row: Row, first: u32, last: u32) -> u64
    ensures { result ≡ evaluations row first (suc last) }
{
    if last < first {
        return 0;
    }
    let a = first as u64;
    let b = last as u64;
    if row.even {
        return b / 2 + 1 - (a + 1) / 2;
    }
    b - a + 1
}

// The state at which the status of a rule of this time is active.
pub fn top_of(time: u8) -> usize
    ensures { result ≡ top time }
{
    time as usize
}

// The state after one evaluation of a rule whose top state is `top`.
pub fn step_state(top: usize, trips: bool, clears: bool, state: usize) -> usize
    ensures { result ≡ step top trips clears state }
{
    if state < top {
        if trips {
            return state + 1;
        }
        return 0;
    }
    if clears {
        return 0;
    }
    top
}
