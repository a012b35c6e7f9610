// What the rules read of a sample, each as its side reads it, and the flags of one rule.
ghost use Rattle.std.specs.Prelude.{◌≡◌, ◌≤◌};
ghost use Rattle.rules.specs.Evaluation.{status};
ghost use Rattle.rules.specs.declared.Row.{Row};
ghost use Rattle.fillings.specs.Bounds.{flags_between};
ghost use Rattle.bounds.specs.Plan.{along, flow_of};
ghost use Rattle.bounds.specs.inner.Marks.{values_of};

use flags::RuleFlags;
use rules::{Readings, Side};

// A number as a side reads it.
pub(crate) fn number_along(side: Side, v: i32) -> i32
    ensures { result ≡ along side v }
{
    match side {
        Side::High => v,
        Side::Low => !v,
    }
}

// Which way the current flows: a number, as in the definitions that callers read, since a group of tests is found by it.
pub(crate) fn flow_of(idle: u16, r: Readings) -> usize
    ensures { (result ≡ flow_of idle r) × (result ≤ 2) }
{
    if rules::charges(idle, r.current) {
        return 1;
    }
    if rules::discharges(idle, r.current) {
        return 2;
    }
    0
}

// What each rule reads of a sample.
pub(crate) fn values_of(r: Readings) -> [i32; 16]
    requires { r.sum_of_cells ≤ 2147483647 }
    ensures { result ≡ values_of r }
{
    let high = i32::from(r.highest_cell);
    let low = !i32::from(r.lowest_cell);
    let sum = r.sum_of_cells as i32;
    let current = i32::from(r.current);
    let warm = i32::from(r.highest_temp);
    let board = i32::from(r.board);
    let cold = !i32::from(r.lowest_temp);
    let apart = i32::from(rules::difference(r.highest_cell, r.lowest_cell));
    [
        high, low, sum, !sum, current, !current, warm, warm, board, cold, high, current, !current,
        warm, warm, apart,
    ]
}

// Whether a state is the top one, of a rule that is not switched off.
pub(crate) fn is_top(top: u8, s: u8) -> bool
    ensures { result ≡ status top s }
{
    0 < top && s == top
}

// The flags of a rule, from its least and its greatest state.
pub(crate) fn rule_flags(top: u8, least: u8, greatest: u8) -> RuleFlags
    ensures { (row : Row) → result ≡ flags_between row top least greatest }
{
    RuleFlags {
        alert: flags::flag_of(0 < greatest, least == 0),
        status: flags::flag_of(is_top(top, greatest), !is_top(top, least)),
    }
}
