// The sixteen rules (paper 01, 'The sixteen rules'): their table, what they read of a sample, what one evaluation of a rule
// finds, and how many there are in a run of ticks.
#![tactic(auto)]

ghost use Rattle.std.specs.Prelude.{◌≡◌};
ghost use Rattle.rules.specs.Samples.{cell_count};
ghost use Rattle.rules.specs.Table.{rows, row_at};

mod evaluation;

pub use evaluation::{
    charges, difference, discharges, evaluated_at, evaluations_in, meets_recovery, meets_threshold,
    step_state, top_of,
};

// What a rule looks at. A quantity 'charging' or 'discharging' counts towards the threshold only while the pack does so.
#[derive(Clone, Copy, Debug, PartialEq, Eq)]
pub enum Quantity {
    HighestCell,
    LowestCell,
    SumOfCells,
    Current,
    HighestTempCharging,
    HighestTempDischarging,
    Board,
    LowestTempDischarging,
    CellDifference,
}

#[derive(Clone, Copy, Debug, PartialEq, Eq)]
pub enum Side {
    High,
    Low,
}

// One row of the table. A rule that does not recover latches and commands the fuse; `charge` and `discharge` say which
// MOSFETs it opens, and `bits` which bits of BatteryStatus it sets.
#[derive(Clone, Copy, Debug, PartialEq, Eq)]
pub struct Row {
    pub quantity: Quantity,
    pub side: Side,
    pub recovers: bool,
    pub even: bool,
    pub charge: bool,
    pub discharge: bool,
    pub bits: u16,
}

#[derive(Clone, Copy, Debug, PartialEq, Eq)]
pub struct Table {
    pub of: [Row; 16],
}

// The sixteen rules under the manual's names.
const ROWS: [Row; 16] = [
    // 0, COV
    Row {
        quantity: Quantity::HighestCell,
        side: Side::High,
        recovers: true,
        even: false,
        charge: true,
        discharge: false,
        bits: 0x4000,
    },
    // 1, CUV
    Row {
        quantity: Quantity::LowestCell,
        side: Side::Low,
        recovers: true,
        even: false,
        charge: false,
        discharge: true,
        bits: 0x0800,
    },
    // 2, POV
    Row {
        quantity: Quantity::SumOfCells,
        side: Side::High,
        recovers: true,
        even: false,
        charge: true,
        discharge: false,
        bits: 0x4000,
    },
    // 3, PUV
    Row {
        quantity: Quantity::SumOfCells,
        side: Side::Low,
        recovers: true,
        even: false,
        charge: false,
        discharge: true,
        bits: 0x0800,
    },
    // 4, OC Charge
    Row {
        quantity: Quantity::Current,
        side: Side::High,
        recovers: true,
        even: false,
        charge: true,
        discharge: false,
        bits: 0x4000,
    },
    // 5, OC Discharge
    Row {
        quantity: Quantity::Current,
        side: Side::Low,
        recovers: true,
        even: false,
        charge: false,
        discharge: true,
        bits: 0x0800,
    },
    // 6, OT Charge
    Row {
        quantity: Quantity::HighestTempCharging,
        side: Side::High,
        recovers: true,
        even: true,
        charge: true,
        discharge: false,
        bits: 0x5000,
    },
    // 7, OT Discharge
    Row {
        quantity: Quantity::HighestTempDischarging,
        side: Side::High,
        recovers: true,
        even: true,
        charge: false,
        discharge: true,
        bits: 0x1800,
    },
    // 8, Board Over Temperature
    Row {
        quantity: Quantity::Board,
        side: Side::High,
        recovers: true,
        even: true,
        charge: true,
        discharge: true,
        bits: 0x5800,
    },
    // 9, Discharge Under Temperature
    Row {
        quantity: Quantity::LowestTempDischarging,
        side: Side::Low,
        recovers: true,
        even: true,
        charge: false,
        discharge: true,
        bits: 0x0800,
    },
    // 10, SOV
    Row {
        quantity: Quantity::HighestCell,
        side: Side::High,
        recovers: false,
        even: false,
        charge: true,
        discharge: true,
        bits: 0x4800,
    },
    // 11, SOC Charge
    Row {
        quantity: Quantity::Current,
        side: Side::High,
        recovers: false,
        even: false,
        charge: true,
        discharge: true,
        bits: 0x4800,
    },
    // 12, SOC Discharge
    Row {
        quantity: Quantity::Current,
        side: Side::Low,
        recovers: false,
        even: false,
        charge: true,
        discharge: true,
        bits: 0x4800,
    },
    // 13, SOT Charge
    Row {
        quantity: Quantity::HighestTempCharging,
        side: Side::High,
        recovers: false,
        even: true,
        charge: true,
        discharge: true,
        bits: 0x5800,
    },
    // 14, SOT Discharge
    Row {
        quantity: Quantity::HighestTempDischarging,
        side: Side::High,
        recovers: false,
        even: true,
        charge: true,
        discharge: true,
        bits: 0x5800,
    },
    // 15, Cell Imbalance
    Row {
        quantity: Quantity::CellDifference,
        side: Side::High,
        recovers: false,
        even: false,
        charge: true,
        discharge: true,
        bits: 0x4800,
    },
];

// The whole table, for a loop over the rules.
pub fn all_rows() -> Table
    ensures { result.of ≡ rows }
{
    Table { of: ROWS }
}

// The row of a rule; past the table one that drives nothing.
pub fn row_at(i: usize) -> Row
    ensures { result ≡ row_at i }
{
    if i < 16 {
        return ROWS[i];
    }
    Row {
        quantity: Quantity::Board,
        side: Side::High,
        recovers: true,
        even: false,
        charge: false,
        discharge: false,
        bits: 0,
    }
}

// A rule's numbers. Time 0 switches it off.
#[derive(Clone, Copy, Debug, PartialEq, Eq)]
pub struct Setting {
    pub threshold: i32,
    pub recovery: i32,
    pub time: u8,
}

impl Setting {
    // A rule that is switched off.
    pub const OFF: Setting = Setting {
        threshold: 0,
        recovery: 0,
        time: 0,
    };
}

#[derive(Clone, Copy, Debug, PartialEq, Eq)]
pub struct Settings {
    pub of: [Setting; 16],
}

// Whether a pack has this many cells: 3 to 12.
pub fn is_cell_count(cells: u8) -> bool
    ensures { result ≡ cell_count cells }
{
    3 <= cells && cells <= 12
}

// What the rules read of a sample.
#[derive(Clone, Copy, Debug, PartialEq, Eq)]
pub struct Readings {
    pub current: i16,
    pub board: i16,
    pub highest_cell: u16,
    pub lowest_cell: u16,
    pub sum_of_cells: u32,
    pub highest_temp: i16,
    pub lowest_temp: i16,
}
