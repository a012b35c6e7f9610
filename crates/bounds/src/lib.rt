// The least and the greatest possible state of the sixteen rules, and the first ticks of the report, which follow from them
// (paper 01, 'Three-way outputs'). Of each rule two lanes of 8 bits are kept: the loops that test and move all rules at a seen
// tick have no branch. A part of the judge of a trace, its only caller.
#![tactic(auto)]

ghost use Rattle.std.specs.Prelude.{◌≡◌, cond, T};
ghost use Rattle.bounds.specs.Plan.{tests_of, lanes_of};
ghost use Rattle.bounds.specs.Steps.{sized, readable, Within32, states_seen, states_missed, flags_of_states};
ghost use Rattle.bounds.specs.Firsts.{firsts_read, firsts_missed};

mod firsts;
mod lanes;
mod marks;
mod plan;
mod reading;
mod unseen;

use firsts::{note, note_states};
use flags::{Flag, Flags, RuleFlags};
use lanes::{Move, move_states};
use marks::marks_of;
use plan::test_at;
use reading::{flow_of, rule_flags, values_of};
use rules::{Readings, Settings};
use unseen::{greatest_missed, top_tick};

// The greatest sum of cells that is read: one of 31 bits, since the rules compare signed numbers.
const GREATEST_SUM: u32 = i32::MAX as u32;

// The tests of the rules in four groups: the thresholds while no current flows, while it flows in and while it flows out, and the
// recoveries, each number as the side of its rule reads it.
pub fn tests_of(settings: Settings) -> [i32; 64]
    ensures { result ≡ tests_of settings.of }
{
    let table = rules::all_rows();
    let mut tests = [0; 64];
    for j in 0..64 {
        let i = j % 16;
        tests[j] = test_at(j / 16, table.of[i], settings.of[i]);
    }
    tests
}

// The top states of the rules, then 1 for each that is evaluated at every tick.
pub fn lanes_of(settings: Settings) -> [u8; 32]
    ensures { result ≡ lanes_of settings.of }
{
    let table = rules::all_rows();
    let mut lanes = [0; 32];
    let (tops, every) = lanes.split_at_mut(16);
    for i in 0..16 {
        tops[i] = settings.of[i].time;
        every[i] = u8::from(!table.of[i].even);
    }
    lanes
}

// Moves the states by a seen tick, where they stand, and notes the first ticks. A part of the judge, which lends thirty-two of
// each: lists of other lengths stay as they are, and so do all where the readings have a sum that no pack has.
pub fn see(
    tests: &[i32; 64],
    lanes: &[u8; 32],
    idle: u16,
    tick: u32,
    r: Readings,
    states: &mut [u8],
    firsts: &mut [u32],
)
    ensures states { states.new ≡ cond (readable r states.old firsts.old) (states_seen tests.now lanes.now idle tick r states.old) states.old }
    ensures firsts { firsts.new ≡ firsts_read lanes.now tick r states.old states.new firsts.old }
    ensures within { T (readable r states.old firsts.old) → Within32 r }
{
    if GREATEST_SUM < r.sum_of_cells || states.len() != 32 || firsts.len() != 32 {
        return;
    }
    let marks = marks_of(values_of(r), 16 * flow_of(idle, r), tests);
    let even = tick % 2 == 0;
    let (least, greatest) = states.split_at_mut(16);
    if move_states(&marks, lanes, even, least, greatest) {
        let (held, possible) = firsts.split_at_mut(16);
        note_states(lanes, tick, least, held);
        note_states(lanes, tick, greatest, possible);
    }
}

// Moves the states by the unseen ticks from first to last, where they stand, and notes the first ticks. A part of the judge, as
// `see`: lists of other lengths stay as they are. In a hole no status becomes held.
pub fn miss(lanes: &[u8; 32], first: u32, last: u32, states: &mut [u8], firsts: &mut [u32])
    ensures states { states.new ≡ cond (sized states.old firsts.old) (states_missed lanes.now first last states.old) states.old }
    ensures firsts { firsts.new ≡ cond (sized states.old firsts.old) (firsts_missed lanes.now first last states.old firsts.old) firsts.old }
{
    if states.len() != 32 || firsts.len() != 32 {
        return;
    }
    let table = rules::all_rows();
    let (least, greatest) = states.split_at_mut(16);
    let (_, possible) = firsts.split_at_mut(16);
    for i in 0..16 {
        let row = table.of[i];
        let top = lanes[i];
        let n = rules::evaluations_in(row, first, last);
        let s = greatest[i];
        let least_move = Move {
            go: 0 < n,
            top,
            trip: false,
            clear: row.recovers,
        };
        least[i] = least_move.after(least[i]);
        greatest[i] = greatest_missed(top, n, s);
        possible[i] = note(top_tick(row, top, first, last, n, s), possible[i]);
    }
}

// The alert and the status of every rule. A part of the judge: of states that are not thirty-two all flags read unknown.
pub fn flags_in(lanes: &[u8; 32], states: &[u8]) -> Flags
    ensures { result.of ≡ flags_of_states lanes.now states.now }
{
    let unknown = RuleFlags {
        alert: Flag::Unknown,
        status: Flag::Unknown,
    };
    let mut flags = Flags { of: [unknown; 16] };
    if states.len() != 32 {
        return flags;
    }
    let (least, greatest) = states.split_at(16);
    for i in 0..16 {
        flags.of[i] = rule_flags(lanes[i], least[i], greatest[i]);
    }
    flags
}
