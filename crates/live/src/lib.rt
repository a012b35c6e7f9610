// The live feed (paper 01): a card in a running analyzer feeds samples and holes one by one. Each call takes any state whatever;
// one that is no good state is refusal 16, and a refused call answers the state that it was given.
#![tactic(auto)]

ghost use Rattle.std.specs.Prelude.{◌≡◌};
ghost use Rattle.refusals.specs.Refusals.{answer_of, answer_as};
ghost use Rattle.rules.specs.Samples.{sample_of};
ghost use Rattle.flags.specs.Flags.{number_of};
ghost use Rattle.live.specs.Calls.{begin_answer, begin_state, sample_answer, sample_state, hole_answer, hole_state, of_good, flags_read, output_read, totals_read, net_read};

mod beginning;
mod checks;
mod steps;

use beginning::{begun, refuse_begin};
use checks::is_good;
use flags::{Flag, Flags, Output, RuleFlags};
use refusals::Refusal;
use report::Totals;
use rules::{Settings, is_cell_count};
use states::States;
use steps::{refuse, take_hole, take_sample};
use totals::NetCharge;

// Head, rules, possible states and totals; the expected tick is `totals.ticks`.
#[derive(Clone, Copy, Debug, PartialEq, Eq)]
pub struct Live {
    pub cells: u8,
    pub idle: u16,
    pub settings: Settings,
    pub states: States,
    pub totals: Totals,
}

// What a call that feeds answers: whether it was taken, and the state after it. A refused call answers a state too.
#[derive(Clone, Copy, Debug, PartialEq, Eq)]
pub struct Step {
    pub answer: Result<(), Refusal>,
    pub state: Live,
}

// Begins a feed, from rules lent as 160 bytes. A refused beginning answers the state begun from 3 cells, idle 0 and rules of zeros.
pub fn begin(cells: u8, idle: u16, rules: &[u8]) -> Step
    ensures answer { answer_of result.answer ≡ begin_answer cells idle rules.now }
    ensures state { result.state ≡ begin_state cells idle rules.now }
{
    if !is_cell_count(cells) {
        return refuse_begin(Refusal::CellCount);
    }
    if 32766 < idle {
        return refuse_begin(Refusal::IdleCurrent);
    }
    match limits::check_rules(cells, rules) {
        Err(why) => refuse_begin(why),
        Ok(settings) => Step {
            answer: Ok(()),
            state: begun(cells, idle, settings),
        },
    }
}

// Takes the sample of the expected tick.
pub fn sample(
    state: Live,
    tick: u32,
    current: i16,
    board: i16,
    volts: &[u16],
    temps: &[i16],
) -> Step
    ensures answer { answer_of result.answer ≡ sample_answer state tick (sample_of current board volts.now temps.now) }
    ensures state { result.state ≡ sample_state state tick (sample_of current board volts.now temps.now) }
{
    if is_good(state) {
        return take_sample(state, tick, current, board, volts, temps);
    }
    refuse(Refusal::State, state)
}

// Takes a hole from the expected tick up to its last tick.
pub fn hole(state: Live, last: u32) -> Step
    ensures answer { answer_of result.answer ≡ hole_answer state last }
    ensures state { result.state ≡ hole_state state last }
{
    if is_good(state) {
        return take_hole(state, last);
    }
    refuse(Refusal::State, state)
}

// The flags of all rules. Those of no good state are all unknown, so that they read neither held nor clear where the answer is not looked at.
#[derive(Clone, Copy, Debug, PartialEq, Eq)]
pub struct FlagsRead {
    pub answer: Result<(), Refusal>,
    pub flags: Flags,
}

pub fn flags(state: Live) -> FlagsRead
    ensures answer { answer_of result.answer ≡ of_good state tt }
    ensures flags { result.flags.of ≡ flags_read state }
{
    if is_good(state) {
        return FlagsRead {
            answer: Ok(()),
            flags: state.states.flags(state.settings),
        };
    }
    let unknown = RuleFlags {
        alert: Flag::Unknown,
        status: Flag::Unknown,
    };
    FlagsRead {
        answer: Err(Refusal::State),
        flags: Flags { of: [unknown; 16] },
    }
}

// C open, D open, the fuse, or one of the three bits of BatteryStatus.
pub fn output(state: Live, o: Output) -> Result<Flag, Refusal>
    ensures { answer_as number_of result ≡ output_read state o }
{
    if is_good(state) {
        let flags = state.states.flags(state.settings);
        return Ok(flags::output_of(flags, o));
    }
    Err(Refusal::State)
}

// Charge in and out, unseen ticks, ticks.
pub fn totals(state: Live) -> Result<Totals, Refusal>
    ensures { answer_of result ≡ totals_read state }
{
    is_good(state).then_some(state.totals).ok_or(Refusal::State)
}

// The least and the greatest net charge, in mA seconds.
pub fn net_charge(state: Live) -> Result<NetCharge, Refusal>
    ensures { answer_of result ≡ net_read state }
{
    if is_good(state) {
        let counted = state.totals;
        return totals::net_of_totals(
            counted.charge_in,
            counted.charge_out,
            counted.unseen,
            counted.ticks,
        );
    }
    Err(Refusal::State)
}
