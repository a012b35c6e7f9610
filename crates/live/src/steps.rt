// What a sample and a hole do to a good state.
ghost use Rattle.std.specs.Prelude.{◌≡◌, true, cond, ◌&&◌, ◌*◌, ◌≤◌, ◌<◌, ltb, leb, eqb};
ghost use Rattle.refusals.specs.Refusals.{answer, refused};
ghost use Rattle.rules.specs.Samples.{sample_of, Sample, readings_of};
ghost use Rattle.live.specs.State.{good, with_sample, with_hole};
ghost use Rattle.live.specs.Calls.{sample_answer, hole_answer};
ghost use Rattle.live.specs.inner.Steps.{Stepped, count_sample, count_hole};

use crate::{Live, Step};
use refusals::Refusal;
use report::Totals;
use rules::Readings;

// A refused call answers the state that it was given.
pub(crate) fn refuse(why: Refusal, state: Live) -> Step
    ensures { result ≡ record { answer = Err why; state = state } }
{
    Step {
        answer: Err(why),
        state,
    }
}

fn count_sample(counted: Totals, current: i16) -> Totals
    requires { (counted.charge_in ≤ 32768 * 4294967295) × (counted.charge_out ≤ 32768 * 4294967295) × (counted.ticks < 0xFFFFFFFF) }
    ensures { result ≡ count_sample counted current }
{
    Totals {
        charge_in: counted.charge_in + totals::inward_of(current),
        charge_out: counted.charge_out + totals::outward_of(current),
        ticks: counted.ticks + 1,
        ..counted
    }
}

fn count_hole(counted: Totals, last: u32) -> Totals
    requires { (counted.unseen ≤ counted.ticks) × (counted.ticks ≤ last) × (last < 0xFFFFFFFF) }
    ensures { result ≡ count_hole counted last }
{
    Totals {
        unseen: counted.unseen + (last - counted.ticks + 1),
        ticks: last + 1,
        ..counted
    }
}

// The state after the sample of the expected tick.
fn with_sample(state: Live, current: i16, readings: Readings) -> Live
    requires { (good state ≡ true) × (state.totals.ticks < 0xFFFFFFFF) }
    ensures { (x : Sample) → x.current ≡ current → readings ≡ readings_of x → result ≡ with_sample state x }
{
    let counted = state.totals;
    Live {
        states: state
            .states
            .seen(state.settings, state.idle, counted.ticks, readings),
        totals: count_sample(counted, current),
        ..state
    }
}

// The state after a hole from the expected tick on.
fn with_hole(state: Live, last: u32) -> Live
    requires { (good state ≡ true) × (state.totals.ticks ≤ last) × (last < 0xFFFFFFFF) }
    ensures { result ≡ with_hole state last }
{
    let counted = state.totals;
    Live {
        states: state.states.unseen(state.settings, counted.ticks, last),
        totals: count_hole(counted, last),
        ..state
    }
}

// Takes readings at the expected tick; any other tick, and FFFFFFFFh, is refusal 9.
fn take_readings(state: Live, tick: u32, current: i16, readings: Readings) -> Step
    requires { good state ≡ true }
    ensures { (x : Sample) → x.current ≡ current → readings ≡ readings_of x → Stepped result (cond (eqb tick state.totals.ticks && ltb tick 0xFFFFFFFF) (answer tt) (refused 9 state.totals.ticks)) (with_sample state x) state }
{
    let expected = state.totals.ticks;
    if tick != expected {
        return refuse(Refusal::Coverage { tick: expected }, state);
    }
    if tick < 0xFFFFFFFF {
        return Step {
            answer: Ok(()),
            state: with_sample(state, current, readings),
        };
    }
    refuse(Refusal::Coverage { tick: expected }, state)
}

// Takes a sample; lists that are not as long as the pack has cells are refusal 15.
pub(crate) fn take_sample(
    state: Live,
    tick: u32,
    current: i16,
    board: i16,
    volts: &[u16],
    temps: &[i16],
) -> Step
    requires { good state ≡ true }
    ensures { Stepped result (sample_answer state tick (sample_of current board volts.now temps.now)) (with_sample state (sample_of current board volts.now temps.now)) state }
{
    match samples::read_sample(state.cells, current, board, volts, temps) {
        Err(why) => refuse(why, state),
        Ok(readings) => take_readings(state, tick, current, readings),
    }
}

// Takes a hole; a last tick before the expected one, and FFFFFFFFh, is refusal 8.
pub(crate) fn take_hole(state: Live, last: u32) -> Step
    requires { good state ≡ true }
    ensures { Stepped result (hole_answer state last) (with_hole state last) state }
{
    let expected = state.totals.ticks;
    if last < expected {
        return refuse(Refusal::Hole { place: expected }, state);
    }
    if last < 0xFFFFFFFF {
        return Step {
            answer: Ok(()),
            state: with_hole(state, last),
        };
    }
    refuse(Refusal::Hole { place: expected }, state)
}
