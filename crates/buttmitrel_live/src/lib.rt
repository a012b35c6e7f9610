// The live feed for programs in C and Rust (include/buttmitrel.h), which keep the state in lists of their own and lend them to each call.
// `buttmitrel_live_c` exports its functions.
#![tactic(auto)]

ghost use Rattle.std.specs.Prelude.{◌≡◌, [], ◌∷◌};
ghost use Rattle.rules.specs.Samples.{sample_of};
ghost use Rattle.states.specs.Records.{fresh};
ghost use Rattle.live.specs.Calls.{begin_answer};
ghost use Rattle.buttmitrel.specs.Code.{code_of};
ghost use Rattle.buttmitrel_live.specs.Live.{list_after, begun_answer, kept, sample_code, sample_words, sample_totals, hole_call, hole_words, hole_totals, report_call, report_after};

mod keeping;

use buttmitrel::code;
use keeping::{load, report_state, store};
use refusals::Refusal;

// Begins a live feed: writes the states and the totals of the beginning.
pub fn buttmitrel_live_begin(
    cells: u8,
    idle: u16,
    rules: &[u8],
    words: &mut [u64],
    totals: &mut [u64],
) -> u64
    ensures answer { result ≡ code_of (begun_answer (begin_answer cells idle rules.now) words.old totals.old) }
    ensures words { words.new ≡ list_after (begun_answer (begin_answer cells idle rules.now) words.old totals.old) fresh words.old }
    ensures totals { totals.new ≡ list_after (begun_answer (begin_answer cells idle rules.now) words.old totals.old) (0 ∷ 0 ∷ 0 ∷ 0 ∷ []) totals.old }
{
    store(live::begin(cells, idle, rules), words, totals)
}

// Takes the sample of the expected tick.
pub fn buttmitrel_live_sample(
    cells: u8,
    idle: u16,
    rules: &[u8],
    words: &mut [u64],
    totals: &mut [u64],
    tick: u32,
    current: i16,
    board: i16,
    volts: &[u16],
    temps: &[i16],
) -> u64
    ensures answer { result ≡ sample_code (kept cells idle rules.now words.old totals.old) tick (sample_of current board volts.now temps.now) }
    ensures words { words.new ≡ sample_words (kept cells idle rules.now words.old totals.old) tick (sample_of current board volts.now temps.now) }
    ensures totals { totals.new ≡ sample_totals (kept cells idle rules.now words.old totals.old) tick (sample_of current board volts.now temps.now) }
{
    let Some(state) = load(cells, idle, rules, words, totals) else {
        return code(Refusal::State);
    };
    let step = live::sample(state, tick, current, board, volts, temps);
    store(step, words, totals)
}

// Takes a hole from the expected tick up to its last tick.
pub fn buttmitrel_live_hole(
    cells: u8,
    idle: u16,
    rules: &[u8],
    words: &mut [u64],
    totals: &mut [u64],
    last: u32,
) -> u64
    ensures answer { result ≡ code_of (hole_call (kept cells idle rules.now words.old totals.old) last) }
    ensures words { words.new ≡ hole_words (kept cells idle rules.now words.old totals.old) last }
    ensures totals { totals.new ≡ hole_totals (kept cells idle rules.now words.old totals.old) last }
{
    let Some(state) = load(cells, idle, rules, words, totals) else {
        return code(Refusal::State);
    };
    store(live::hole(state, last), words, totals)
}

// Writes the report of a state into 187 bytes, with no first ticks.
pub fn buttmitrel_live_report(
    cells: u8,
    idle: u16,
    rules: &[u8],
    words: &[u64],
    totals: &[u64],
    report: &mut [u8],
) -> u64
    ensures answer { result ≡ code_of (report_call (kept cells idle rules.now words.now totals.now) report.old) }
    ensures report { report.new ≡ report_after (kept cells idle rules.now words.now totals.now) report.old }
{
    let Some(state) = load(cells, idle, rules, words, totals) else {
        return code(Refusal::State);
    };
    report_state(state, report)
}
