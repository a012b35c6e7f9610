// The live feed for programs in C and Rust (include/buttmitrel.h): the functions of `buttmitrel_live` under their C names.
#![tactic(auto)]

ghost use Rattle.std.specs.Prelude.{◌≡◌, [], ◌∷◌};
ghost use Rattle.rules.specs.Samples.{sample_of};
ghost use Rattle.states.specs.Records.{fresh};
ghost use Rattle.live.specs.Calls.{begin_answer};
ghost use Rattle.buttmitrel.specs.Code.{code_of};
ghost use Rattle.buttmitrel_live.specs.Live.{list_after, begun_answer, kept, sample_code, sample_words, sample_totals, hole_call, hole_words, hole_totals, report_call, report_after};

#[unsafe(no_mangle)]
pub extern "C" fn buttmitrel_live_begin(
    cells: u8,
    idle: u16,
    rules: &[u8],
    words: &mut [u64],
    totals: &mut [u64],
) -> u64
    ensures answer { result ≡ code_of (begun_answer (begin_answer cells idle rules.now) words.old totals.old) }
    ensures words { words.new ≡ list_after (begun_answer (begin_answer cells idle rules.now) words.old totals.old) fresh words.old }
    ensures totals { totals.new ≡ list_after (begun_answer (begin_answer cells idle rules.now) words.old totals.old) (0 ∷ 0 ∷ 0 ∷ 0 ∷ []) totals.old }
{
    buttmitrel_live::buttmitrel_live_begin(cells, idle, rules, words, totals)
}

#[unsafe(no_mangle)]
pub extern "C" fn buttmitrel_live_sample(
    cells: u8,
    idle: u16,
    rules: &[u8],
    words: &mut [u64],
    totals: &mut [u64],
    tick: u32,
    current: i16,
    board: i16,
    volts: &[u16],
    temps: &[i16],
) -> u64
    ensures answer { result ≡ sample_code (kept cells idle rules.now words.old totals.old) tick (sample_of current board volts.now temps.now) }
    ensures words { words.new ≡ sample_words (kept cells idle rules.now words.old totals.old) tick (sample_of current board volts.now temps.now) }
    ensures totals { totals.new ≡ sample_totals (kept cells idle rules.now words.old totals.old) tick (sample_of current board volts.now temps.now) }
{
    buttmitrel_live::buttmitrel_live_sample(
        cells, idle, rules, words, totals, tick, current, board, volts, temps,
    )
}

#[unsafe(no_mangle)]
pub extern "C" fn buttmitrel_live_hole(
    cells: u8,
    idle: u16,
    rules: &[u8],
    words: &mut [u64],
    totals: &mut [u64],
    last: u32,
) -> u64
    ensures answer { result ≡ code_of (hole_call (kept cells idle rules.now words.old totals.old) last) }
    ensures words { words.new ≡ hole_words (kept cells idle rules.now words.old totals.old) last }
    ensures totals { totals.new ≡ hole_totals (kept cells idle rules.now words.old totals.old) last }
{
    buttmitrel_live::buttmitrel_live_hole(cells, idle, rules, words, totals, last)
}

#[unsafe(no_mangle)]
pub extern "C" fn buttmitrel_live_report(
    cells: u8,
    idle: u16,
    rules: &[u8],
    words: &[u64],
    totals: &[u64],
    report: &mut [u8],
) -> u64
    ensures answer { result ≡ code_of (report_call (kept cells idle rules.now words.now totals.now) report.old) }
    ensures report { report.new ≡ report_after (kept cells idle rules.now words.now totals.now) report.old }
{
    buttmitrel_live::buttmitrel_live_report(cells, idle, rules, words, totals, report)
}
