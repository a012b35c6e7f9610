// A live state that the caller keeps in lists: loaded from them, and stored back.
ghost use Rattle.std.specs.Prelude.{◌≡◌, true, length};
ghost use Rattle.refusals.specs.Refusals.{answer_of};
ghost use Rattle.live.specs.Calls.{of_good};
ghost use Rattle.buttmitrel.specs.Code.{code_of};
ghost use Rattle.buttmitrel_live.specs.Live.{state_of, list_after, totals_list, begun_answer, reported_answer, state_report};
ghost use Rattle.buttmitrel_live.specs.inner.Keeping.{are_totals, totals_of, Filled, Loaded};

use buttmitrel::{code, status};
use live::{Live, Step};
use refusals::Refusal;
use report::{AllFirstTicks, FirstTicks, Totals};
use states::States;

fn copy_words(words: &[u64]) -> States
    requires { length words.now ≡ 80 }
    ensures { result.words ≡ words.now }
{
    let mut copy = [0; 80];
    copy.copy_from_slice(words);
    States { words: copy }
}

fn are_totals(totals: &[u64]) -> bool
    ensures { result ≡ are_totals totals.now }
{
    totals.len() == 4 && totals[2] <= 0xFFFFFFFF && totals[3] <= 0xFFFFFFFF
}

fn copy_totals(totals: &[u64]) -> Totals
    requires { are_totals totals.now ≡ true }
    ensures { result ≡ totals_of totals.now }
{
    Totals {
        charge_in: totals[0],
        charge_out: totals[1],
        unseen: totals[2] as u32,
        ticks: totals[3] as u32,
    }
}

fn store_totals(totals: &mut [u64], from: Totals)
    requires { length totals.old ≡ 4 }
    ensures { totals.new ≡ totals_list from }
{
    totals[0] = from.charge_in;
    totals[1] = from.charge_out;
    totals[2] = from.unseen as u64;
    totals[3] = from.ticks as u64;
}

// The state with the words and the totals of the lists, where they can be a state's.
fn fill(begun: Live, words: &[u64], totals: &[u64]) -> Option<Live>
    ensures { Filled result begun words.now totals.now }
{
    if words.len() == 80 && are_totals(totals) {
        return Some(Live {
            states: copy_words(words),
            totals: copy_totals(totals),
            ..begun
        });
    }
    None
}

// The state in the lists, where they can be one's.
pub(crate) fn load(
    cells: u8,
    idle: u16,
    rules: &[u8],
    words: &[u64],
    totals: &[u64],
) -> Option<Live>
    ensures { Loaded result rules.now words.now totals.now (state_of cells idle rules.now words.now totals.now) }
{
    let begun = live::begin(cells, idle, rules);
    if begun.answer.is_err() {
        return None;
    }
    fill(begun.state, words, totals)
}

// Stores the state after a call that was taken, and answers the call's number; lists of other lengths are refusal 15.
pub(crate) fn store(step: Step, words: &mut [u64], totals: &mut [u64]) -> u64
    ensures answer { result ≡ code_of (begun_answer (answer_of step.answer) words.old totals.old) }
    ensures words { words.new ≡ list_after (begun_answer (answer_of step.answer) words.old totals.old) step.state.states.words words.old }
    ensures totals { totals.new ≡ list_after (begun_answer (answer_of step.answer) words.old totals.old) (totals_list step.state.totals) totals.old }
{
    if let Err(why) = step.answer {
        return code(why);
    }
    if words.len() != 80 || totals.len() != 4 {
        return code(Refusal::BufferLength);
    }
    words.copy_from_slice(&step.state.states.words);
    store_totals(totals, step.state.totals);
    0
}

// Writes the report of a state, with no first ticks.
pub(crate) fn report_state(state: Live, report: &mut [u8]) -> u64
    ensures answer { result ≡ code_of (reported_answer (of_good state tt) report.old) }
    ensures bytes { report.new ≡ list_after (reported_answer (of_good state tt) report.old) (state_report state report.old) report.old }
{
    let read = live::flags(state);
    if let Err(why) = read.answer {
        return code(why);
    }
    let none = FirstTicks {
        possible: 0xFFFFFFFF,
        held: 0xFFFFFFFF,
    };
    let firsts = AllFirstTicks { of: [none; 16] };
    status(report::write_report(report, read.flags, firsts, state.totals))
}
