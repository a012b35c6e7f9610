// A recorder whose record is lent once and updated where it stands (paper 01, 'The form for each place'): thin over `recording`,
// whose calls take the record by value.
#![tactic(auto)]

ghost use Rattle.std.specs.Prelude.{◌≡◌};
ghost use Rattle.refusals.specs.Refusals.{answer_of, answer_as};
ghost use Rattle.rules.specs.Samples.{sample_of};
ghost use Rattle.recording.specs.Recorder.{number_of, offered, offer_answer, recorder_after_offer, store_after_offer, drained, drain_answer, recorder_after_drain, buffer_after_drain};

use recording::{Offered, Recorder};
use refusals::Refusal;

// Takes the sample of a tick.
pub fn offer(
    recorder: &mut Recorder,
    store: &mut [u8],
    tick: u32,
    current: i16,
    board: i16,
    volts: &[u16],
    temps: &[i16],
) -> Result<Offered, Refusal>
    ensures answer { answer_as number_of result ≡ offer_answer (offered recorder.old store.old tick (sample_of current board volts.now temps.now)) }
    ensures recorder { recorder.new ≡ recorder_after_offer recorder.old (offered recorder.old store.old tick (sample_of current board volts.now temps.now)) }
    ensures store { store.new ≡ store_after_offer store.old (offered recorder.old store.old tick (sample_of current board volts.now temps.now)) }
{
    let step = recording::offer(*recorder, store, tick, current, board, volts, temps);
    *recorder = step.recorder;
    step.answer
}

// Writes the oldest samples to a buffer, as many whole ones as it holds.
pub fn drain(recorder: &mut Recorder, store: &[u8], buffer: &mut [u8]) -> Result<u32, Refusal>
    ensures answer { answer_of result ≡ drain_answer (drained recorder.old store.now buffer.old) }
    ensures recorder { recorder.new ≡ recorder_after_drain recorder.old (drained recorder.old store.now buffer.old) }
    ensures buffer { buffer.new ≡ buffer_after_drain buffer.old (drained recorder.old store.now buffer.old) }
{
    let step = recording::drain(*recorder, store, buffer);
    *recorder = step.recorder;
    step.answer
}
