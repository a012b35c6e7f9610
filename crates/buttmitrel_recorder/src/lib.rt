// The recorder for programs in C and Rust (include/buttmitrel.h), which keep the record as six numbers and lend them to each call.
// `buttmitrel_recorder_c` exports its functions.
#![tactic(auto)]

ghost use Rattle.std.specs.Prelude.{◌≡◌, length};
ghost use Rattle.rules.specs.Samples.{sample_of};
ghost use Rattle.recording.specs.Recorder.{offer_answer, store_after_offer, drain_answer, buffer_after_drain};
ghost use Rattle.buttmitrel.specs.Code.{code_of, value_code};
ghost use Rattle.buttmitrel_recorder.specs.Numbers.{numbers_of, recorder_of, start_call, numbers_after_start, offer_call, numbers_after_offer, drain_call, numbers_after_drain};

use buttmitrel::code;
use recording::Recorder;
use refusals::Refusal;

fn load(numbers: &[u32]) -> Recorder
    requires { length numbers.now ≡ 6 }
    ensures { result ≡ recorder_of numbers.now }
{
    Recorder {
        cells: numbers[0],
        number: numbers[1],
        next: numbers[2],
        holes: numbers[3],
        stored: numbers[4],
        ever: numbers[5],
    }
}

fn store_numbers(numbers: &mut [u32], r: Recorder)
    requires { length numbers.old ≡ 6 }
    ensures { numbers.new ≡ numbers_of r }
{
    numbers[0] = r.cells;
    numbers[1] = r.number;
    numbers[2] = r.next;
    numbers[3] = r.holes;
    numbers[4] = r.stored;
    numbers[5] = r.ever;
}

// Writes the six numbers of a fresh recorder.
pub fn buttmitrel_recorder_start(cells: u8, number: u32, numbers: &mut [u32]) -> u64
    ensures answer { result ≡ code_of (start_call cells number numbers.old) }
    ensures numbers { numbers.new ≡ numbers_after_start numbers.old (start_call cells number numbers.old) }
{
    match recording::start(cells, number) {
        Err(why) => code(why),
        Ok(r) => {
            if numbers.len() != 6 {
                return code(Refusal::BufferLength);
            }
            store_numbers(numbers, r);
            0
        }
    }
}

// Offers the sample of a tick: 0 where it is stored, 1 where it became part of a hole.
pub fn buttmitrel_recorder_offer(
    numbers: &mut [u32],
    store: &mut [u8],
    tick: u32,
    current: i16,
    board: i16,
    volts: &[u16],
    temps: &[i16],
) -> u64
    ensures answer { result ≡ value_code (offer_answer (offer_call numbers.old store.old tick (sample_of current board volts.now temps.now))) }
    ensures numbers { numbers.new ≡ numbers_after_offer numbers.old (offer_call numbers.old store.old tick (sample_of current board volts.now temps.now)) }
    ensures store { store.new ≡ store_after_offer store.old (offer_call numbers.old store.old tick (sample_of current board volts.now temps.now)) }
{
    if numbers.len() != 6 {
        return code(Refusal::State);
    }
    let mut r = load(numbers);
    match recorder::offer(&mut r, store, tick, current, board, volts, temps) {
        Err(why) => code(why),
        Ok(became) => {
            store_numbers(numbers, r);
            became.number() as u64
        }
    }
}

// Writes the oldest samples to a buffer, as many whole ones as it holds, and answers how many.
pub fn buttmitrel_recorder_drain(numbers: &mut [u32], store: &[u8], buffer: &mut [u8]) -> u64
    ensures answer { result ≡ value_code (drain_answer (drain_call numbers.old store.now buffer.old)) }
    ensures numbers { numbers.new ≡ numbers_after_drain numbers.old (drain_call numbers.old store.now buffer.old) }
    ensures buffer { buffer.new ≡ buffer_after_drain buffer.old (drain_call numbers.old store.now buffer.old) }
{
    if numbers.len() != 6 {
        return code(Refusal::State);
    }
    let mut r = load(numbers);
    match recorder::drain(&mut r, store, buffer) {
        Err(why) => code(why),
        Ok(count) => {
            numbers[4] = r.stored;
            count as u64
        }
    }
}
