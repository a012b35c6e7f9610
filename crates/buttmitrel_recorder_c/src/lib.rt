// The recorder for programs in C and Rust (include/buttmitrel.h): the functions of `buttmitrel_recorder` under their C names.
#![tactic(auto)]

ghost use Rattle.std.specs.Prelude.{◌≡◌};
ghost use Rattle.rules.specs.Samples.{sample_of};
ghost use Rattle.recording.specs.Recorder.{offer_answer, store_after_offer, drain_answer, buffer_after_drain};
ghost use Rattle.buttmitrel.specs.Code.{code_of, value_code};
ghost use Rattle.buttmitrel_recorder.specs.Numbers.{start_call, numbers_after_start, offer_call, numbers_after_offer, drain_call, numbers_after_drain};

#[unsafe(no_mangle)]
pub extern "C" fn buttmitrel_recorder_start(cells: u8, number: u32, numbers: &mut [u32]) -> u64
    ensures answer { result ≡ code_of (start_call cells number numbers.old) }
    ensures numbers { numbers.new ≡ numbers_after_start numbers.old (start_call cells number numbers.old) }
{
    buttmitrel_recorder::buttmitrel_recorder_start(cells, number, numbers)
}

#[unsafe(no_mangle)]
pub extern "C" fn buttmitrel_recorder_offer(
    numbers: &mut [u32],
    store: &mut [u8],
    tick: u32,
    current: i16,
    board: i16,
    volts: &[u16],
    temps: &[i16],
) -> u64
    ensures answer { result ≡ value_code (offer_answer (offer_call numbers.old store.old tick (sample_of current board volts.now temps.now))) }
    ensures numbers { numbers.new ≡ numbers_after_offer numbers.old (offer_call numbers.old store.old tick (sample_of current board volts.now temps.now)) }
    ensures store { store.new ≡ store_after_offer store.old (offer_call numbers.old store.old tick (sample_of current board volts.now temps.now)) }
{
    buttmitrel_recorder::buttmitrel_recorder_offer(
        numbers, store, tick, current, board, volts, temps,
    )
}

#[unsafe(no_mangle)]
pub extern "C" fn buttmitrel_recorder_drain(
    numbers: &mut [u32],
    store: &[u8],
    buffer: &mut [u8],
) -> u64
    ensures answer { result ≡ value_code (drain_answer (drain_call numbers.old store.now buffer.old)) }
    ensures numbers { numbers.new ≡ numbers_after_drain numbers.old (drain_call numbers.old store.now buffer.old) }
    ensures buffer { buffer.new ≡ buffer_after_drain buffer.old (drain_call numbers.old store.now buffer.old) }
{
    buttmitrel_recorder::buttmitrel_recorder_drain(numbers, store, buffer)
}
