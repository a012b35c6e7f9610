// The first ticks of the states.
ghost use Rattle.std.specs.Prelude.{◌≡◌, length};
ghost use Rattle.std.specs.Option.{unwrap_or};
ghost use Rattle.bounds.specs.Firsts.{none, noted};
ghost use Rattle.bounds.specs.inner.Firsts.{half_noted};

use crate::reading::is_top;

// The report's own number for no tick: the judge writes the first ticks into its bytes as they stand.
const NONE: u32 = 0xFFFFFFFF;

// A first tick once found stays.
pub(crate) fn note(found: Option<u32>, first: u32) -> u32
    ensures { result ≡ noted (unwrap_or found none) first }
{
    match found {
        Some(tick) if first == NONE => tick,
        _ => first,
    }
}

// Notes the tick of each of the least states or the greatest that is at the top.
pub(crate) fn note_states(lanes: &[u8; 32], tick: u32, states: &[u8], firsts: &mut [u32])
    requires { (length states.now ≡ 16) × (length firsts.old ≡ 16) }
    ensures { firsts.new ≡ half_noted lanes.now tick states.now firsts.old }
{
    for i in 0..16 {
        let found = is_top(lanes[i], states[i]).then_some(tick);
        firsts[i] = note(found, firsts[i]);
    }
}
