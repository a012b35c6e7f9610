// A seen tick.
ghost use Rattle.std.specs.Prelude.{◌≡◌, ◌<◌, unwrap_or};
ghost use Rattle.states.specs.Steps.{moves_by, after_seen};
ghost use Rattle.states.specs.inner.Rules.{evaluated_words};

use crate::record::{load, store};
use crate::words::{Moves, at_zero, moved, top_for};
use rules::{Readings, Row, Setting, Settings};

// Whether a seen tick moves a rule of a row: it is switched on and evaluated there.
fn moves_by(row: Row, tick: u32, setting: Setting) -> bool
    ensures { result ≡ moves_by row tick setting }
{
    setting.time != 0 && rules::evaluated_at(row, tick)
}

// The words of a rule that is switched on, after an evaluation, or none where they stay: one at 0 alone that does not trip.
fn evaluated(
    w: [u64; 5],
    row: Row,
    setting: Setting,
    idle: u16,
    readings: Readings,
) -> Option<[u64; 5]>
    requires { 0 < setting.time }
    ensures { unwrap_or result w ≡ evaluated_words row idle readings setting w }
{
    let top = top_for(setting.time);
    let trips = rules::meets_threshold(row, idle, setting, readings);
    if !trips && at_zero(w) {
        return None;
    }
    let clears = rules::meets_recovery(row, setting, readings);
    let moves = Moves {
        up: trips,
        restart: !trips,
        leave: clears,
        stay: !clears,
    };
    Some(moved(w, top, moves))
}

// Moves all rules by a seen tick.
pub(crate) fn see(
    words: &mut [u64; 80],
    settings: Settings,
    idle: u16,
    tick: u32,
    readings: Readings,
)
    ensures { words.new ≡ after_seen settings.of idle tick readings words.old }
{
    let table = rules::all_rows();
    for (i, setting) in settings.of.iter().enumerate() {
        let row = table.of[i];
        if moves_by(row, tick, *setting) {
            let w = load(words, i);
            if let Some(v) = evaluated(w, row, *setting, idle, readings) {
                store(words, i, v);
            }
        }
    }
}
