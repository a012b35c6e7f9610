// A run of unseen ticks.
ghost use Rattle.std.specs.Prelude.{◌≡◌};
ghost use Rattle.states.specs.Steps.{after_unseen};

use crate::record::{load, store};
use crate::words::{many_unseen, top_for};
use rules::Settings;

// Moves all rules by the unseen ticks from first to last.
pub(crate) fn miss(words: &mut [u64; 80], settings: Settings, first: u32, last: u32)
    ensures { words.new ≡ after_unseen settings.of first last words.old }
{
    let table = rules::all_rows();
    for (i, setting) in settings.of.iter().enumerate() {
        let row = table.of[i];
        let n = rules::evaluations_in(row, first, last);
        if setting.time != 0 && n != 0 {
            let w = load(words, i);
            let v = many_unseen(w, top_for(setting.time), row.recovers, n);
            store(words, i, v);
        }
    }
}
