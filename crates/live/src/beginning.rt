// The state at the beginning.
ghost use Rattle.std.specs.Prelude.{◌≡◌};
ghost use Rattle.lists.specs.Lists.{tabulate};
ghost use Rattle.limits.specs.Limits.{off};
ghost use Rattle.live.specs.State.{begun};

use crate::{Live, Step};
use refusals::Refusal;
use report::Totals;
use rules::{Setting, Settings};
use states::States;

// Every rule at state 0, nothing counted.
pub(crate) fn begun(cells: u8, idle: u16, settings: Settings) -> Live
    ensures { result ≡ begun cells idle settings.of }
{
    Live {
        cells,
        idle,
        settings,
        states: States::begin(),
        totals: Totals {
            charge_in: 0,
            charge_out: 0,
            unseen: 0,
            ticks: 0,
        },
    }
}

// A refused beginning: three cells, idle 0, every rule switched off.
pub(crate) fn refuse_begin(why: Refusal) -> Step
    ensures { result ≡ record { answer = Err why; state = begun 3 0 (tabulate 16 (λ i. off)) } }
{
    let settings = Settings {
        of: [Setting::OFF; 16],
    };
    Step {
        answer: Err(why),
        state: begun(3, 0, settings),
    }
}
