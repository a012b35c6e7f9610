// Which states are good ones (refusal 16).
ghost use Rattle.std.specs.Prelude.{◌≡◌, ◌&&◌, leb};
ghost use Rattle.refusals.specs.Refusals.{passes};
ghost use Rattle.rules.specs.Samples.{cell_count};
ghost use Rattle.rules.specs.Table.{rows};
ghost use Rattle.limits.specs.Limits.{limits_answer};
ghost use Rattle.live.specs.State.{good};

use crate::Live;
use rules::{Settings, is_cell_count};

fn head_within(cells: u8, idle: u16) -> bool
    ensures { result ≡ (cell_count cells && leb idle 32766) }
{
    is_cell_count(cells) && idle <= 32766
}

fn rules_within(cells: u8, settings: Settings) -> bool
    ensures { result ≡ passes (limits_answer cells rows settings.of 0) }
{
    limits::check_settings(cells, settings).is_ok()
}

// Whether head, rules, possible states and totals are within their limits.
#[tactic(auto, unfolding(crate::specs::State::good))]
pub(crate) fn is_good(state: Live) -> bool
    ensures { result ≡ good state }
{
    let counted = state.totals;
    head_within(state.cells, state.idle)
        && rules_within(state.cells, state.settings)
        && states::valid(&state.states.words, state.settings)
        && totals::can_count(
            counted.charge_in,
            counted.charge_out,
            counted.unseen,
            counted.ticks,
        )
}
