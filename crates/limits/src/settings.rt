// The limits of settings that a caller holds.
ghost use Rattle.std.specs.Prelude.{◌≡◌};
ghost use Rattle.refusals.specs.Refusals.{answer_of};
ghost use Rattle.rules.specs.Table.{rows};
ghost use Rattle.limits.specs.Limits.{limits, limits_answer};

use crate::rule::accepts;
use refusals::Refusal;
use rules::{Row, Setting, Settings};

fn accepts_setting(cells: u8, row: Row, setting: Setting) -> bool
    ensures { result ≡ limits cells row setting }
{
    accepts(
        cells,
        row,
        setting.threshold,
        setting.recovery,
        setting.time as u16,
    )
}

// Checks settings for packs of `cells` cells, up to the first rule that is outside its limits.
pub fn check_settings(cells: u8, settings: Settings) -> Result<(), Refusal>
    ensures { answer_of result ≡ limits_answer cells rows settings.of 0 }
{
    let table = rules::all_rows();
    for i in 0..16 {
        if !accepts_setting(cells, table.of[i], settings.of[i]) {
            return Err(Refusal::Limits { rule: i as u32 });
        }
    }
    Ok(())
}
