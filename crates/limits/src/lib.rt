// The limits of a rule set, lent as 160 bytes or held as settings (paper 01, 'The sixteen rules').
#![tactic(auto)]

ghost use Rattle.std.specs.Prelude.{◌≡◌, cond, ◌<◌};
ghost use Rattle.rules.specs.Table.{rows, row_at};
ghost use Rattle.limits.specs.Limits.{limits, setting_at, settings_of, with_settings, limits_answer, answer_of_settings, rule_set_answer};

mod rule;
mod settings;

use refusals::Refusal;
use rule::accepts;
use rules::{Setting, Settings, is_cell_count, row_at};
pub use settings::check_settings;

// A rule of a rule set, where its numbers are within their limits.
fn check_rule(cells: u8, bytes: &[u8], i: usize) -> Option<Setting>
    requires { i < 16 }
    ensures { result ≡ cond (limits cells (row_at i) (setting_at bytes.now i)) (Some (setting_at bytes.now i)) None }
{
    let threshold = bytes_le::i32_at(bytes, 10 * i);
    let recovery = bytes_le::i32_at(bytes, 10 * i + 4);
    let time = bytes_le::u16_at(bytes, 10 * i + 8);
    if accepts(cells, row_at(i), threshold, recovery, time) {
        return Some(Setting {
            threshold,
            recovery,
            time: time as u8,
        });
    }
    None
}

// Checks the rules one by one, up to the first that is outside its limits.
fn check_each(cells: u8, bytes: &[u8]) -> Result<Settings, Refusal>
    ensures { answer_of_settings result ≡ with_settings (limits_answer cells rows (settings_of bytes.now) 0) (settings_of bytes.now) }
{
    let mut of = [Setting::OFF; 16];
    for i in 0..16 {
        let Some(setting) = check_rule(cells, bytes, i) else {
            return Err(Refusal::Limits { rule: i as u32 });
        };
        of[i] = setting;
    }
    Ok(Settings { of })
}

// Checks a rule set for packs of `cells` cells, and hands on its settings.
pub fn check_rules(cells: u8, bytes: &[u8]) -> Result<Settings, Refusal>
    ensures { answer_of_settings result ≡ with_settings (rule_set_answer cells bytes.now) (settings_of bytes.now) }
{
    if !is_cell_count(cells) {
        return Err(Refusal::CellCount);
    }
    if bytes.len() != 160 {
        return Err(Refusal::RuleCount);
    }
    check_each(cells, bytes)
}
