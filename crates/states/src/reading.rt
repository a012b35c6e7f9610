// What is read off the record: the flags of all rules.
ghost use Rattle.std.specs.Prelude.{◌≡◌};
ghost use Rattle.states.specs.Readings.{all_flags};
ghost use Rattle.states.specs.inner.Rules.{flags_of_words};

use crate::record::load;
use crate::words::{alert_of, status_of, top_for};
use flags::{Flag, Flags, RuleFlags};
use rules::{Setting, Settings};

// The flags of a rule of these words.
fn flags_of_rule(w: [u64; 5], setting: Setting) -> RuleFlags
    ensures { result ≡ flags_of_words setting w }
{
    let top = top_for(setting.time);
    RuleFlags {
        alert: alert_of(w, top),
        status: status_of(w, top),
    }
}

// The alert and the status of every rule.
pub(crate) fn flags_in(words: &[u64; 80], settings: Settings) -> Flags
    ensures { result.of ≡ all_flags settings.of words.now }
{
    let unknown = RuleFlags {
        alert: Flag::Unknown,
        status: Flag::Unknown,
    };
    let mut flags = Flags { of: [unknown; 16] };
    for (i, setting) in settings.of.iter().enumerate() {
        flags.of[i] = flags_of_rule(load(words, i), *setting);
    }
    flags
}
