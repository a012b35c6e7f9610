// Whether a record of words is one of possible states (refusal 16).
ghost use Rattle.std.specs.Prelude.{◌≡◌, ◌<◌, eqb};
ghost use Rattle.states.specs.Validity.{valid_set, valid_record};
ghost use Rattle.states.specs.inner.Words.{below_word};

use crate::words::{below_word, top_for};
use rules::{Setting, Settings};

// Whether word j of a set has no state from t on.
fn ends_below(x: u64, j: usize, t: usize) -> bool
    ensures { result ≡ eqb (below_word t j x) x }
{
    below_word(x, j, t) == x
}

// Whether rule i has a possible state and none above its top. Word by word, where they stand: two lists compared whole take a third longer.
fn valid_rule(words: &[u64; 80], i: usize, setting: Setting) -> bool
    requires { i < 16 }
    ensures { result ≡ valid_set setting i words.now }
{
    let end = top_for(setting.time) + 1;
    let k = 5 * i;
    let mut found = false;
    for j in 0..5 {
        let x = words[k + j];
        if !ends_below(x, j, end) {
            return false;
        }
        found = found | (x != 0);
    }
    found
}

// Whether every rule has a possible state and none above its top. Words that are not eighty are no record.
pub fn valid(words: &[u64], settings: Settings) -> bool
    ensures { result ≡ valid_record settings.of words.now }
{
    let Some(words) = words.as_array::<80>() else {
        return false;
    };
    for (i, setting) in settings.of.iter().enumerate() {
        if !valid_rule(words, i, *setting) {
            return false;
        }
    }
    true
}
