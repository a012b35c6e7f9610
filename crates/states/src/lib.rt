// The possible states of all rules, which the live feed keeps (paper 01, 'The form for each place'): one record by value with a
// flat array, the steps on it, and the flags that it gives. A part of the live feed, which asks `valid` first: the other calls
// answer for any words, and of a rule with no possible state the flags read unknown.
#![tactic(auto)]

ghost use Rattle.std.specs.Prelude.{◌≡◌};
ghost use Rattle.states.specs.Records.{fresh};
ghost use Rattle.states.specs.Steps.{after_seen, after_unseen};
ghost use Rattle.states.specs.Readings.{all_flags};

mod reading;
mod record;
mod seen;
mod unseen;
mod validity;
mod words;

use flags::Flags;
use reading::flags_in;
use rules::{Readings, Settings};
use seen::see;
use unseen::miss;
pub use validity::valid;

// Five words a rule: state s of rule i is bit s of the words from 5 i on, the lowest first.
#[derive(Clone, Copy, Debug, PartialEq, Eq)]
pub struct States {
    pub words: [u64; 80],
}

// The words of sixteen sets of state 0 alone.
const FRESH: [u64; 80] = [
    1, 0, 0, 0, 0, 1, 0, 0, 0, 0, 1, 0, 0, 0, 0, 1, 0, 0, 0, 0, 1, 0, 0, 0, 0, 1, 0, 0, 0, 0, 1, 0,
    0, 0, 0, 1, 0, 0, 0, 0, 1, 0, 0, 0, 0, 1, 0, 0, 0, 0, 1, 0, 0, 0, 0, 1, 0, 0, 0, 0, 1, 0, 0, 0,
    0, 1, 0, 0, 0, 0, 1, 0, 0, 0, 0, 1, 0, 0, 0, 0,
];

impl States {
    // Every rule at state 0.
    pub fn begin() -> States
        ensures { result.words ≡ fresh }
    {
        States { words: FRESH }
    }

    // The states after a seen tick.
    pub fn seen(mut self, settings: Settings, idle: u16, tick: u32, readings: Readings) -> States
        ensures { result.words ≡ after_seen settings.of idle tick readings self.words }
    {
        see(&mut self.words, settings, idle, tick, readings);
        self
    }

    // The states after the unseen ticks from first to last.
    pub fn unseen(mut self, settings: Settings, first: u32, last: u32) -> States
        ensures { result.words ≡ after_unseen settings.of first last self.words }
    {
        miss(&mut self.words, settings, first, last);
        self
    }

    // The alert and the status of every rule.
    pub fn flags(self, settings: Settings) -> Flags
        ensures { result.of ≡ all_flags settings.of self.words }
    {
        flags_in(&self.words, settings)
    }
}
