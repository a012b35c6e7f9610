// A case: the state that calls are made on, and what else they are given.
use crate::words::Word;
use live::Live;
use report::Totals;
use rules::{Setting, Settings};
use states::States;

// What the calls are given beside a state. The rules are the bytes that a beginning is lent, and one more.
#[derive(Clone, Copy)]
pub(crate) struct Given {
    pub(crate) tick: u32,
    pub(crate) volts: u8,
    pub(crate) temps: u8,
    pub(crate) cells: u8,
    pub(crate) idle: u16,
    pub(crate) rules: [u8; 161],
    pub(crate) length: u8,
}

#[derive(Clone, Copy)]
pub(crate) struct Case {
    pub(crate) state: Live,
    pub(crate) given: Given,
}

// A number below 0 comes as 64 bits, and of one past 31 bits the lowest 31 count.
fn signed(value: u64) -> i32 {
    i32::try_from(value).unwrap_or(i32::MIN + (value % 0x80000000) as i32)
}

impl Case {
    pub(crate) fn new() -> Case {
        let off = Setting {
            threshold: 0,
            recovery: 0,
            time: 0,
        };
        Case {
            state: Live {
                cells: 0,
                idle: 0,
                settings: Settings { of: [off; 16] },
                states: States { words: [0; 80] },
                totals: Totals {
                    charge_in: 0,
                    charge_out: 0,
                    unseen: 0,
                    ticks: 0,
                },
            },
            given: Given {
                tick: 0,
                volts: 0,
                temps: 0,
                cells: 0,
                idle: 0,
                rules: [0; 161],
                length: 0,
            },
        }
    }

    // A field that has a place, by its letter.
    fn set_at(&mut self, letter: u8, place: usize, value: u64) {
        let setting = &mut self.state.settings.of[place % 16];
        match letter {
            b't' => setting.threshold = signed(value),
            b'r' => setting.recovery = signed(value),
            b's' => setting.time = (value % 256) as u8,
            b'w' => self.state.states.words[place % 80] = value,
            b'b' => self.given.rules[place % 161] = (value % 256) as u8,
            _ => {}
        }
    }

    // A field that has none, by the last five bits of its letter: a capital letter names it too. Of the value the bits count that
    // the field holds.
    fn set_number(&mut self, letter: u8, value: u64) {
        let in8 = (value % 256) as u8;
        let in16 = (value % 65536) as u16;
        let in32 = (value % 4294967296) as u32;
        match letter % 32 + 96 {
            b'c' => self.state.cells = in8,
            b'i' => self.state.idle = in16,
            b'g' => self.state.totals.charge_in = value,
            b'l' => self.state.totals.charge_out = value,
            b'u' => self.state.totals.unseen = in32,
            b'n' => self.state.totals.ticks = in32,
            b'a' => self.given.tick = in32,
            b'v' => self.given.volts = in8,
            b'd' => self.given.temps = in8,
            b'p' => self.given.cells = in8,
            b'q' => self.given.idle = in16,
            b'f' => self.given.length = in8,
            _ => {}
        }
    }

    // Sets the field that a word gives.
    pub(crate) fn set(&mut self, word: Word) {
        self.set_at(word.field, word.place, word.value);
        self.set_number(word.field, word.value);
    }
}
