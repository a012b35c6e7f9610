// The words of a line.

// A word as far as it is read: its first letter and, once it has '=', the place and the value of its field.
#[derive(Clone, Copy, Default)]
pub(crate) struct Word {
    pub(crate) letter: u8,
    pub(crate) field: u8,
    pub(crate) place: usize,
    pub(crate) value: u64,
}

impl Word {
    // By characters, not by `split` and `parse`: digits, '=' and '~' mean something wherever they stand in a word.
    // One character more: a digit, '=' before a value, '~' after one for 2^64 - 1 less it, or a letter. Of the letters the first
    // counts, and the others are for the reader. A label goes to the end of its line.
    pub(crate) fn add(&mut self, c: u8) {
        if self.letter == b'#' {
            return;
        }
        match c {
            // Of the digits the last nineteen count.
            b'0'..=b'9' => {
                self.value = self.value % 1000000000000000000 * 10 + (c - b'0') as u64;
            }
            b'=' => {
                *self = Word {
                    field: self.letter,
                    place: self.value as usize,
                    ..Word::default()
                };
            }
            b'~' => self.value = !self.value,
            b' ' => *self = Word::default(),
            _ if self.letter == 0 => self.letter = c,
            _ => {}
        }
    }
}
