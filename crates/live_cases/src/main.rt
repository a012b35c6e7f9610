// Calls of the live feed on states good and forged (paper 01, 'Refusal numbers'). The cases are the file 'stdin', which says how
// they are written; each line comes back, with the answer of the call that it names.
#![tactic(auto)]

mod answers;
mod calls;
mod case;
mod words;

use calls::end_line;
use case::Case;
use std::io;
use words::Word;

// Gives a case the fields of a line, and answers the line's last word.
fn read_words(case: &mut Case, line: &[u8]) -> Word {
    let mut word = Word::default();
    for c in line {
        if *c <= b' ' {
            case.set(word);
        }
        word.add(*c);
    }
    case.set(word);
    word
}

// A last line that has no end is written again, and calls nothing.
fn run(rt: &impl Print, text: &[u8]) -> io::Result<()> {
    let mut kept = Case::new();
    let mut case = kept;
    for line in text.split_inclusive(|c| *c == b'\n') {
        let Some(words) = line.strip_suffix(b"\n") else {
            return rt.write_all(line);
        };
        rt.write_all(words)?;
        let word = read_words(&mut case, words);
        end_line(rt, word.letter, &case, &kept)?;
        match word.letter {
            b'k' => kept = case,
            b'#' => case = kept,
            _ => {}
        }
    }
    Ok(())
}

// A text longer than 65,536 bytes is read up to there.
fn main(rt: HostRuntime) -> io::Result<()> {
    let mut text = [0u8; 65536];
    let mut input = rt.reader();
    let n = inputs::read_full(&mut input, &mut text)?;
    run(&rt, &text[..n])
}
