// Reads messages, a line of hex digits each, and writes the packet error code of each, a line of two hex digits.
#![tactic(auto)]

ghost use Rattle.std.specs.Prelude.{◌<◌};

use arrayvec::ArrayVec;
use std::io;

// By hand, not by `to_digit`: any other character counts as 0, and so does a capital letter.
fn value_of(digit: u8) -> u8
    ensures { result < 16 }
{
    match digit {
        b'0'..=b'9' => digit - b'0',
        b'a'..=b'f' => digit - b'a' + 10,
        _ => 0,
    }
}

// Of a message the first 64 bytes count, and no half byte.
fn answer(rt: &impl Print, digits: &[u8]) -> io::Result<()> {
    let mut message: ArrayVec<u8, 64> = ArrayVec::new();
    for pair in digits.chunks_exact(2) {
        let byte = value_of(pair[0]) * 16 + value_of(pair[1]);
        if message.try_push(byte).is_err() {
            break;
        }
    }
    let code = pec::pec(&message);
    println!(rt; "{code:02x}")
}

// A last line that has no end is not answered.
fn answer_lines(rt: &impl Print, text: &[u8]) -> io::Result<()> {
    for line in text.split_inclusive(|c| *c == b'\n') {
        if let Some(digits) = line.strip_suffix(b"\n") {
            answer(rt, digits)?;
        }
    }
    Ok(())
}

// A text longer than 65,536 bytes is read up to there.
fn main(rt: HostRuntime) -> io::Result<()> {
    let mut text = [0u8; 65536];
    let mut input = rt.reader();
    let n = inputs::read_full(&mut input, &mut text)?;
    answer_lines(&rt, &text[..n])
}
