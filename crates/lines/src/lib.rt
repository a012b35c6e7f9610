// The lines that the programs write (paper 01, 'Refusal numbers').
#![tactic(auto)]

ghost use Rattle.std.specs.Prelude.{◌++◌, ◌≡◌, ◌+◌, ◌≤◌, length};
ghost use Rattle.io.specs.Counts.{IsPrefixLen};
ghost use Rattle.bytes_le.specs.Writing.{put_at};
ghost use Rattle.refusals.specs.Refusals.{number_of, place_of};
ghost use Rattle.lines.specs.Lines.{decimal, refusal_line, hex_line, verdict_digits, put_length};

use bytes_le::put_bytes;
use refusals::Refusal;

// Puts a word and a number in decimal, and answers where they end.
fn put_number(line: &mut [u8], at: usize, word: &[u8], n: u64) -> usize
    requires { (64 ≡ length line.old) × (at + length word.now ≤ 40) }
    ensures value { result ≡ at + length (word.now ++ decimal n) }
    ensures line_after { line.new ≡ put_at line.old at (word.now ++ decimal n) }
{
    let mut digits = [0u8; 20];
    let k = io::decimal(n, &mut digits);
    put_bytes(line, at, word);
    put_bytes(line, at + word.len(), &digits[..k]);
    at + word.len() + k
}

// Puts the line of a refusal at the start of 64 bytes, and answers its length.
fn lay_refusal(line: &mut [u8], why: Refusal) -> usize
    requires { 64 ≡ length line.old }
    ensures value { result ≡ length (refusal_line (number_of why) (place_of why)) }
    ensures line_after { line.new ≡ put_at line.old 0 (refusal_line (number_of why) (place_of why)) }
{
    let a = put_number(line, 0, b"refused ", why.number() as u64);
    let b = put_number(line, a, b" at ", why.place() as u64);
    put_bytes(line, b, b"\n");
    b + 1
}

// Puts the line of a refusal at the start of a buffer, in paper 01's numbers, and answers how many bytes it put: none where the line
// does not fit. A length and no `Option`, since a text of no bytes is what the program then writes.
pub fn put_refusal(buffer: &mut [u8], why: Refusal) -> usize
    ensures put { result ≡ put_length buffer.old (refusal_line (number_of why) (place_of why)) }
    ensures bytes { buffer.new ≡ put_at buffer.old 0 (refusal_line (number_of why) (place_of why)) }
    ensures counts { IsPrefixLen result buffer.new }
{
    let mut line = [0u8; 64];
    let n = lay_refusal(&mut line, why);
    if buffer.len() < n {
        return 0;
    }
    put_bytes(buffer, 0, &line[..n]);
    n
}

fn hex_line(report: &[u8; 187]) -> [u8; 375]
    ensures { result ≡ hex_line report.now }
{
    let mut text = [b'\n'; 375];
    hex::encode_to_slice(report, &mut text[..374]).unwrap();
    text
}

// Puts the line of a report, 374 lower-case hex digits, from a place on. Where it does not fit nothing is written.
pub fn put_report(buffer: &mut [u8], at: usize, report: [u8; 187])
    ensures { buffer.new ≡ put_at buffer.old at (hex_line report) }
{
    let text = hex_line(&report);
    put_bytes(buffer, at, &text);
}

// Turns each verdict into its digit, and a number above nine into its last digit.
pub fn to_digits(verdicts: &mut [u8])
    ensures { verdicts.new ≡ verdict_digits verdicts.old }
{
    for verdict in verdicts.iter_mut() {
        *verdict = b'0' + *verdict % 10;
    }
}
