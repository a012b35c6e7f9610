// The text for the bytes of an input (paper 01, 'Refusal numbers'): three lines, or one line for a refusal.
ghost use Rattle.std.specs.Prelude.{◌≡◌, ◌+◌, ◌≤◌, length};
ghost use Rattle.io.specs.Counts.{IsPrefixLen};
ghost use Rattle.bytes_le.specs.Writing.{put_at};
ghost use Rattle.refusals.specs.Refusals.{answer};
ghost use Rattle.trace.specs.Sections.{walk_answer, reply_count};
ghost use Rattle.trace.specs.Acceptance.{accept_answer};
ghost use Rattle.lines.specs.Lines.{accepted_lines};
ghost use Rattle.judge_trace.specs.Text.{lines_of, program_text};

use refusals::Refusal;

// Zeros for a text, or for the verdicts of a trace: a trace of 65,536 bytes has at most 6,536 replies.
pub(crate) fn buffer() -> [u8; 8192]
    ensures { 8192 ≡ length result }
{
    [0; 8192]
}

// Puts the three lines of a report and its verdicts, and answers their length.
fn put_accepted(out: &mut [u8], report: [u8; 187], verdicts: &mut [u8]) -> usize
    requires { (8192 ≡ length out.old) × (length verdicts.old ≤ 7000) }
    ensures value { result ≡ length (accepted_lines report verdicts.old) }
    ensures out_after { out.new ≡ put_at out.old 0 (accepted_lines report verdicts.old) }
    ensures prefix_len { IsPrefixLen result out.new }
{
    lines::to_digits(verdicts);
    let n = verdicts.len();
    bytes_le::put_bytes(out, 0, b"accepted\n");
    lines::put_report(out, 9, report);
    bytes_le::put_bytes(out, 384, verdicts);
    bytes_le::put_bytes(out, 384 + n, b"\n");
    385 + n
}

// Judges a trace of n replies, puts its lines and answers their length.
fn put_judged(s: &[u8], n: usize, out: &mut [u8]) -> usize
    requires { (8192 ≡ length out.old) × (n ≤ 7000) × (answer n ≡ reply_count (walk_answer s.now)) }
    ensures value { result ≡ length (lines_of s.now (accept_answer s.now)) }
    ensures out_after { out.new ≡ put_at out.old 0 (lines_of s.now (accept_answer s.now)) }
    ensures prefix_len { IsPrefixLen result out.new }
{
    let mut space = buffer();
    let mut report = [0u8; 187];
    let verdicts = &mut space[..n];
    match judge::judge(s, &mut report, verdicts) {
        Err(refusal) => lines::put_refusal(out, refusal),
        Ok(()) => put_accepted(out, report, verdicts),
    }
}

// Puts the text for an input into 8,192 bytes, and answers its length.
pub(crate) fn put_text(s: &[u8], out: &mut [u8]) -> usize
    requires { 8192 ≡ length out.old }
    ensures length { result ≡ length (program_text s.now) }
    ensures bytes { out.new ≡ put_at out.old 0 (program_text s.now) }
    ensures counts { IsPrefixLen result out.new }
{
    if 65536 < s.len() {
        return lines::put_refusal(out, Refusal::InputLength);
    }
    match trace::reply_count(s) {
        Err(why) => lines::put_refusal(out, why),
        Ok(n) => put_judged(s, n, out),
    }
}
