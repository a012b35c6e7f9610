// The library for programs in C and Rust (include/buttmitrel.h), which `buttmitrel_c` exports: each call answers a number below
// 4,294,967,296, which is 0, a verdict or a count, or the number of a refusal times 4,294,967,296 plus its place.
#![tactic(auto)]

ghost use Rattle.std.specs.Prelude.{◌≡◌};
ghost use Rattle.refusals.specs.Refusals.{answer_of, refusal, or_kept};
ghost use Rattle.pec.specs.Reply.{seal_answer, sealed, check_answer};
ghost use Rattle.trace.specs.Sections.{walk_answer, reply_count};
ghost use Rattle.samples.specs.Answers.{cells_answer};
ghost use Rattle.totals.specs.Totals.{net_answer};
ghost use Rattle.judge.specs.Judge.{judge_answer, report_after, verdicts_after};
ghost use Rattle.buttmitrel.specs.Code.{code_of, value_code, into_two, two_after, into, voltages_list};

use refusals::Refusal;

// A refusal as one number.
pub fn code(why: Refusal) -> u64
    ensures { result ≡ code_of {A = Unit {0}} (refusal why) }
{
    (why.number() as u64) * 4294967296 + (why.place() as u64)
}

// A call that was carried out or refused, as one number.
pub fn status(answer: Result<(), Refusal>) -> u64
    ensures { result ≡ code_of (answer_of answer) }
{
    match answer {
        Ok(()) => 0,
        Err(why) => code(why),
    }
}

// Judges a trace into a report of 187 bytes and a verdict buffer as long as its reply count.
pub fn buttmitrel_judge(s: &[u8], report: &mut [u8], verdicts: &mut [u8]) -> u64
    ensures answer { result ≡ code_of (judge_answer s.now report.old verdicts.old) }
    ensures report { report.new ≡ report_after s.now report.old verdicts.old }
    ensures verdicts { verdicts.new ≡ verdicts_after s.now report.old verdicts.old }
{
    status(judge::judge(s, report, verdicts))
}

// The reply count of a trace, or the refusal of the walk over its sections.
pub fn buttmitrel_reply_count(s: &[u8]) -> u64
    ensures { result ≡ value_code (reply_count (walk_answer s.now)) }
{
    match trace::reply_count(s) {
        Ok(n) => n as u64,
        Err(why) => code(why),
    }
}

// Writes the six bytes of a read-word reply.
pub fn buttmitrel_seal(command: u8, word: u16, reply: &mut [u8]) -> u64
    ensures answer { result ≡ code_of (seal_answer reply.old) }
    ensures bytes { reply.new ≡ sealed command word reply.old }
{
    status(pec::seal(command, word, reply))
}

// 0 for a whole reply, 1 for a wrong address byte, 2 for a wrong packet error code.
pub fn buttmitrel_check(reply: &[u8]) -> u64
    ensures { result ≡ value_code (check_answer reply.now) }
{
    match pec::check(reply) {
        Ok(checked) => checked.number() as u64,
        Err(why) => code(why),
    }
}

// Writes the least and the greatest net charge of a trace, in mA seconds, into a list of two.
pub fn buttmitrel_net_charge(s: &[u8], bounds: &mut [i64]) -> u64
    ensures answer { result ≡ code_of (into_two bounds.old (net_answer s.now)) }
    ensures bounds { bounds.new ≡ two_after bounds.old (into_two bounds.old (net_answer s.now)) }
{
    match totals::net_charge(s) {
        Err(why) => code(why),
        Ok(net) => {
            if bounds.len() != 2 {
                return code(Refusal::BufferLength);
            }
            bounds[0] = net.least;
            bounds[1] = net.greatest;
            0
        }
    }
}

// Writes the highest, the lowest and the sum of 3 to 12 voltages into a list of three.
pub fn buttmitrel_cells(volts: &[u16], three: &mut [u32]) -> u64
    ensures answer { result ≡ code_of (into 3 three.old (cells_answer volts.now)) }
    ensures three { three.new ≡ or_kept (into 3 three.old (cells_answer volts.now)) voltages_list three.old }
{
    match samples::read_cells(volts) {
        Err(why) => code(why),
        Ok(v) => {
            if three.len() != 3 {
                return code(Refusal::BufferLength);
            }
            three[0] = v.highest as u32;
            three[1] = v.lowest as u32;
            three[2] = v.sum;
            0
        }
    }
}
