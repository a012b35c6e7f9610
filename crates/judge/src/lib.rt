// The judge of a trace (paper 01): the report of 187 bytes and a verdict on each reply.
#![tactic(auto)]

ghost use Rattle.std.specs.Prelude.{◌≡◌};
ghost use Rattle.refusals.specs.Refusals.{answer_of};
ghost use Rattle.judge.specs.Judge.{buffers_answer, judge_answer, report_after, verdicts_after};

mod advance;
mod ending;
mod parts;
mod replies;

use parts::judge_accepted;
use refusals::Refusal;

// Whether the buffers fit a trace.
fn check_buffers(s: &[u8], report: usize, verdicts: usize) -> Result<(), Refusal>
    ensures { answer_of result ≡ buffers_answer s.now report verdicts }
{
    if report != 187 {
        return Err(Refusal::ReportLength);
    }
    if verdicts != trace::reply_count(s)? {
        return Err(Refusal::VerdictLength);
    }
    Ok(())
}

// Judges a trace into a report of 187 bytes and a verdict buffer as long as its reply count, which `trace::reply_count` tells.
pub fn judge(s: &[u8], report: &mut [u8], verdicts: &mut [u8]) -> Result<(), Refusal>
    ensures answer { answer_of result ≡ judge_answer s.now report.old verdicts.old }
    ensures report { report.new ≡ report_after s.now report.old verdicts.old }
    ensures verdicts { verdicts.new ≡ verdicts_after s.now report.old verdicts.old }
{
    check_buffers(s, report.len(), verdicts.len())?;
    let accepted = trace::accept(s)?;
    judge_accepted(s, accepted, report, verdicts);
    Ok(())
}
