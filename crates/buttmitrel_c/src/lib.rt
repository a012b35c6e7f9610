// The library for programs in C and Rust (include/buttmitrel.h): the functions of `buttmitrel` under their C names.
#![tactic(auto)]

ghost use Rattle.std.specs.Prelude.{◌≡◌};
ghost use Rattle.refusals.specs.Refusals.{or_kept};
ghost use Rattle.pec.specs.Reply.{seal_answer, sealed, check_answer};
ghost use Rattle.trace.specs.Sections.{walk_answer, reply_count};
ghost use Rattle.samples.specs.Answers.{cells_answer};
ghost use Rattle.totals.specs.Totals.{net_answer};
ghost use Rattle.judge.specs.Judge.{judge_answer, report_after, verdicts_after};
ghost use Rattle.buttmitrel.specs.Code.{code_of, value_code, into_two, two_after, into, voltages_list};

#[unsafe(no_mangle)]
pub extern "C" fn buttmitrel_judge(s: &[u8], report: &mut [u8], verdicts: &mut [u8]) -> u64
    ensures answer { result ≡ code_of (judge_answer s.now report.old verdicts.old) }
    ensures report { report.new ≡ report_after s.now report.old verdicts.old }
    ensures verdicts { verdicts.new ≡ verdicts_after s.now report.old verdicts.old }
{
    buttmitrel::buttmitrel_judge(s, report, verdicts)
}

#[unsafe(no_mangle)]
pub extern "C" fn buttmitrel_reply_count(s: &[u8]) -> u64
    ensures { result ≡ value_code (reply_count (walk_answer s.now)) }
{
    buttmitrel::buttmitrel_reply_count(s)
}

#[unsafe(no_mangle)]
pub extern "C" fn buttmitrel_seal(command: u8, word: u16, reply: &mut [u8]) -> u64
    ensures answer { result ≡ code_of (seal_answer reply.old) }
    ensures bytes { reply.new ≡ sealed command word reply.old }
{
    buttmitrel::buttmitrel_seal(command, word, reply)
}

#[unsafe(no_mangle)]
pub extern "C" fn buttmitrel_check(reply: &[u8]) -> u64
    ensures { result ≡ value_code (check_answer reply.now) }
{
    buttmitrel::buttmitrel_check(reply)
}

#[unsafe(no_mangle)]
pub extern "C" fn buttmitrel_net_charge(s: &[u8], bounds: &mut [i64]) -> u64
    ensures answer { result ≡ code_of (into_two bounds.old (net_answer s.now)) }
    ensures bounds { bounds.new ≡ two_after bounds.old (into_two bounds.old (net_answer s.now)) }
{
    buttmitrel::buttmitrel_net_charge(s, bounds)
}

#[unsafe(no_mangle)]
pub extern "C" fn buttmitrel_cells(volts: &[u16], three: &mut [u32]) -> u64
    ensures answer { result ≡ code_of (into 3 three.old (cells_answer volts.now)) }
    ensures three { three.new ≡ or_kept (into 3 three.old (cells_answer volts.now)) voltages_list three.old }
{
    buttmitrel::buttmitrel_cells(volts, three)
}
