// The report of 187 bytes (paper 01, 'Three-way outputs').
#![tactic(auto)]

ghost use Rattle.std.specs.Prelude.{◌≡◌};
ghost use Rattle.refusals.specs.Refusals.{answer_of};
ghost use Rattle.report.specs.Layout.{report_answer, reported};

mod parts;

use flags::Flags;
use refusals::Refusal;

// The first tick at which a rule's status is held or unknown, and the first at which it is held; FFFFFFFFh for none.
#[derive(Clone, Copy, Debug, PartialEq, Eq)]
pub struct FirstTicks {
    pub possible: u32,
    pub held: u32,
}

// Those of all rules.
#[derive(Clone, Copy, Debug, PartialEq, Eq)]
pub struct AllFirstTicks {
    pub of: [FirstTicks; 16],
}

// Charge in and out in mA seconds, unseen ticks, ticks.
#[derive(Clone, Copy, Debug, PartialEq, Eq)]
pub struct Totals {
    pub charge_in: u64,
    pub charge_out: u64,
    pub unseen: u32,
    pub ticks: u32,
}

// Writes the report into a buffer of 187 bytes.
#[tactic(auto, unfolding(crate::specs::Layout::reported))]
pub fn write_report(
    buffer: &mut [u8],
    flags: Flags,
    firsts: AllFirstTicks,
    totals: Totals,
) -> Result<(), Refusal>
    ensures answer { answer_of result ≡ report_answer buffer.old }
    ensures bytes { buffer.new ≡ reported flags.of firsts.of totals buffer.old }
{
    if buffer.len() != 187 {
        return Err(Refusal::ReportLength);
    }
    parts::put_rules(buffer, flags, firsts);
    parts::put_outputs(buffer, flags);
    parts::put_totals(buffer, totals);
    Ok(())
}
