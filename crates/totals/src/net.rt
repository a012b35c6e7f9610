// The bounds of a net charge, from totals and of an accepted trace.
ghost use Rattle.std.specs.Prelude.{◌≡◌, ◌*◌, ◌≤◌};
ghost use Rattle.refusals.specs.Refusals.{answer, answer_of};
ghost use Rattle.trace.specs.Acceptance.{Parsed, accept_answer};
ghost use Rattle.totals.specs.Totals.{bounds_from, countable, net_of, net_answer};

use crate::{NetCharge, count_unseen, sum_charge};
use refusals::Refusal;
use trace::Layout;

// The bounds from the charge and the unseen ones of at most 4,294,967,295 ticks.
fn bounds(charge_in: u64, charge_out: u64, unseen: u64) -> NetCharge
    requires { (charge_in ≤ 32768 * 4294967295) × (charge_out ≤ 32768 * 4294967295) × (unseen ≤ 4294967295) }
    ensures { result ≡ bounds_from charge_in charge_out unseen }
{
    let sure = charge_in as i64 - charge_out as i64;
    NetCharge {
        least: sure - (32768 * unseen) as i64,
        greatest: sure + (32767 * unseen) as i64,
    }
}

// Whether a number of ticks can give these totals.
pub fn can_count(charge_in: u64, charge_out: u64, unseen: u32, ticks: u32) -> bool
    ensures { result ≡ countable charge_in charge_out unseen ticks }
{
    let most = 32768 * (ticks as u64);
    charge_in <= most && charge_out <= most && unseen <= ticks
}

// The bounds from totals that a caller holds. A part of the live feed, whose good states have totals that their ticks can give: any
// others are refusal 16, as a state that has them is.
pub fn net_of_totals(
    charge_in: u64,
    charge_out: u64,
    unseen: u32,
    ticks: u32,
) -> Result<NetCharge, Refusal>
    ensures { answer_of result ≡ net_of charge_in charge_out unseen ticks }
{
    if can_count(charge_in, charge_out, unseen, ticks) {
        return Ok(bounds(charge_in, charge_out, unseen as u64));
    }
    Err(Refusal::State)
}

// The bounds of an accepted trace with its layout.
pub(crate) fn net_of(s: &[u8], l: Layout) -> NetCharge
    requires { (w : Parsed) × (accept_answer s.now ≡ answer w) × (w.layout ≡ l) }
    ensures { answer result ≡ net_answer s.now }
{
    let unseen = count_unseen(&s[l.holes..l.holes_end]);
    let charge = sum_charge(&s[l.samples..], l.cells);
    bounds(charge.charge_in, charge.charge_out, unseen)
}
