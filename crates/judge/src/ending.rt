// The report, from what is known at the end.
ghost use Rattle.std.specs.Prelude.{◌≡◌, ◌≤◌};
ghost use Rattle.bounds.specs.Steps.{flags_of_states};
ghost use Rattle.report.specs.Layout.{reported};
ghost use Rattle.totals.specs.Totals.{unseen_sum};
ghost use Rattle.judge.specs.inner.Ending.{joined, summed};

use crate::advance::Tracks;
use report::{AllFirstTicks, FirstTicks, Totals};

fn join_firsts(firsts: &[u32; 32]) -> AllFirstTicks
    ensures { result.of ≡ joined firsts.now }
{
    let none = FirstTicks {
        possible: 0,
        held: 0,
    };
    let mut all = AllFirstTicks { of: [none; 16] };
    for i in 0..16 {
        all.of[i] = FirstTicks {
            possible: firsts[16 + i],
            held: firsts[i],
        };
    }
    all
}

pub(crate) fn totals_of(holes: &[u8], samples: &[u8], cells: u8, ticks: u32) -> Totals
    requires { unseen_sum holes.now ≤ 4294967295 }
    ensures { result ≡ summed cells holes.now samples.now ticks }
{
    let charge = totals::sum_charge(samples, cells);
    let unseen = totals::count_unseen(holes);
    Totals {
        charge_in: charge.charge_in,
        charge_out: charge.charge_out,
        unseen: unseen as u32,
        ticks,
    }
}

pub(crate) fn write_end(lanes: &[u8; 32], tracks: &Tracks, totals: Totals, report: &mut [u8])
    ensures { report.new ≡ reported (flags_of_states lanes.now tracks.now.states) (joined tracks.now.firsts) totals report.old }
{
    let flags = bounds::flags_in(lanes, &tracks.states);
    let ticks = join_firsts(&tracks.firsts);
    let _ = report::write_report(report, flags, ticks, totals);
}
