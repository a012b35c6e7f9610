// An accepted trace, judged from its parts.
ghost use Rattle.std.specs.Prelude.{◌≡◌, map, length};
ghost use Rattle.refusals.specs.Refusals.{answer};
ghost use Rattle.trace.specs.Records.{replies_in};
ghost use Rattle.trace.specs.Acceptance.{accept_answer, parsed_of};
ghost use Rattle.ticks.specs.Traces.{trace_of};
ghost use Rattle.demands.specs.Report.{trace_report};
ghost use Rattle.demands.specs.Verdicts.{verdict_on, trace_verdicts};
ghost use Rattle.walk.specs.inner.Places.{shows};
ghost use Rattle.judge.specs.inner.Walk.{config_in};
ghost use Rattle.judge.specs.inner.Ending.{Parts, report_of};

use crate::advance::{Frame, Judging, Tracks};
use crate::ending::{totals_of, write_end};
use crate::replies::{judge_records, start_at};
use trace::Acceptance;

fn judge_parts(
    holes: &[u8],
    replies: &[u8],
    samples: &[u8],
    f: Frame,
    report: &mut [u8],
    verdicts: &mut [u8],
)
    requires { Parts f holes.now replies.now samples.now (length verdicts.old) }
    ensures report { report.new ≡ report_of f holes.now samples.now report.old }
    ensures verdicts { verdicts.new ≡ map (verdict_on (config_in f) (shows f.cells samples.now)) (replies_in replies.now) }
{
    let judging = Judging {
        frame: f,
        tests: bounds::tests_of(f.settings),
        lanes: bounds::lanes_of(f.settings),
        holes,
        samples,
    };
    let mut tracks = Tracks {
        states: [0; 32],
        firsts: [0xFFFFFFFF; 32],
    };
    judge_records(&judging, replies, start_at(), &mut tracks, verdicts);
    let totals = totals_of(holes, samples, f.cells, f.ticks);
    write_end(&judging.lanes, &tracks, totals, report);
}

// Judges an accepted trace, each section as its own part of the trace.
pub(crate) fn judge_accepted(s: &[u8], accepted: Acceptance, report: &mut [u8], verdicts: &mut [u8])
    requires { (accept_answer s.now ≡ answer (parsed_of accepted)) × (length report.old ≡ 187) × (length verdicts.old ≡ accepted.layout.reply_count) }
    ensures report { report.new ≡ trace_report (trace_of s.now (parsed_of accepted)) }
    ensures verdicts { verdicts.new ≡ trace_verdicts (trace_of s.now (parsed_of accepted)) }
{
    let l = accepted.layout;
    let f = Frame {
        cells: l.cells,
        idle: l.idle,
        width: l.sample_width,
        ticks: accepted.ticks,
        settings: accepted.settings,
    };
    let holes = &s[l.holes..l.holes_end];
    let replies = &s[l.replies..l.replies_end];
    judge_parts(holes, replies, &s[l.samples..], f, report, verdicts);
}
