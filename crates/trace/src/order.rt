// The checks of a trace, in the paper's order.
ghost use Rattle.std.specs.Prelude.{◌≡◌};
ghost use Rattle.refusals.specs.Refusals.{answer, answer_of, answer_as};
ghost use Rattle.trace.specs.Sections.{walk_answer};
ghost use Rattle.trace.specs.Acceptance.{records_answer, accept_answer, parsed_of};

use crate::coverage::{check_holes, cover_ticks};
use crate::replies::check_replies;
use crate::{Acceptance, Layout};
use limits::check_rules;
use refusals::Refusal;

// Refusals 8, 9 and 10.
fn accept_records(s: &[u8], l: Layout) -> Result<u32, Refusal>
    requires { walk_answer s.now ≡ answer l }
    ensures { answer_of result ≡ records_answer s.now l }
{
    let holes = &s[l.holes..l.holes_end];
    check_holes(holes)?;
    let ticks = cover_ticks(holes, &s[l.samples..], l.cells)?;
    check_replies(&s[l.replies..l.replies_end], ticks)?;
    Ok(ticks)
}

// Refusal 7, and those of the records.
#[tactic(auto, unfolding(crate::specs::Acceptance::accept_answer))]
pub(crate) fn accept_layout(s: &[u8], l: Layout) -> Result<Acceptance, Refusal>
    requires { walk_answer s.now ≡ answer l }
    ensures { answer_as parsed_of result ≡ accept_answer s.now }
{
    let settings = check_rules(l.cells, &s[6..166])?;
    let ticks = accept_records(s, l)?;
    Ok(Acceptance {
        layout: l,
        settings,
        ticks,
    })
}
