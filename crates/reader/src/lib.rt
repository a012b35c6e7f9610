// A reader that keeps the trace it was lent and a place in it (paper 01, 'The form for each place'): thin over the walk
// `trace::advance`, which takes both as parameters.
#![tactic(auto)]

ghost use Rattle.std.specs.Prelude.{◌≡◌};
ghost use Rattle.refusals.specs.Refusals.{answer_of};
ghost use Rattle.trace.specs.Next.{next_answer, place_after};

use refusals::Refusal;
use trace::{Record, Step};

#[derive(Clone, Copy)]
pub struct Reader<'a> {
    pub trace: &'a [u8],
    pub at: usize,
}

// A reader at the beginning of a trace.
pub fn open<'a>(trace: &'a [u8]) -> Reader<'a>
    ensures { (result.trace ≡ trace.entry) × (result.at ≡ 0) }
{
    Reader { trace, at: 0 }
}

// Hands out what stands next, and moves on to the place after it.
pub fn next<'s, 'a>(r: &'s mut Reader<'a>) -> Result<Option<Record>, Refusal>
    ensures { (answer_of result ≡ next_answer r.old.trace.now r.old.at) × (r.new.trace ≡ r.old.trace) × (r.new.at ≡ place_after (next_answer r.old.trace.now r.old.at) r.old.at) }
{
    let step = trace::advance(r.trace, r.at);
    r.at = step.at;
    step.next
}

// What stands next from a place of a trace on, and the place after it: one step of a reader that stands there.
pub fn read_from(trace: &[u8], at: usize) -> Step
    ensures { (answer_of result.next ≡ next_answer trace.now at) × (result.at ≡ place_after (next_answer trace.now at) at) }
{
    let mut r = Reader { trace, at };
    let next = next(&mut r);
    Step { next, at: r.at }
}
