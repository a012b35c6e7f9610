// A trace taken apart and checked (paper 01, 'The trace', 'Refusal numbers').
#![tactic(auto)]

ghost use Rattle.std.specs.Prelude.{◌≡◌};
ghost use Rattle.refusals.specs.Refusals.{answer_of, answer_as};
ghost use Rattle.trace.specs.Sections.{walk_answer, reply_count};
ghost use Rattle.trace.specs.Acceptance.{accept_answer, parsed_of};

mod coverage;
mod next;
mod order;
mod replies;
mod sections;

pub use next::{Kind, Record, Step, advance, next_record};
use order::accept_layout;
use refusals::Refusal;
use rules::Settings;
pub use sections::sample_width;
use sections::{check_head, check_rule_count, read_section};

// Where the sections of a trace lie, and the bytes of a sample. The rules are the bytes 6 to 165.
#[derive(Clone, Copy, Debug, PartialEq, Eq)]
pub struct Layout {
    pub cells: u8,
    pub idle: u16,
    pub holes: usize,
    pub holes_end: usize,
    pub replies: usize,
    pub replies_end: usize,
    pub reply_count: usize,
    pub samples: usize,
    pub sample_width: usize,
}

// The sections of a trace, or the first refusal among 1 to 6 and 11. The reply count is that of the verdict buffer.
#[tactic(auto, unfolding(crate::specs::Sections::walk_answer))]
pub fn walk_sections(s: &[u8]) -> Result<Layout, Refusal>
    ensures { answer_of result ≡ walk_answer s.now }
{
    check_head(s, 1)?;
    check_rule_count(s)?;
    let holes = read_section(s, 166, 8)?;
    let replies = read_section(s, holes.end, 10)?;
    let cells = s[1];
    let width = sample_width(cells);
    let samples = read_section(s, replies.end, width)?;
    if samples.end != s.len() {
        return Err(Refusal::LeftOver);
    }
    Ok(Layout {
        cells,
        idle: bytes_le::u16_at(s, 2),
        holes: holes.start,
        holes_end: holes.end,
        replies: replies.start,
        replies_end: replies.end,
        reply_count: replies.count,
        samples: samples.start,
        sample_width: width,
    })
}

// The reply count of a trace, which its verdict buffer has to have, or the refusal of the walk over the sections.
pub fn reply_count(s: &[u8]) -> Result<usize, Refusal>
    ensures { answer_of result ≡ reply_count (walk_answer s.now) }
{
    Ok(walk_sections(s)?.reply_count)
}

// What an accepted trace hands on.
#[derive(Clone, Copy, Debug, PartialEq, Eq)]
pub struct Acceptance {
    pub layout: Layout,
    pub settings: Settings,
    pub ticks: u32,
}

// Accepts a trace, or refuses it for the first reason in the paper's order.
#[tactic(auto, unfolding(crate::specs::Acceptance::accept_answer))]
pub fn accept(s: &[u8]) -> Result<Acceptance, Refusal>
    ensures { answer_as parsed_of result ≡ accept_answer s.now }
{
    let layout = walk_sections(s)?;
    accept_layout(s, layout)
}
