// Why a call refuses, and the papers' number and place of each reason (paper 01, 'Refusal numbers'; 17 is paper 02's, item 1).
#![tactic(auto)]

ghost use Rattle.std.specs.Prelude.{◌≡◌, Some};
ghost use Rattle.refusals.specs.Refusals.{number_of, place_of, refusal_text};

use std::error::Error;
use std::fmt;

#[derive(Clone, Copy, Debug, PartialEq, Eq)]
pub enum Refusal {
    TooShort,
    Version,
    CellCount,
    IdleCurrent,
    PastEnd,
    RuleCount,
    Limits { rule: u32 },
    Hole { place: u32 },
    Coverage { tick: u32 },
    ReplyTick { reply: u32 },
    LeftOver,
    ReportLength,
    VerdictLength,
    InputLength,
    BufferLength,
    State,
    HoleCount,
}

impl Refusal {
    pub fn number(self) -> u8
        ensures { result ≡ number_of self }
    {
        match self {
            Refusal::TooShort => 1,
            Refusal::Version => 2,
            Refusal::CellCount => 3,
            Refusal::IdleCurrent => 4,
            Refusal::PastEnd => 5,
            Refusal::RuleCount => 6,
            Refusal::Limits { .. } => 7,
            Refusal::Hole { .. } => 8,
            Refusal::Coverage { .. } => 9,
            Refusal::ReplyTick { .. } => 10,
            Refusal::LeftOver => 11,
            Refusal::ReportLength => 12,
            Refusal::VerdictLength => 13,
            Refusal::InputLength => 14,
            Refusal::BufferLength => 15,
            Refusal::State => 16,
            Refusal::HoleCount => 17,
        }
    }

    pub fn place(self) -> u32
        ensures { result ≡ place_of self }
    {
        match self {
            Refusal::Limits { rule } => rule,
            Refusal::Hole { place } => place,
            Refusal::Coverage { tick } => tick,
            Refusal::ReplyTick { reply } => reply,
            _ => 0,
        }
    }
}

// As programs write it.
impl fmt::Display for Refusal {
    ghost output = { λ why. Some (refusal_text (number_of why) (place_of why)) };

    fn fmt<W: fmt::Write>(&self, f: &mut fmt::Formatter<W>) -> fmt::Result {
        let why = *self;
        write!(f, "refused {} at {}", why.number(), why.place())
    }
}

impl Error for Refusal {}
