// The states of all rules by a tick's marks.
ghost use Rattle.std.specs.Prelude.{◌≡◌, cond, length};
ghost use Rattle.lists.specs.Lists.{some_below};
ghost use Rattle.rules.specs.Evaluation.{step};
ghost use Rattle.bounds.specs.Firsts.{rises};
ghost use Rattle.bounds.specs.inner.Marks.{half_moved, either_rises};

use crate::marks::Marks;

// How the states of a rule move at a tick: whether it is evaluated, its top state, and what the evaluation finds.
#[derive(Clone, Copy)]
pub(crate) struct Move {
    pub go: bool,
    pub top: u8,
    pub trip: bool,
    pub clear: bool,
}

impl Move {
    // A state after an evaluation. To call `rules::step_state`, which is of 64 bits, a state would be widened, the answer cut, and
    // the cut proved: no plainer.
    #[tactic(auto, unfolding(rules::specs::Evaluation::step))]
    fn stepped(self, s: u8) -> u8
        ensures { result ≡ step self.top self.trip self.clear s }
    {
        if s < self.top {
            if self.trip { s + 1 } else { 0 }
        } else {
            if self.clear { 0 } else { self.top }
        }
    }

    // A state after the tick.
    pub(crate) fn after(self, s: u8) -> u8
        ensures { result ≡ cond self.go (step self.top self.trip self.clear s) s }
    {
        let next = self.stepped(s);
        if self.go { next } else { s }
    }

    // Moves a state, and answers whether it comes to the top.
    fn apply(self, state: &mut u8) -> bool
        ensures state { state.new ≡ cond self.go (step self.top self.trip self.clear state.old) state.old }
        ensures rises { result ≡ rises self.top state.old state.new }
    {
        let s = *state;
        let next = self.after(s);
        *state = next;
        (s < self.top) & (next == self.top)
    }
}

// Moves all states, and answers whether one comes to its top. One loop without a branch moves both halves: two loops would be
// unrolled, and then no vectors are made of them.
pub(crate) fn move_states(
    marks: &Marks,
    lanes: &[u8; 32],
    even: bool,
    least: &mut [u8],
    greatest: &mut [u8],
) -> bool
    requires { (length least.old ≡ 16) × (length greatest.old ≡ 16) }
    ensures least { least.new ≡ half_moved marks.now lanes.now even least.old }
    ensures greatest { greatest.new ≡ half_moved marks.now lanes.now even greatest.old }
    ensures rises { result ≡ some_below 16 (either_rises lanes.now least.old least.new greatest.old greatest.new) }
{
    let mut any = false;
    for i in 0..16 {
        let rule = Move {
            go: (0 < lanes[16 + i]) | even,
            top: lanes[i],
            trip: marks.trips[i],
            clear: marks.clears[i],
        };
        let least_rises = rule.apply(&mut least[i]);
        let greatest_rises = rule.apply(&mut greatest[i]);
        any |= least_rises | greatest_rises;
    }
    any
}
