// The walk over the ticks of a trace, in the parts that hold its holes and its samples: at each place it says whether unseen
// ticks, a sample or the end comes next. A hole is never walked tick by tick.
#![tactic(auto)]

ghost use Rattle.std.specs.Prelude.{◌≡◌, ◌+◌, ◌<◌, ◌^◌, leb, length};
ghost use Rattle.walk.specs.Walk.{start_of, hole_here, past_run, past_sample, ahead};

// A place: the bytes of the next hole and of the next sample in their parts, and the next tick, which may lie inside that hole.
#[derive(Clone, Copy, Debug, PartialEq, Eq)]
pub struct Cursor {
    pub hole: usize,
    pub sample: usize,
    pub tick: u32,
}

// What comes next, with the place after it.
#[derive(Clone, Copy, Debug, PartialEq, Eq)]
pub enum Ahead {
    Unseen(Cursor),
    Sample(Cursor),
}

// Where a walk begins.
pub fn start() -> Cursor
    ensures { result ≡ start_of }
{
    Cursor {
        hole: 0,
        sample: 0,
        tick: 0,
    }
}

// Whether `width` bytes from the byte `at` on lie within `len`.
fn lies_within(at: usize, width: usize, len: usize) -> bool
    ensures { result ≡ leb (at + width) len }
{
    width <= len && at <= len - width
}

// Whether the next hole holds the next tick.
fn hole_here(holes: &[u8], c: Cursor) -> bool
    ensures { result ≡ hole_here holes.now c }
{
    let at = c.hole;
    lies_within(at, 8, holes.len())
        && bytes_le::u32_at(holes, at) <= c.tick
        && c.tick <= bytes_le::u32_at(holes, at + 4)
}

// The place after the unseen ticks of the next hole, up to the tick `to`.
fn past_run(holes: &[u8], c: Cursor, to: u32) -> Cursor
    requires { c.hole + 8 < 2 ^ 64 }
    ensures { result ≡ past_run holes.now c to }
{
    let last = bytes_le::u32_at(holes, c.hole + 4);
    if to <= last {
        return Cursor { tick: to, ..c };
    }
    Cursor {
        hole: c.hole + 8,
        tick: last + 1,
        ..c
    }
}

// The place after the next sample.
fn past_sample(c: Cursor, width: usize) -> Cursor
    requires { (c.sample + width < 2 ^ 64) × (c.tick < 0xFFFFFFFF) }
    ensures { result ≡ past_sample width c }
{
    Cursor {
        sample: c.sample + width,
        tick: c.tick + 1,
        ..c
    }
}

// What comes next before the tick `to`: unseen ticks of a hole, up to its end or to `to`, else a sample of a width, else the end. A part of
// the judge and of the feed, which lend the parts of an accepted trace: a hole or a sample that is cut off counts as none, and a sample's
// own tick is not read.
pub fn look_ahead(holes: &[u8], samples: &[u8], width: usize, c: Cursor, to: u32) -> Option<Ahead>
    ensures { result ≡ ahead holes.now samples.now width c to }
{
    if to <= c.tick {
        return None;
    }
    if hole_here(holes, c) {
        return Some(Ahead::Unseen(past_run(holes, c, to)));
    }
    if lies_within(c.sample, width, samples.len()) {
        return Some(Ahead::Sample(past_sample(c, width)));
    }
    None
}
