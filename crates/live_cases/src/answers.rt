// The lines of what the calls answer.
use live::{Live, Step};
use refusals::Refusal;
use std::io;

fn compared(a: Live, b: Live) -> &'static str {
    if a == b {
        "same state"
    } else {
        "another state"
    }
}

// Whether two states are the same.
pub(crate) fn end_comparison(rt: &impl Print, a: Live, b: Live) -> io::Result<()> {
    let found = compared(a, b);
    println!(rt; ": {found}")
}

// Whether a call that feeds answers the state of its case, and whether it was taken, with the next tick.
pub(crate) fn end_step(rt: &impl Print, step: Step, state: Live) -> io::Result<()> {
    let found = compared(state, step.state);
    let next = step.state.totals.ticks;
    match step.answer {
        Ok(()) => println!(rt; ": {found}, taken, next tick {next}"),
        Err(why) => println!(rt; ": {found}, {why}"),
    }
}

// What a call that reads hands out, as `write` writes it, or its refusal.
pub(crate) fn end_read<T: Copy, F: FnOnce(T) -> io::Result<()>>(
    rt: &impl Print,
    read: Result<T, Refusal>,
    write: F,
) -> io::Result<()>
    requires { F.IsAlwaysCallable write }
{
    match read {
        Ok(value) => write(value),
        Err(why) => println!(rt; ": {why}"),
    }
}
