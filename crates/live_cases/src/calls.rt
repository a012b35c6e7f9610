// The calls of the live feed, by the first letters of their names.
use crate::answers::{end_comparison, end_read, end_step};
use crate::case::{Case, Given};
use flags::Output;
use live::{Live, Step};
use std::io;

// Every cell at 4,150 mV and 25 degrees.
fn sample(state: Live, given: &Given) -> Step {
    let volts = [4150u16; 14];
    let temps = [250i16; 14];
    let v = (given.volts as usize).min(14);
    let t = (given.temps as usize).min(14);
    live::sample(state, given.tick, 0, 250, &volts[..v], &temps[..t])
}

fn begin(given: &Given) -> Step {
    let n = (given.length as usize).min(161);
    live::begin(given.cells, given.idle, &given.rules[..n])
}

fn end_flags(rt: &impl Print, state: Live) -> io::Result<()> {
    let read = live::flags(state);
    let rule = read.flags.of[0];
    end_read(rt, read.answer, |()| {
        println!(rt; ": {} {}", rule.alert.number(), rule.status.number())
    })
}

fn end_output(rt: &impl Print, state: Live) -> io::Result<()> {
    end_read(rt, live::output(state, Output::ChargeOpen), |flag| {
        println!(rt; ": {}", flag.number())
    })
}

fn end_totals(rt: &impl Print, state: Live) -> io::Result<()> {
    end_read(rt, live::totals(state), |read| {
        println!(rt;
            ": {} {} {} {}",
            read.charge_in, read.charge_out, read.unseen, read.ticks
        )
    })
}

fn end_net_charge(rt: &impl Print, state: Live) -> io::Result<()> {
    end_read(rt, live::net_charge(state), |net| {
        println!(rt; ": {} {}", net.least, net.greatest)
    })
}

// Ends a line with what the call that its last word names answers. Each letter is matched once, here: an enum of the calls would be
// made by one match of this length and called by another.
pub(crate) fn end_line(rt: &impl Print, letter: u8, case: &Case, kept: &Case) -> io::Result<()> {
    let state = case.state;
    let given = &case.given;
    match letter {
        b's' => end_step(rt, sample(state, given), state),
        b'h' => end_step(rt, live::hole(state, given.tick), state),
        b'b' => end_step(rt, begin(given), state),
        b'f' => end_flags(rt, state),
        b'o' => end_output(rt, state),
        b't' => end_totals(rt, state),
        b'n' => end_net_charge(rt, state),
        b'e' => end_comparison(rt, state, kept.state),
        _ => println!(rt),
    }
}
