// The verdicts on the replies of an accepted trace.
ghost use Rattle.std.specs.Prelude.{◌≡◌, List, map, ℕ, ◌/◌, ◌≤◌, get_or, length};
ghost use Rattle.trace.specs.Records.{replies_in};
ghost use Rattle.bounds.specs.Steps.{flags_of_states};
ghost use Rattle.verdicts.specs.declared.Tick.{Tick};
ghost use Rattle.verdicts.specs.Verdicts.{verdict_of};
ghost use Rattle.demands.specs.Verdicts.{verdict_on};
ghost use Rattle.walk.specs.Walk.{start_of};
ghost use Rattle.walk.specs.inner.Places.{shows};
ghost use Rattle.judge.specs.inner.Walk.{config_in, Answering, alarms_of, At, Known};

use crate::advance::{Judging, Stop, Tracks};
use flags::{Flag, Output};
use verdicts::{Alarms, Tick};

// The bits of BatteryStatus, from the least and greatest states.
fn alarms_in(lanes: &[u8; 32], states: &[u8]) -> Alarms
    ensures { result ≡ alarms_of (flags_of_states lanes.now states.now) }
{
    let flags = bounds::flags_in(lanes, states);
    Alarms {
        terminate_charge: flags::output_of(flags, Output::TerminateChargeAlarm),
        over_temp: flags::output_of(flags, Output::OverTempAlarm),
        terminate_discharge: flags::output_of(flags, Output::TerminateDischargeAlarm),
    }
}

// The bits, where the command of a reply asks for them: the verdict on another does not look at them.
fn alarms_for(command: u8, lanes: &[u8; 32], states: &[u8]) -> Alarms
    ensures { (tick : Tick) (bytes : List ℕ) → get_or bytes 1 0 ≡ command → verdict_of tick result bytes ≡ verdict_of tick (alarms_of (flags_of_states lanes.now states.now)) bytes }
{
    if command == 0x16 {
        return alarms_in(lanes, states);
    }
    Alarms {
        terminate_charge: Flag::Unknown,
        over_temp: Flag::Unknown,
        terminate_discharge: Flag::Unknown,
    }
}

// Where the walk begins.
pub(crate) fn start_at() -> Stop
    ensures { result ≡ record { cursor = start_of; shown = Tick.Unseen } }
{
    Stop {
        cursor: walk::start(),
        shown: Tick::Unseen,
    }
}

// The number of the verdict on a reply of six bytes.
#[tactic(auto, unfolding(verdicts::specs::Verdicts::verdict_answer))]
fn verdict_on(shown: Tick, alarms: Alarms, reply: &[u8]) -> u8
    requires { length reply.now ≡ 6 }
    ensures { result ≡ verdict_of shown alarms reply.now }
{
    match verdicts::judge_reply(shown, alarms, reply) {
        Ok(verdict) => verdict.number(),
        Err(_) => 0,
    }
}

// The number of the verdict on a reply of six bytes, where the walk stands after its tick.
fn judge_here(shown: Tick, lanes: &[u8; 32], states: &[u8], reply: &[u8]) -> u8
    requires { length reply.now ≡ 6 }
    ensures { result ≡ verdict_of shown (alarms_of (flags_of_states lanes.now states.now)) reply.now }
{
    let alarms = alarms_for(reply[1], lanes, states);
    verdict_on(shown, alarms, reply)
}

// Walks over the records: judges each reply after its own tick's evaluations, and goes on to the last tick.
pub(crate) fn judge_records(
    judging: &Judging,
    replies: &[u8],
    start: Stop,
    tracks: &mut Tracks,
    verdicts: &mut [u8],
)
    requires { At judging.now.frame judging.now.holes.now judging.now.samples.now start tracks.old × (start.cursor.tick ≤ 1) × Answering judging.now.frame.ticks replies.now verdicts.old }
    ensures known { Known (config_in judging.now.frame) judging.now.samples.now judging.now.frame.ticks tracks.new }
    ensures verdicts { verdicts.new ≡ map (verdict_on (config_in judging.now.frame) (shows judging.now.frame.cells judging.now.samples.now)) (replies_in replies.now) }
{
    let mut x = start;
    for j in 0..verdicts.len() {
        let reply = &replies[j * 10..j * 10 + 10];
        let to = bytes_le::u32_at(reply, 0) + 1;
        x = judging.advance(x, to, tracks);
        verdicts[j] = judge_here(x.shown, &judging.lanes, &tracks.states, &reply[4..]);
    }
    judging.advance(x, judging.frame.ticks, tracks);
}
