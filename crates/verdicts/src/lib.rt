// The verdict on a read-word reply of the pack (paper 01, 'Replies').
#![tactic(auto)]

ghost use Rattle.std.specs.Prelude.{◌≡◌, cond, ◌||◌, ◌<◌, eqb, length, get_or};
ghost use Rattle.std.specs.Int.{w16};
ghost use Rattle.std.proofs.Common.{to_z};
ghost use Rattle.refusals.specs.Refusals.{answer_as};
ghost use Rattle.verdicts.specs.Verdicts.{number_of, word_of, voltage_verdict, current_verdict, status_verdict, command_verdict, same_z, reads, missed, invented, is_unknown, verdict_answer};

use flags::Flag;
use pec::Checked;
use refusals::Refusal;

// What is known of a reply's tick: its sample's sum of cells and current, or nothing, inside a hole. No `Option`: the promises on replies
// speak of `Tick`.
#[derive(Clone, Copy, Debug, PartialEq, Eq)]
pub enum Tick {
    Seen { sum_of_cells: u32, current: i16 },
    Unseen,
}

// The flags of the bits 4000h, 1000h and 0800h of BatteryStatus after the tick's evaluations.
#[derive(Clone, Copy, Debug, PartialEq, Eq)]
pub struct Alarms {
    pub terminate_charge: Flag,
    pub over_temp: Flag,
    pub terminate_discharge: Flag,
}

#[derive(Clone, Copy, Debug, PartialEq, Eq)]
pub enum Verdict {
    WrongAddress,
    WrongCode,
    OtherCommand,
    Agrees,
    Differs,
    CannotTell,
}

impl Verdict {
    // Paper 01's number of a verdict.
    pub fn number(self) -> u8
        ensures { result ≡ number_of self }
    {
        match self {
            Verdict::WrongAddress => 1,
            Verdict::WrongCode => 2,
            Verdict::OtherCommand => 3,
            Verdict::Agrees => 4,
            Verdict::Differs => 5,
            Verdict::CannotTell => 6,
        }
    }
}

fn agrees(same: bool) -> Verdict
    ensures { number_of result ≡ cond same 4 5 }
{
    if same {
        Verdict::Agrees
    } else {
        Verdict::Differs
    }
}

fn judge_voltage(tick: Tick, word: u16) -> Verdict
    ensures { number_of result ≡ voltage_verdict tick word }
{
    match tick {
        Tick::Seen { sum_of_cells, .. } => agrees(u32::from(word) == sum_of_cells),
        Tick::Unseen => Verdict::CannotTell,
    }
}

fn same_current(word: u16, current: i16) -> bool
    ensures { result ≡ same_z (to_z w16 word) current }
{
    bytes_le::signed16(word) == current
}

fn judge_current(tick: Tick, word: u16) -> Verdict
    ensures { number_of result ≡ current_verdict tick word }
{
    match tick {
        Tick::Seen { current, .. } => agrees(same_current(word, current)),
        Tick::Unseen => Verdict::CannotTell,
    }
}

// Whether a word has a bit, given as the power of two that it counts.
fn reads(bit: u16, word: u16) -> bool
    requires { 0 < bit }
    ensures { result ≡ reads bit word }
{
    word / bit % 2 == 1
}

fn is_missed(flag: Flag, one: bool) -> bool
    ensures { result ≡ missed flag one }
{
    match flag {
        Flag::Held => !one,
        Flag::Clear | Flag::Unknown => false,
    }
}

fn is_invented(flag: Flag, one: bool) -> bool
    ensures { result ≡ invented flag one }
{
    match flag {
        Flag::Clear => one,
        Flag::Held | Flag::Unknown => false,
    }
}

fn is_unknown(flag: Flag) -> bool
    ensures { result ≡ is_unknown flag }
{
    match flag {
        Flag::Clear | Flag::Held => false,
        Flag::Unknown => true,
    }
}

fn is_wrong(a: Alarms, word: u16) -> bool
    ensures { result ≡ (missed a.terminate_charge (reads 0x4000 word) || missed a.over_temp (reads 0x1000 word) || missed a.terminate_discharge (reads 0x0800 word) || invented a.over_temp (reads 0x1000 word)) }
{
    is_missed(a.terminate_charge, reads(0x4000, word))
        || is_missed(a.over_temp, reads(0x1000, word))
        || is_missed(a.terminate_discharge, reads(0x0800, word))
        || is_invented(a.over_temp, reads(0x1000, word))
}

fn some_unknown(a: Alarms) -> bool
    ensures { result ≡ (is_unknown a.terminate_charge || is_unknown a.over_temp || is_unknown a.terminate_discharge) }
{
    is_unknown(a.terminate_charge) || is_unknown(a.over_temp) || is_unknown(a.terminate_discharge)
}

fn judge_status(a: Alarms, word: u16) -> Verdict
    ensures { number_of result ≡ status_verdict a word }
{
    if is_wrong(a, word) {
        return Verdict::Differs;
    }
    if some_unknown(a) {
        return Verdict::CannotTell;
    }
    Verdict::Agrees
}

fn judge_command(tick: Tick, a: Alarms, command: u8, word: u16) -> Verdict
    ensures { number_of result ≡ command_verdict tick a command word }
{
    match command {
        0x09 => judge_voltage(tick, word),
        0x0a => judge_current(tick, word),
        0x16 => judge_status(a, word),
        _ => Verdict::OtherCommand,
    }
}

fn judge_whole(tick: Tick, a: Alarms, reply: &[u8]) -> Verdict
    requires { length reply.now ≡ 6 }
    ensures { number_of result ≡ command_verdict tick a (get_or reply.now 1 0) (word_of reply.now) }
{
    judge_command(tick, a, reply[1], bytes_le::join16(reply[3], reply[4]))
}

// The verdict on a reply at a tick. A part of the judge, which lends six bytes: any other number is refusal 15, as in `pec::check`.
pub fn judge_reply(tick: Tick, a: Alarms, reply: &[u8]) -> Result<Verdict, Refusal>
    ensures { answer_as number_of result ≡ verdict_answer tick a reply.now }
{
    Ok(match pec::check(reply)? {
        Checked::WrongAddress => Verdict::WrongAddress,
        Checked::WrongCode => Verdict::WrongCode,
        Checked::Intact => judge_whole(tick, a, reply),
    })
}
