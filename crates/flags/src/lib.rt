// Three-way flags, and the outputs that several rules drive (paper 01, 'Three-way outputs').
#![tactic(auto)]

ghost use Rattle.std.specs.Prelude.{◌≡◌, ◌<◌, cond};
ghost use Rattle.flags.specs.Flags.{number_of, flag_of, with_next};
ghost use Rattle.rules.specs.Table.{rows};
ghost use Rattle.flags.specs.Outputs.{sets_bit, output_of, drivers, statuses_of};

use rules::Row;

#[derive(Clone, Copy, Debug, PartialEq, Eq)]
pub enum Flag {
    Clear,
    Held,
    Unknown,
}

impl Flag {
    // Paper 01's number of a flag.
    pub fn number(self) -> u8
        ensures { result ≡ number_of self }
    {
        match self {
            Flag::Clear => 0,
            Flag::Held => 1,
            Flag::Unknown => 2,
        }
    }
}

// The flag of a property, from whether a possible state has it and whether one has not. Of no state nothing is known.
pub fn flag_of(some: bool, other: bool) -> Flag
    ensures { result ≡ flag_of some other }
{
    match (some, other) {
        (true, false) => Flag::Held,
        (false, true) => Flag::Clear,
        _ => Flag::Unknown,
    }
}

// An output with one more driver.
fn with_next(driver: Flag, rest: Flag) -> Flag
    ensures { result ≡ with_next driver rest }
{
    match driver {
        Flag::Clear => rest,
        Flag::Held => Flag::Held,
        Flag::Unknown => match rest {
            Flag::Clear | Flag::Unknown => Flag::Unknown,
            Flag::Held => Flag::Held,
        },
    }
}

#[derive(Clone, Copy, Debug, PartialEq, Eq)]
pub struct RuleFlags {
    pub alert: Flag,
    pub status: Flag,
}

// The flags of all rules.
#[derive(Clone, Copy, Debug, PartialEq, Eq)]
pub struct Flags {
    pub of: [RuleFlags; 16],
}

// What several rules drive together. The last three are bits of BatteryStatus.
#[derive(Clone, Copy, Debug, PartialEq, Eq)]
pub enum Output {
    ChargeOpen,
    DischargeOpen,
    Fuse,
    TerminateChargeAlarm,
    OverTempAlarm,
    TerminateDischargeAlarm,
}

// Whether a rule sets a status bit, given as the power of two that it counts.
fn sets_bit(bit: u16, row: Row) -> bool
    requires { 0 < bit }
    ensures { result ≡ sets_bit bit row }
{
    row.bits / bit % 2 == 1
}

// Whether the rule of a row drives an output.
fn drives(o: Output, row: Row) -> bool
    ensures { result ≡ drivers o row }
{
    match o {
        Output::ChargeOpen => row.charge,
        Output::DischargeOpen => row.discharge,
        Output::Fuse => !row.recovers,
        Output::TerminateChargeAlarm => sets_bit(0x4000, row),
        Output::OverTempAlarm => sets_bit(0x1000, row),
        Output::TerminateDischargeAlarm => sets_bit(0x0800, row),
    }
}

// An output with one more rule, where it drives the output.
fn with_rule(driving: bool, status: Flag, rest: Flag) -> Flag
    ensures { result ≡ cond driving (with_next status rest) rest }
{
    if driving {
        return with_next(status, rest);
    }
    rest
}

// An output, from the statuses of the rules that drive it.
pub fn output_of(flags: Flags, o: Output) -> Flag
    ensures { number_of result ≡ number_of (output_of (drivers o) rows (statuses_of flags.of)) }
{
    let table = rules::all_rows();
    let mut found = Flag::Clear;
    for i in (0..16).rev() {
        found = with_rule(drives(o, table.of[i]), flags.of[i].status, found);
    }
    found
}
