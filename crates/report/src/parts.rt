// The parts of the report: rules, outputs, totals.
ghost use Rattle.std.specs.Prelude.{[], ◌∷◌, ◌+◌, ◌<◌, ◌≤◌, length};
ghost use Rattle.flags.specs.Flags.{number_of};
ghost use Rattle.report.specs.inner.Bytes.{Put};
ghost use Rattle.report.specs.Layout.{rule_bytes, rules_bytes, output_bytes, total_bytes};

use crate::{AllFirstTicks, FirstTicks, Totals};
use bytes_le::put;
use flags::{Flag, Flags, Output, RuleFlags};

// Puts the number of a flag.
fn put_flag(buffer: &mut [u8], at: usize, f: Flag)
    requires { at < length buffer.old }
    ensures { Put buffer.old buffer.new at (at + 1) (number_of f ∷ []) }
{
    buffer[at] = f.number();
}

fn put_rule(buffer: &mut [u8], at: usize, f: RuleFlags, t: FirstTicks)
    requires { at + 10 ≤ length buffer.old }
    ensures { Put buffer.old buffer.new at (at + 10) (rule_bytes f t) }
{
    put_flag(buffer, at, f.alert);
    put_flag(buffer, at + 1, f.status);
    put(buffer, at + 2, 4, t.possible as u64);
    put(buffer, at + 6, 4, t.held as u64);
}

// Puts the ten bytes of each rule.
pub(crate) fn put_rules(buffer: &mut [u8], flags: Flags, firsts: AllFirstTicks)
    requires { 160 ≤ length buffer.old }
    ensures { Put buffer.old buffer.new 0 160 (rules_bytes flags.of firsts.of) }
{
    for i in 0..16 {
        put_rule(buffer, i * 10, flags.of[i], firsts.of[i]);
    }
}

// Puts C, D and fuse.
pub(crate) fn put_outputs(buffer: &mut [u8], flags: Flags)
    requires { 163 ≤ length buffer.old }
    ensures { Put buffer.old buffer.new 160 163 (output_bytes flags.of) }
{
    put_flag(buffer, 160, flags::output_of(flags, Output::ChargeOpen));
    put_flag(buffer, 161, flags::output_of(flags, Output::DischargeOpen));
    put_flag(buffer, 162, flags::output_of(flags, Output::Fuse));
}

// Puts the totals.
pub(crate) fn put_totals(buffer: &mut [u8], totals: Totals)
    requires { 187 ≤ length buffer.old }
    ensures { Put buffer.old buffer.new 163 187 (total_bytes totals) }
{
    put(buffer, 163, 8, totals.charge_in);
    put(buffer, 171, 8, totals.charge_out);
    put(buffer, 179, 4, totals.unseen as u64);
    put(buffer, 183, 4, totals.ticks as u64);
}
