// What a sample and a hole add to the totals.
ghost use Rattle.std.specs.Prelude.{◌≡◌, suc, ◌-◌, ◌≤◌};
ghost use Rattle.fillings.specs.Charge.{inward, outward};

// What a current charges, in a second.
pub fn inward_of(current: i16) -> u64
    ensures { (result ≡ inward current) × (result ≤ 32768) }
{
    if 0 <= current { current as u64 } else { 0 }
}

// What a current discharges, in a second: beside `inward_of`, since one function with the sign as a parameter would be no plainer.
pub fn outward_of(current: i16) -> u64
    ensures { (result ≡ outward current) × (result ≤ 32768) }
{
    if 0 <= current {
        0
    } else {
        (-(current as i64)) as u64
    }
}

pub(crate) fn hole_ticks(first: u32, last: u32) -> u64
    ensures { (result ≡ suc last - first) × (result ≤ 4294967296) }
{
    if last < first {
        return 0;
    }
    (last - first) as u64 + 1
}
