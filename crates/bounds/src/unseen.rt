// A run of unseen ticks of one rule.
ghost use Rattle.std.specs.Prelude.{◌≡◌, suc, ◌-◌, ◌<◌, ◌&&◌, ltb, leb};
ghost use Rattle.std.specs.Bool.{then_some};
ghost use Rattle.rules.specs.Evaluation.{evaluations};
ghost use Rattle.bounds.specs.Steps.{greatest_missed};
ghost use Rattle.bounds.specs.Firsts.{tick_of};

use rules::Row;

// A greatest state after n unseen evaluations.
pub(crate) fn greatest_missed(top: u8, n: u64, s: u8) -> u8
    ensures { result ≡ greatest_missed top n s }
{
    if n == 0 {
        return s;
    }
    u64::from(s).saturating_add(n).min(u64::from(top)) as u8
}

// The tick of evaluation j from tick first on.
fn tick_of(row: Row, first: u32, j: u8) -> u64
    requires { 0 < j }
    ensures { result ≡ tick_of row first j }
{
    let a = u64::from(first);
    let n = u64::from(j);
    if row.even {
        return a + a % 2 + 2 * (n - 1);
    }
    a + (n - 1)
}

// The tick at which n unseen evaluations from first to last bring a greatest state to the top: one subtraction.
pub(crate) fn top_tick(row: Row, top: u8, first: u32, last: u32, n: u64, s: u8) -> Option<u32>
    requires { n ≡ evaluations row first (suc last) }
    ensures { result ≡ then_some (ltb s top && leb (top - s) n) (tick_of row first (top - s)) }
{
    if s < top {
        let j = top - s;
        if u64::from(j) <= n {
            return Some(tick_of(row, first, j) as u32);
        }
    }
    None
}
