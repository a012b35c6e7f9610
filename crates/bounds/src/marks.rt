// The tests of all rules against one sample, without a branch.
ghost use Rattle.std.specs.Prelude.{◌≡◌, ℕ, ◌<◌, ◌≤◌, pos, get_or};
ghost use Rattle.bounds.specs.inner.Marks.{Within, trips_of, clears_of};

// Which rules' thresholds a sample meets, and which recoveries.
#[derive(Drop)]
pub(crate) struct Marks {
    pub trips: [bool; 16],
    pub clears: [bool; 16],
}

// The marks of numbers above their thresholds, which stand from `base` on, and of numbers below their recoveries.
pub(crate) fn marks_of(values: [i32; 16], base: usize, tests: &[i32; 64]) -> Marks
    requires { base ≤ 32 }
    ensures trips { result.trips ≡ trips_of values base tests.now }
    ensures clears { result.clears ≡ clears_of values tests.now }
    ensures within { (i : ℕ) → i < 16 → Within (get_or values i (pos 0)) }
{
    let mut trips = [false; 16];
    let mut clears = [false; 16];
    for i in 0..16 {
        trips[i] = tests[base + i] < values[i];
        clears[i] = values[i] < tests[48 + i];
    }
    Marks { trips, clears }
}
