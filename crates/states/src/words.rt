// A set of the states of one rule as five words: state s is bit s.
ghost use Rattle.std.specs.Prelude.{◌≡◌, true, ◌<◌, ◌≤◌, nat_eq};
ghost use Rattle.std.specs.Cmp.Lexicographic.{pointwise};
ghost use Rattle.lists.specs.Lists.{some_below};
ghost use Rattle.fillings.specs.PossibleStates.{next, start, unseen_times};
ghost use Rattle.rules.specs.Evaluation.{top, alert, status};
ghost use Rattle.fillings.specs.Flags.{flag};
ghost use Rattle.states.specs.Records.{at, states_of, words_of};
ghost use Rattle.states.specs.inner.Words.{below_word, with_word, Below, Up, Raised, With, Alerting, WordsUp, Joined, Filled};

use flags::Flag;

const HALF: u64 = 1 << 63;

// What an evaluation can do to a state: below the top count up or restart, at the top leave it or stay.
#[derive(Clone, Copy)]
pub(crate) struct Moves {
    pub up: bool,
    pub restart: bool,
    pub leave: bool,
    pub stay: bool,
}

// The top state of a rule, which fits its words.
pub(crate) fn top_for(time: u8) -> usize
    ensures { (result ≡ top time) × (result ≤ 256) }
{
    rules::top_of(time)
}

fn test(w: [u64; 5], p: usize) -> bool
    requires { p < 320 }
    ensures { result ≡ at w p }
{
    (w[p / 64] >> (p % 64)) % 2 == 1
}

pub(crate) fn below_word(x: u64, j: usize, t: usize) -> u64
    ensures { result ≡ below_word t j x }
{
    if j < t / 64 {
        return x;
    }
    if j == t / 64 {
        return x % (1 << (t % 64));
    }
    0
}

// The states below t.
pub(crate) fn below(mut w: [u64; 5], t: usize) -> [u64; 5]
    requires { t < 320 }
    ensures { Below w t result }
{
    for (j, x) in w.iter_mut().enumerate() {
        *x = below_word(*x, j, t);
    }
    w
}

fn up_one(mut w: [u64; 5]) -> [u64; 5]
    ensures { Up w result }
{
    let mut carry = 0;
    for x in &mut w {
        let next = *x / HALF;
        *x = *x % HALF * 2 + carry;
        carry = next;
    }
    w
}

fn with_word(x: u64, j: usize, p: usize, on: bool) -> u64
    ensures { result ≡ with_word p on j x }
{
    if j == p / 64 {
        if on {
            return x | 1 << (p % 64);
        }
        return x;
    }
    x
}

// The states with state p, if `on` says so. Word by word: a store at the place p / 64 keeps the words in memory.
fn with_state(mut w: [u64; 5], p: usize, on: bool) -> [u64; 5]
    requires { p < 320 }
    ensures { With w p on result }
{
    for (j, x) in w.iter_mut().enumerate() {
        *x = with_word(*x, j, p, on);
    }
    w
}

// Tried as `v == w`: a tick and its check then take half as long again, since the library's loop keeps the words in memory.
pub(crate) fn same(v: [u64; 5], w: [u64; 5]) -> bool
    ensures { result ≡ pointwise nat_eq v w }
{
    (v[0] == w[0]) & (v[1] == w[1]) & (v[2] == w[2]) & (v[3] == w[3]) & (v[4] == w[4])
}

pub(crate) fn some(w: [u64; 5]) -> bool
    ensures { result ≡ some_below 320 (at w) }
{
    !same(w, [0; 5])
}

// Whether state 0 alone is possible.
pub(crate) fn at_zero(w: [u64; 5]) -> bool
    ensures { result ≡ true → w ≡ words_of (start 0) }
{
    same(w, [1, 0, 0, 0, 0])
}

// The words a place up, or none.
fn raised(w: [u64; 5], on: bool) -> [u64; 5]
    ensures { Raised w on result }
{
    if on { up_one(w) } else { [0; 5] }
}

// The states after an evaluation.
pub(crate) fn moved(w: [u64; 5], top: usize, moves: Moves) -> [u64; 5]
    requires { (0 < top) × (top ≤ 256) }
    ensures { result ≡ words_of (next top (record { up = moves.up; restart = moves.restart; leave = moves.leave; stay = moves.stay }) (states_of w top)) }
{
    let held = test(w, top);
    let low = below(w, top);
    let counted = raised(low, moves.up);
    // `&` and `|` of what is at hand: neither the code nor its proof branches.
    let kept = with_state(counted, top, moves.stay & held);
    let zero = moves.restart & some(low) | moves.leave & held;
    with_state(kept, 0, zero)
}

// The words q words up, with full words below.
fn words_up(mut w: [u64; 5], q: usize) -> [u64; 5]
    ensures { WordsUp w q result }
{
    for _ in 0..q {
        w = [u64::MAX, w[0], w[1], w[2], w[3]];
    }
    w
}

// The high word r places up, with the highest r bits of the low one below.
fn joined(high: u64, low: u64, r: usize) -> u64
    requires { r < 64 }
    ensures { Joined high low r result }
{
    (high << r) | (low / 2 >> (63 - r))
}

// The states k up, and every state below k.
fn filled(w: [u64; 5], k: usize) -> [u64; 5]
    ensures { Filled w k result }
{
    let v = words_up(w, k / 64);
    let r = k % 64;
    let a = joined(v[0], u64::MAX, r);
    let b = joined(v[1], v[0], r);
    let c = joined(v[2], v[1], r);
    let d = joined(v[3], v[2], r);
    let e = joined(v[4], v[3], r);
    [a, b, c, d, e]
}

// The states after n unseen evaluations. If 0 can be reached: all below k, those that count up k times, and the top if it was
// held or one comes to it. If not, nothing moves.
pub(crate) fn many_unseen(w: [u64; 5], top: usize, recovers: bool, n: u64) -> [u64; 5]
    requires { (0 < n) × ((0 < top) × (top ≤ 256)) }
    ensures { result ≡ words_of (unseen_times n top recovers (states_of w top)) }
{
    if n == 1 {
        let moves = Moves {
            up: true,
            restart: true,
            leave: recovers,
            stay: true,
        };
        return moved(w, top, moves);
    }
    let held = test(w, top);
    let low = below(w, top);
    // `|` and `&` as in `moved`.
    if some(low) | recovers & held {
        let k = n.min(top as u64) as usize;
        let cut = below(w, top - k);
        let up = filled(cut, k);
        return with_state(up, top, held | !same(low, cut));
    }
    with_state([0; 5], top, held)
}

// Status over a set of the states 0 to top.
pub(crate) fn status_of(w: [u64; 5], top: usize) -> Flag
    requires { top ≤ 256 }
    ensures { result ≡ flag top (status top) (states_of w top) }
{
    if top == 0 {
        return flags::flag_of(false, test(w, 0));
    }
    let low = below(w, top);
    flags::flag_of(test(w, top), some(low))
}

// The states above 0.
fn alerting(mut w: [u64; 5]) -> [u64; 5]
    ensures { Alerting w result }
{
    w[0] = w[0] / 2 * 2;
    w
}

// Alert over a set of the states 0 to top.
pub(crate) fn alert_of(w: [u64; 5], top: usize) -> Flag
    requires { top ≤ 256 }
    ensures { result ≡ flag top alert (states_of w top) }
{
    let upto = below(w, top + 1);
    let high = alerting(upto);
    flags::flag_of(some(high), test(w, 0))
}
