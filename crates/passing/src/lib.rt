// What stream i keeps of the stamps that its bound passes, in place on the bytes of n records: those at which an event is missing are
// counted, and a window slides.
#![tactic(auto)]

ghost use Rattle.std.specs.Prelude.{◌≡◌, true, [], ◌*◌, ◌+◌, ◌≤◌, ◌<◌, length};
ghost use Rattle.operators.specs.Limits.{width_limit};
ghost use Rattle.layout.specs.Record.{encode, decode, row_at};
ghost use Rattle.layout.specs.Windows.{area_length};
ghost use Rattle.encoding.specs.Back.{held_of};
ghost use Rattle.apply.specs.Named.{folding};
ghost use Rattle.sliding.specs.Slide.{missing_row};
ghost use Rattle.counting.specs.Tally.{count_in};
ghost use Rattle.machine.specs.State.{room};
ghost use Rattle.meaning.specs.Missing.{Reason};
ghost use Rattle.streams.specs.Look.{equation, kept_in};
ghost use Rattle.passing.specs.Pass.{arg_in, own_in, other_in, slid_raw, summed_for, passing, Quiet, missed_raw, counted_raw, passed_raw};

use apply::Fold;
use counting::Tally;
use streams::{Kept, Op};

// The number of an argument's record; the first one where there is none such.
pub fn argument(n: usize, a: u8) -> usize
    requires { 0 < n }
    ensures { (result ≡ arg_in n a) × (result < n) }
{
    let i = a as usize;
    if i < n {
        return i;
    }
    0
}

// A window slides as its bound goes from y to x, before the bound is stored.
fn slide(state: &mut [u8], n: usize, i: usize, op: Op, y: u64, x: u64)
    requires { (n * 256 + area_length ≤ length state.old) × (i < n) }
    ensures { state.new ≡ encode n (slid_raw n i (equation op) y x (decode n state.old)) }
{
    let Op::Window(_, k, a) = op else {
        return;
    };
    sliding::slide(state, n, i, sliding::width_of(k), argument(n, a), y, x);
}

// At how many stamps from y on and below x an event of stream i, a window of width k, is missing: its sum is outside the range.
fn summed(state: &[u8], n: usize, i: usize, f: Fold, k: usize, a: usize, y: u64, x: u64) -> Tally
    requires { (n * 256 + area_length ≤ length state.now) × (i < n) × (a < n) × (1 ≤ k) × (k ≤ width_limit) }
    ensures { ((q : Reason) → count_in q result ≡ summed_for q (folding f) (missing_row k i y x (held_of (row_at (decode n state.now) a)) (decode n state.now))) × (result.outside ≤ room + room) × (result.divisors ≤ room + room) }
{
    match f {
        Fold::Sum => Tally {
            outside: sliding::missing(state, n, i, k, a, y, x) as u64,
            divisors: 0,
        },
        Fold::Least | Fold::Greatest => Tally {
            outside: 0,
            divisors: 0,
        },
    }
}

// At how many stamps from y on and below x an event of stream i, that keeps k, is missing.
fn missed(state: &[u8], n: usize, i: usize, op: Op, k: Kept, y: u64, x: u64) -> Tally
    requires { (n * 256 + area_length ≤ length state.now) × (i < n) }
    ensures { ((q : Reason) → count_in q result ≡ missed_raw q n i (equation op) (kept_in k) y x (decode n state.now)) × (result.outside ≤ room + room) × (result.divisors ≤ room + room) }
{
    if let Op::Window(f, w, a) = op {
        return summed(state, n, i, f, sliding::width_of(w), argument(n, a), y, x);
    }
    let a = layout::row_at(state, argument(n, streams::first(op)));
    let b = layout::row_at(state, argument(n, streams::second(op)));
    counting::missed(op, k, a, b, y, x)
}

// Whether an argument holds no event from y on and below x.
fn none_of(state: &[u8], n: usize, a: u8, y: u64, x: u64) -> bool
    requires { (n * 256 ≤ length state.now) × (0 < n) }
    ensures { result ≡ true → passing y x (other_in n a (decode n state.now)) ≡ [] }
{
    let i = argument(n, a);
    counting::passes_none(layout::row_at(state, i), y, x)
}

// Whether the held events say that at no stamp from y on and below x an event is missing: none is passed.
// Most moves end here.
fn quiet(state: &[u8], n: usize, op: Op, y: u64, x: u64) -> bool
    requires { (n * 256 ≤ length state.now) × (0 < n) }
    ensures { result ≡ true → Quiet n (equation op) y x (decode n state.now) }
{
    match op {
        Op::In | Op::Nil | Op::Unit | Op::Last(_, _) | Op::Delay(_, _) => true,
        Op::One(_, a) | Op::Two(_, a, _) | Op::Window(_, _, a) => none_of(state, n, a, y, x),
        Op::Signal(_, a, b) => none_of(state, n, a, y, x) && none_of(state, n, b, y, x),
    }
}

// Counts for stream i, with this operator, that keeps k, the stamps from y on and below x at which an event is missing.
fn count(state: &mut [u8], n: usize, i: usize, op: Op, k: Kept, y: u64, x: u64)
    requires { (n * 256 + area_length ≤ length state.old) × (i < n) × (equation op ≡ (own_in i (decode n state.old)).eqn) }
    ensures { state.new ≡ encode n (counted_raw n i (equation op) (kept_in k) y x (decode n state.old)) }
{
    let row = layout::row_at(state, i);
    if !operators::can_lack(layout::byte_at(row, layout::OP)) {
        return;
    }
    if quiet(state, n, op, y, x) {
        return;
    }
    let c = missed(state, n, i, op, k, y, x);
    if c.outside + c.divisors == 0 {
        return;
    }
    let at = i * layout::RECORD;
    let end = at + layout::RECORD;
    counting::add(&mut state[at..end], c.outside, c.divisors);
}

// What stream i keeps of the stamps that its bound passes, from y to x, before the bound is stored: those below z are counted,
// and a window slides.
pub fn pass(state: &mut [u8], n: usize, i: usize, op: Op, k: Kept, y: u64, x: u64, z: u64)
    requires { (n * 256 + area_length ≤ length state.old) × (i < n) × (equation op ≡ (own_in i (decode n state.old)).eqn) }
    ensures { state.new ≡ encode n (passed_raw n i (equation op) (kept_in k) y x z (decode n state.old)) }
{
    count(state, n, i, op, k, y, z);
    slide(state, n, i, op, y, x);
}
