// A move, in place on the bytes of n records: what it finds, and then what its bound passes and the step that it makes.
#![tactic(auto)]

ghost use Rattle.std.specs.Prelude.{◌≡◌, true, cond, ◌*◌, ◌+◌, ◌≤◌, ◌<◌, min, max, length};
ghost use Rattle.meaning.specs.Events.{horizon};
ghost use Rattle.operators.specs.Limits.{width_limit};
ghost use Rattle.layout.specs.Record.{num, encode, decode, row_at, bound_f};
ghost use Rattle.layout.specs.Windows.{area_length};
ghost use Rattle.encoding.specs.Back.{held_of};
ghost use Rattle.apply.specs.Named.{folding};
ghost use Rattle.sliding.specs.Slide.{fit_row};
ghost use Rattle.machine.specs.Counting.{end_of};
ghost use Rattle.streams.specs.Look.{look_of, equation, own_of, Bounded};
ghost use Rattle.decide.specs.Near.{to_next, known_to};
ghost use Rattle.passing.specs.Pass.{arg_in, other_in};
ghost use Rattle.moves.specs.Move.{limit_raw, found_raw, can_raw, moved_raw};

use apply::Fold;
use decide::Next;
use limits::Bound;
use streams::{Op, Stream};

// The bound of an argument.
fn bound_of(state: &[u8], n: usize, a: u8) -> u64
    requires { (n * 256 ≤ length state.now) × (0 < n) }
    ensures { result ≡ num bound_f (row_at (decode n state.now) (arg_in n a)) }
{
    let i = passing::argument(n, a);
    layout::word_at(layout::row_at(state, i), layout::BOUND)
}

// Whether the bounds as they are stored say that one of two arguments is not ahead of a bound.
fn not_ahead(state: &[u8], n: usize, a: u8, b: u8, bound: u64) -> bool
    requires { (n * 256 ≤ length state.now) × (0 < n) }
    ensures { result ≡ true → min (other_in n a (decode n state.now)).bound (other_in n b (decode n state.now)).bound ≤ min bound horizon }
{
    bound_of(state, n, a) <= bound || bound_of(state, n, b) <= bound
}

// Whether the bounds alone, as they are stored, say that a stream with this operator cannot move: it is an input, an
// argument that it waits for is not ahead of it, or it has none and is known to the end.
// Most streams that a run looks at cannot move, and end here.
fn stuck(state: &[u8], n: usize, op: Op, bound: u64) -> bool
    requires { (n * 256 ≤ length state.now) × (0 < n) }
    ensures { result ≡ true → limit_raw n (equation op) (min bound horizon) (decode n state.now) ≤ min bound horizon }
{
    match op {
        Op::In => true,
        Op::Nil | Op::Unit => bound == Bound::HORIZON,
        Op::One(_, a) | Op::Last(_, a) | Op::Window(_, _, a) => bound_of(state, n, a) <= bound,
        Op::Two(_, a, b) | Op::Signal(_, a, b) => not_ahead(state, n, a, b, bound),
        Op::Delay(_, b) => bound_of(state, n, b) < bound,
    }
}

// What a move of stream i, a window of width k with bound y, finds: where it first gives a value, or silence as far as its argument
// a is known.
fn window_ahead(state: &[u8], n: usize, i: usize, f: Fold, k: usize, a: usize, y: u64) -> Next
    requires { (n * 256 + area_length ≤ length state.now) × (i < n) × (a < n) × (1 ≤ k) × (k ≤ width_limit) × (y ≤ horizon) }
    ensures next { to_next result ≡ fit_row (folding f) k i y (max y (look_of (row_at (decode n state.now) a)).bound) (held_of (row_at (decode n state.now) a)) (decode n state.now) }
    ensures known { known_to result ≤ horizon }
{
    let hi = y.max(streams::bound_of(layout::row_at(state, a)));
    match sliding::fit(state, n, i, f, k, a, y, hi) {
        Some((t, v)) => Next::Event(t, v),
        None => Next::Silent(hi),
    }
}

// What a move of stream i, which is s, finds: a window by itself, any other over its candidate stamps.
fn ahead(state: &[u8], n: usize, i: usize, s: Stream) -> Next
    requires { (n * 256 + area_length ≤ length state.now) × (i < n) × Bounded s }
    ensures next { to_next result ≡ found_raw n i (equation s.op) (own_of s) (decode n state.now) }
    ensures known { known_to result ≤ horizon }
{
    let op = s.op;
    if let Op::Window(f, k, a) = op {
        return window_ahead(
            state,
            n,
            i,
            f,
            sliding::width_of(k),
            passing::argument(n, a),
            s.bound,
        );
    }
    let a = layout::row_at(state, passing::argument(n, streams::first(op)));
    let b = layout::row_at(state, passing::argument(n, streams::second(op)));
    decide::find_next(s, a, b)
}

// Up to where a move has something to count: at the stamp of the event that it finds nothing is missing.
fn counted_to(next: Next) -> u64
    ensures { result ≡ end_of (to_next next) }
{
    match next {
        Next::Silent(r) => r,
        Next::Event(t, _) => t as u64,
    }
}

// Moves stream i, if it can: an input cannot, and no equation whose bound would stay.
// The stream is rebuilt once: its bound is cut to the horizon, and what it keeps is read, only where the bounds let it move.
pub fn move_one(state: &mut [u8], n: usize, i: usize) -> bool
    requires { (n * 256 + area_length ≤ length state.old) × (i < n) }
    ensures can { result ≡ can_raw n i (decode n state.old) }
    ensures moved { state.new ≡ cond (can_raw n i (decode n state.old)) (encode n (moved_raw n i (decode n state.old))) state.old }
{
    let row = layout::row_at(state, i);
    let stored = layout::word_at(row, layout::BOUND);
    let op = streams::operator_at(row);
    if stuck(state, n, op, stored) {
        return false;
    }
    let bound = stored.min(Bound::HORIZON);
    let s = streams::complete(row, op, bound);
    let held = layout::byte_at(row, layout::COUNT);
    let next = ahead(state, n, i, s);
    let y = making::bound_after(next, held);
    if y == bound {
        return false;
    }
    let k = s.kept;
    passing::pass(state, n, i, op, k, bound, y, counted_to(next));
    making::make(state, n, i, op, k, next, held);
    true
}
