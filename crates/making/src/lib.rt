// The step that a move makes, in place on the bytes of n records: the event comes in or the bound goes on alone, what is kept is
// brought up to date, readers are told, and what nobody waits for is let go.
#![tactic(auto)]

ghost use Rattle.std.specs.Prelude.{◌≡◌, [], ◌∷◌, ◌*◌, ◌≤◌, ◌<◌, length};
ghost use Rattle.meaning.specs.Arguments.{reads};
ghost use Rattle.meaning.specs.Events.{horizon};
ghost use Rattle.layout.specs.Record.{encode, decode};
ghost use Rattle.streams.specs.Look.{equation, kept_in};
ghost use Rattle.decide.specs.Near.{to_next, known_to};
ghost use Rattle.passing.specs.Pass.{own_in};
ghost use Rattle.making.specs.Make.{bound_raw, kept_raw, absorbed_raw, released_args, released_all, silent_raw, event_raw, step_raw};

use decide::Next;
use limits::{Bound, Queue};
use streams::{Kept, Op};

// What stream i, with this operator, that kept k, keeps once its bound is y: brought up to date from the held events.
fn kept(state: &[u8], n: usize, i: usize, op: Op, k: Kept, y: u64) -> Kept
    requires { (n * 256 ≤ length state.now) × (i < n) }
    ensures { kept_in result ≡ kept_raw n i (equation op) (kept_in k) y (decode n state.now) }
{
    let own = layout::row_at(state, i);
    let a = layout::row_at(state, passing::argument(n, streams::first(op)));
    let b = layout::row_at(state, passing::argument(n, streams::second(op)));
    keeping::absorbed(op, k, y, own, a, b)
}

// Brings what stream i, a last, a delay or a signal form, keeps up to date.
fn keep_row(state: &mut [u8], n: usize, i: usize, op: Op, k: Kept, y: u64)
    requires { (n * 256 ≤ length state.old) × (i < n) }
    ensures { state.new ≡ encode n (absorbed_raw n i (equation op) (kept_in k) y (decode n state.old)) }
{
    let at = i * layout::RECORD;
    let end = at + layout::RECORD;
    let new = kept(state, n, i, op, k, y);
    keeping::keep(&mut state[at..end], op, new);
}

// Brings what stream i keeps in its record up to date: a last, a delay or a signal form, the others keep nothing there.
// The operator is made anew in its arm: so the others do not store it for the call.
fn absorb_row(state: &mut [u8], n: usize, i: usize, op: Op, k: Kept, y: u64)
    requires { (n * 256 ≤ length state.old) × (i < n) }
    ensures { state.new ≡ encode n (absorbed_raw n i (equation op) (kept_in k) y (decode n state.old)) }
{
    match op {
        Op::In | Op::Nil | Op::Unit | Op::One(_, _) | Op::Two(_, _, _) | Op::Window(_, _, _) => {}
        Op::Last(a, b) => keep_row(state, n, i, Op::Last(a, b), k, y),
        Op::Delay(a, b) => keep_row(state, n, i, Op::Delay(a, b), k, y),
        Op::Signal(g, a, b) => keep_row(state, n, i, Op::Signal(g, a, b), k, y),
    }
}

// Lets go what nobody waits for of one argument.
fn release_one(state: &mut [u8], n: usize, a: u8)
    requires { (n * 256 ≤ length state.old) × (0 < n) }
    ensures { state.new ≡ encode n (released_args n (a ∷ []) (decode n state.old)) }
{
    let i = passing::argument(n, a);
    readers::release_row(state, n, i);
}

// Lets go what nobody waits for of two arguments.
fn release_two(state: &mut [u8], n: usize, a: u8, b: u8)
    requires { (n * 256 ≤ length state.old) × (0 < n) }
    ensures { state.new ≡ encode n (released_args n (a ∷ b ∷ []) (decode n state.old)) }
{
    release_one(state, n, a);
    release_one(state, n, b);
}

// Lets go what nobody waits for of the arguments of an operator.
fn release_args(state: &mut [u8], n: usize, op: Op)
    requires { (n * 256 ≤ length state.old) × (0 < n) }
    ensures { state.new ≡ encode n (released_args n (reads (equation op)) (decode n state.old)) }
{
    match op {
        Op::In | Op::Nil | Op::Unit => {}
        Op::One(_, a) | Op::Window(_, _, a) => release_one(state, n, a),
        Op::Two(_, a, b) | Op::Last(a, b) | Op::Delay(a, b) | Op::Signal(_, a, b) => {
            release_two(state, n, a, b)
        }
    }
}

// Lets go what nobody waits for of stream i and of its arguments.
fn release_all(state: &mut [u8], n: usize, i: usize, op: Op)
    requires { (n * 256 ≤ length state.old) × (i < n) }
    ensures { state.new ≡ encode n (released_all n i (equation op) (decode n state.old)) }
{
    readers::release_row(state, n, i);
    release_args(state, n, op);
}

// The bound of stream i, that kept k, goes to y, and no event comes in.
fn move_silent(state: &mut [u8], n: usize, i: usize, op: Op, k: Kept, y: u64)
    requires { (n * 256 ≤ length state.old) × (i < n) × (y ≤ horizon) × (kept_in k ≡ (own_in i (decode n state.old)).kept) }
    ensures { state.new ≡ encode n (silent_raw n i (equation op) (kept_in k) y (decode n state.old)) }
{
    offers::progress(state, n, i, y);
    absorb_row(state, n, i, op, k, y);
    release_all(state, n, i, op);
}

// The event (t, v) comes into stream i, that kept k.
fn move_event(state: &mut [u8], n: usize, i: usize, op: Op, k: Kept, t: u32, v: u64)
    requires { (n * 256 ≤ length state.old) × (i < n) × (kept_in k ≡ (own_in i (decode n state.old)).kept) }
    ensures { state.new ≡ encode n (event_raw n i (equation op) (kept_in k) t v (decode n state.old)) }
{
    let at = i * layout::RECORD;
    let end = at + layout::RECORD;
    queue::append(&mut state[at..end], t, v);
    absorb_row(state, n, i, op, k, t as u64 + 1);
    readers::tell_all(state, n, i as u64, t, v);
    release_all(state, n, i, op);
}

// Where the bound of a stream that holds this many events goes.
pub fn bound_after(next: Next, held: u64) -> u64
    requires { known_to next ≤ horizon }
    ensures { (result ≡ bound_raw (to_next next) held) × (result ≤ horizon) }
{
    match next {
        Next::Silent(r) => r,
        Next::Event(t, _) => {
            if Queue::new(held).is_full() {
                return t as u64;
            }
            Bound::past(t).stamp
        }
    }
}

// Makes the move that finds this, of stream i, that kept k: an event comes in if there is room, else the bound goes on alone.
pub fn make(state: &mut [u8], n: usize, i: usize, op: Op, k: Kept, next: Next, held: u64)
    requires { (n * 256 ≤ length state.old) × (i < n) × (known_to next ≤ horizon) × (kept_in k ≡ (own_in i (decode n state.old)).kept) }
    ensures { state.new ≡ encode n (step_raw n i (equation op) (kept_in k) (to_next next) held (decode n state.old)) }
{
    let y = bound_after(next, held);
    match next {
        Next::Silent(_) => {}
        Next::Event(t, v) => {
            if !Queue::new(held).is_full() {
                move_event(state, n, i, op, k, t, num::bits(v));
                return;
            }
        }
    }
    move_silent(state, n, i, op, k, y);
}
