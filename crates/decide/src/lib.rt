// The decision of a move: how far the equation sees, and the first event that it has there. Of all equations but windows, for
// which nil stands here: crates/windows has theirs.
#![tactic(auto)]

ghost use Rattle.std.specs.Prelude.{◌≡◌, true, List, ◌≤◌, ◌<◌, length};
ghost use Rattle.meaning.specs.Events.{Event, horizon};
ghost use Rattle.machine.specs.Reach as machine;
ghost use Rattle.layout.specs.Record.{dec_raw};
ghost use Rattle.encoding.specs.Back.{held_of};
ghost use Rattle.streams.specs.Look.{look_of, plain, own_of, arg_cell, arg_of, Bounded, Within};
ghost use Rattle.events.specs.Near.{keeping, holding};
ghost use Rattle.decide.specs.Search.{due_at};
ghost use Rattle.decide.specs.Near.{test_in, nearer_in, candidate_in, search_in, reach_in, first_in, next_in, to_next, known_to};

use limits::Bound;
use streams::{Kept, Look, Op, Stream};

// What a move finds: an event, or silence up to a bound.
#[derive(Clone, Copy)]
pub enum Next {
    Event(u32, i64),
    Silent(u64),
}

// Whether the reach ends at t.
fn stops(l: Look, b: &[u8], t: u64) -> bool
    requires { Within l × (length b.now ≡ 256) }
    ensures { (x : List Event) → result ≡ machine.stops (plain l.stream.op) (own_of l.stream) (arg_cell l.abound x) (arg_of l.bbound b.now) t }
{
    let s = l.stream;
    match s.op {
        Op::In
        | Op::Nil
        | Op::Unit
        | Op::One(_, _)
        | Op::Two(_, _, _)
        | Op::Signal(_, _, _)
        | Op::Window(_, _, _) => false,
        Op::Last(_, _) => {
            if t <= l.abound {
                return false;
            }
            queue::find(b, t).is_some()
        }
        Op::Delay(_, _) => l.abound < events::point(s.kept, b, t),
    }
}

// The test of a search: an event (give), or the end of the reach.
fn passes(give: bool, l: Look, a: &[u8], b: &[u8], t: u64) -> bool
    requires { Within l × (length a.now ≡ 256) × (length b.now ≡ 256) × (l.stream.bound ≤ t) × (t ≤ horizon) }
    ensures { result ≡ test_in give l a.now b.now t }
{
    if give {
        return events::event_at(l, a, b, t).is_some();
    }
    stops(l, b, t)
}

// The better of a candidate stamp and the best so far.
fn closer(give: bool, l: Look, a: &[u8], b: &[u8], c: u64, best: u64) -> u64
    requires { Within l × (length a.now ≡ 256) × (length b.now ≡ 256) × (best ≤ horizon) }
    ensures { result ≡ nearer_in give l a.now b.now c best }
{
    if c < l.stream.bound {
        return best;
    }
    if best <= c {
        return best;
    }
    if passes(give, l, a, b, c) {
        return c;
    }
    best
}

// The stamp at which a delay set one below z is due.
fn due_at(k: Kept, a: &[u8], z: u64) -> u64
    requires { (length a.now ≡ 256) × (z ≤ horizon) }
    ensures { result ≡ due_at (keeping k) (holding a.now) z }
{
    z.saturating_sub(1) + events::stamps_of(events::set_value(k, a, z))
}

// The candidate that a held event at stamp s makes.
fn candidate(give: bool, l: Look, a: &[u8], s: u64) -> u64
    requires { Within l × (length a.now ≡ 256) × (s < horizon) }
    ensures { result ≡ candidate_in give l a.now s }
{
    let stream = l.stream;
    match stream.op {
        Op::In
        | Op::Nil
        | Op::Unit
        | Op::One(_, _)
        | Op::Two(_, _, _)
        | Op::Last(_, _)
        | Op::Signal(_, _, _)
        | Op::Window(_, _, _) => s,
        Op::Delay(_, _) => {
            if give {
                return due_at(stream.kept, a, s + 1);
            }
            s + 1
        }
    }
}

// The least candidate of the held events of q that passes, at or above the bound and below hi, or hi. From the oldest event
// on: once one has passed, later ones are not tested.
fn scan(give: bool, l: Look, a: &[u8], b: &[u8], q: &[u8], hi: u64) -> u64
    requires { Within l × (length a.now ≡ 256) × (length b.now ≡ 256) × (length q.now ≡ 256) × (hi ≤ horizon) }
    ensures { (result ≡ search_in give l a.now b.now hi (held_of (dec_raw q.now))) × (result ≤ hi) }
{
    let n = queue::count(q);
    let mut best = hi;
    for i in 0..n {
        let stamp = layout::stamp_at(q, i);
        let c = candidate(give, l, a, stamp);
        best = closer(give, l, a, b, c, best);
    }
    best
}

// The stamp of the first event below hi that the equation has where one of its arguments holds one, or hi.
fn scan_both(l: Look, a: &[u8], b: &[u8], hi: u64) -> u64
    requires { Within l × (length a.now ≡ 256) × (length b.now ≡ 256) × (hi ≤ horizon) }
    ensures { result ≡ search_in true l a.now b.now (search_in true l a.now b.now hi (held_of (dec_raw b.now))) (held_of (dec_raw a.now)) }
{
    let best = scan(true, l, a, b, b, hi);
    scan(true, l, a, b, a, best)
}

// The greatest bound that the arguments' bounds allow.
fn limit(l: Look) -> u64
    requires { Within l }
    ensures { ((x y : List Event) → result ≡ machine.limit (plain l.stream.op) (own_of l.stream) (arg_cell l.abound x) (arg_cell l.bbound y)) × (result ≤ horizon) }
{
    let s = l.stream;
    match s.op {
        Op::In => s.bound,
        Op::Nil | Op::Unit | Op::Window(_, _, _) => Bound::HORIZON,
        Op::One(_, _) => l.abound,
        Op::Two(_, _, _) | Op::Signal(_, _, _) => l.abound.min(l.bbound),
        Op::Last(_, _) => l.bbound,
        Op::Delay(_, _) => (l.bbound + 1).min(Bound::HORIZON),
    }
}

// How far the equation sees; a reach below its bound counts as the bound.
fn reach(l: Look, a: &[u8], b: &[u8]) -> u64
    requires { Within l × (length a.now ≡ 256) × (length b.now ≡ 256) }
    ensures { (result ≡ reach_in l a.now b.now) × (result ≤ horizon) }
{
    let s = l.stream;
    let hi = s.bound.max(limit(l));
    match s.op {
        Op::In
        | Op::Nil
        | Op::Unit
        | Op::One(_, _)
        | Op::Two(_, _, _)
        | Op::Signal(_, _, _)
        | Op::Window(_, _, _) => hi,
        Op::Last(_, _) => scan(false, l, a, b, b, hi),
        Op::Delay(_, _) => {
            let best = scan(false, l, a, b, b, hi);
            closer(false, l, a, b, s.bound, best)
        }
    }
}

// The stamp of the first event at or above the bound and below the reach r, or r.
fn first(l: Look, a: &[u8], b: &[u8], r: u64) -> u64
    requires { Within l × (length a.now ≡ 256) × (length b.now ≡ 256) × (r ≤ horizon) × (r ≡ reach_in l a.now b.now) }
    ensures { result ≡ first_in l a.now b.now }
{
    let s = l.stream;
    match s.op {
        Op::In | Op::Nil | Op::Window(_, _, _) => r,
        Op::Unit => closer(true, l, a, b, 0, r),
        Op::One(_, _) => scan(true, l, a, b, a, r),
        Op::Two(_, _, _) | Op::Signal(_, _, _) => scan_both(l, a, b, r),
        Op::Last(_, _) => scan(true, l, a, b, b, r),
        Op::Delay(_, _) => {
            let best = scan(true, l, a, b, b, r);
            let c = due_at(s.kept, a, s.kept.since);
            closer(true, l, a, b, c, best)
        }
    }
}

// The decision, of the stream beside its arguments.
fn next_in(l: Look, a: &[u8], b: &[u8]) -> Next
    requires { Within l × (length a.now ≡ 256) × (length b.now ≡ 256) }
    ensures { (to_next result ≡ next_in l a.now b.now) × (known_to result ≤ horizon) }
{
    let r = reach(l, a, b);
    let t = first(l, a, b, r);
    if r <= t {
        return Next::Silent(r);
    }
    match events::event_at(l, a, b, t) {
        Some(v) => Next::Event(t as u32, v),
        None => Next::Silent(r),
    }
}

// What a move of the stream s finds, with its arguments in a and b.
pub fn find_next(s: Stream, a: &[u8], b: &[u8]) -> Next
    requires { Bounded s × (length a.now ≡ 256) × (length b.now ≡ 256) }
    ensures next { to_next result ≡ machine.decide (plain s.op) (own_of s) (look_of (dec_raw a.now)) (look_of (dec_raw b.now)) }
    ensures known { known_to result ≤ horizon }
{
    let l = streams::beside(s, a, b);
    next_in(l, a, b)
}
