// What an equation has at a stamp, from its bound on: from its arguments' held events and what it keeps.
#![tactic(auto)]

ghost use Rattle.std.specs.Prelude.{◌≡◌, suc, pred, ◌≤◌, ◌<◌, ◌^◌, ◌||◌, length};
ghost use Rattle.meaning.specs.Events.{found, has, horizon};
ghost use Rattle.meaning.specs.Table.{last_at, delay_at, signal_at, unit_at};
ghost use Rattle.machine.specs.Reach as machine;
ghost use Rattle.layout.specs.Record.{dec_raw};
ghost use Rattle.encoding.specs.Back.{held_of};
ghost use Rattle.apply.specs.Named.{calculation};
ghost use Rattle.events.specs.Near.{keeping, holding, size, gives_in};

use apply::Calc;
use streams::{Kept, Look, Op};

// The first argument's event one below z, held or kept.
pub fn set_value(k: Kept, a: &[u8], z: u64) -> Option<i64>
    requires { length a.now ≡ 256 }
    ensures { result ≡ machine.value_at (keeping k) (holding a.now) z }
{
    let x = queue::find(a, z.saturating_sub(1));
    if z == k.since {
        return x.or(k.value);
    }
    x
}

// One past the latest set point below t.
pub fn point(k: Kept, b: &[u8], t: u64) -> u64
    requires { length b.now ≡ 256 }
    ensures { result ≡ machine.point (keeping k) (holding b.now) t }
{
    k.since.max(queue::past_latest(b, t))
}

// A value as a number of stamps; one below 0 is 0.
pub fn stamps_of(x: Option<i64>) -> u64
    ensures { (result ≡ size x) × (result < 2 ^ 63) }
{
    let Some(v) = x else {
        return 0;
    };
    if v < 0 {
        return 0;
    }
    v as u64
}

// Whether a delay set one below z is due at t.
fn due(k: Kept, a: &[u8], z: u64, t: u64) -> bool
    requires { (length a.now ≡ 256) × (z ≤ t) }
    ensures { result ≡ machine.due (keeping k) (holding a.now) z t }
{
    if z == 0 {
        return false;
    }
    let n = stamps_of(set_value(k, a, z));
    n == t - (z - 1)
}

// What a stream had latest below t: held in its record, or else kept.
pub fn held_latest(r: &[u8], t: u64, kept: Option<i64>) -> Option<i64>
    requires { length r.now ≡ 256 }
    ensures { result ≡ machine.held_latest (holding r.now) t kept }
{
    queue::latest_before(r, t).or(kept)
}

// last: what the first argument had latest before t, held or kept, if the second has an event at t.
fn last_at(k: Kept, a: &[u8], b: &[u8], t: u64) -> Option<i64>
    requires { (length a.now ≡ 256) × (length b.now ≡ 256) }
    ensures { result ≡ last_at (found (held_of (dec_raw b.now)) t) (machine.held_latest (holding a.now) t k.prev) }
{
    queue::find(b, t)?;
    held_latest(a, t, k.prev)
}

// sadd to seq: if either argument has an event at t, the calculation on what both had latest at t or before, held or kept.
fn signal_at(g: Calc, k: Kept, a: &[u8], b: &[u8], t: u64) -> Option<i64>
    requires { (length a.now ≡ 256) × (length b.now ≡ 256) × (t ≤ horizon) }
    ensures { result ≡ signal_at (calculation g) (found (held_of (dec_raw a.now)) t) (found (held_of (dec_raw b.now)) t) (machine.held_latest (holding a.now) (suc t) k.prev) (machine.held_latest (holding b.now) (suc t) k.prevb) }
{
    let x = queue::find(a, t);
    let y = queue::find(b, t);
    if x.is_none() && y.is_none() {
        return None;
    }
    let v = held_latest(a, t + 1, k.prev);
    let w = held_latest(b, t + 1, k.prevb);
    apply::calc_at(g, v, w)
}

// delay: 0, if it is due at t from its latest set point.
fn delay_at(k: Kept, a: &[u8], b: &[u8], t: u64) -> Option<i64>
    requires { (length a.now ≡ 256) × (length b.now ≡ 256) × (k.since ≤ t) }
    ensures { result ≡ delay_at (machine.due (keeping k) (holding a.now) (machine.point (keeping k) (holding b.now) t) t) }
{
    let z = point(k, b, t);
    if due(k, a, z, t) {
        return Some(0);
    }
    None
}

// unit: 0 at stamp 0.
fn unit_at(t: u64) -> Option<i64>
    ensures { result ≡ unit_at t }
{
    if t == 0 {
        return Some(0);
    }
    None
}

// What the equation has at t. A window is not looked for by stamps, and has nothing here.
pub fn event_at(l: Look, a: &[u8], b: &[u8], t: u64) -> Option<i64>
    requires { (length a.now ≡ 256) × (length b.now ≡ 256) × (l.stream.kept.since ≤ t) × (t ≤ horizon) }
    ensures { result ≡ gives_in l a.now b.now t }
{
    let s = l.stream;
    match s.op {
        Op::In | Op::Nil | Op::Window(_, _, _) => None,
        Op::Unit => unit_at(t),
        Op::One(f, _) => apply::one_at(f, t, queue::find(a, t)),
        Op::Two(g, _, _) => {
            let x = queue::find(a, t);
            let y = queue::find(b, t);
            apply::two_at(g, x, y)
        }
        Op::Last(_, _) => last_at(s.kept, a, b, t),
        Op::Delay(_, _) => delay_at(s.kept, a, b, t),
        Op::Signal(g, _, _) => signal_at(g, s.kept, a, b, t),
    }
}
